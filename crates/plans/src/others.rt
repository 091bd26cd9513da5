// What follows a choice that is made instead of a run's own: the chosen thread goes on, then the run, then all threads.
ghost use Rattle.std.specs.Prelude.{◌≡◌, ◌<◌, ◌≤◌, IfOk, OnOk};
ghost use Rattle.plans.specs.Others.{all_kept, gone_ahead, is_step_in, kept, other_choices, turned_about};
ghost use Rattle.plans.specs.Planned.{AreRuns};
ghost use Rattle.schedule_reader.specs.Schedule.{choices_of};
ghost use Rattle.thread_machine.specs.World.{world_of};

use crate::planned::Planned;
use crate::player::Player;
use crate::word::Rule;
use std::alloc::{AllocError, Global};
use thread_machine::{Choice, Machine};

/// The most turns that the chosen thread takes after its first choice.
const MOST_TURNS: u32 = 99;

impl Player {
    /// Returns whether a choice would be a step. If its thread doesn't exist, the choice wouldn't be one.
    #[tactic(auto, unfolding(crate::specs::Others::is_step_in))]
    fn is_step(&self, choice: Choice) -> bool
        ensures { result ≡ is_step_in self.now.world choice }
    {
        (choice.thread as usize) < self.thread_count() && self.is_choice_ready(choice)
    }

    /// Makes a choice, and then at most 99 turns of its thread, while the thread is runnable.
    #[tactic(auto, unfolding(crate::specs::Others::gone_ahead))]
    fn go_ahead(&mut self, alloc: Global, choice: Choice) -> Result<(), AllocError>
        ensures { OnOk result (self.new ≡ gone_ahead choice self.old) }
    {
        self.choose(choice)?;
        self.follow(alloc, Rule::Alone(choice.thread), MOST_TURNS)
    }

    /// Makes a choice of the original run if it is a step now. After the other choices it may no longer be one: it is left out.
    #[tactic(auto, unfolding(crate::specs::Others::kept))]
    fn keep(&mut self, choice: Choice) -> Result<(), AllocError>
        ensures { OnOk result (self.new ≡ kept choice self.old) }
    {
        if self.is_step(choice) {
            self.choose(choice)
        } else {
            Ok(())
        }
    }

    /// Makes the choices of the original run in order, and leaves out those that wouldn't be a step.
    fn keep_all(&mut self, choices: &[Choice]) -> Result<(), AllocError>
        ensures { OnOk result (self.new ≡ all_kept choices.now self.old) }
    {
        for choice in choices {
            self.keep(*choice)?;
        }
        Ok(())
    }

    /// Makes steps of all threads in turn, until none is possible or no more choices are allowed.
    #[tactic(auto, unfolding(crate::specs::Others::turned_about))]
    fn turn_all_about(&mut self, alloc: Global) -> Result<(), AllocError>
        ensures { OnOk result (self.new ≡ turned_about self.old) }
    {
        let most = self.left();
        self.follow(alloc, Rule::TurnAbout, most)
    }
}

/// Returns what follows if `choice` is made at this point of a run, at most `most` choices: the choice and turns of its thread,
/// then those of the original run's choices (`own`) that are steps now, and then turns of all threads.
pub fn other_choices(
    alloc: Global,
    machine: Machine,
    most: u32,
    choice: Choice,
    own: &[Choice],
) -> Result<Planned, AllocError>
    requires { most ≤ 1000000 }
    ensures choices { IfOk result (λ planned. choices_of planned.runs.items
        ≡ other_choices (world_of machine) most choice own.now) }
    ensures runs { IfOk result (λ planned. AreRuns planned.runs.items) }
{
    let mut player = Player::with_room(alloc, machine, most);
    player.go_ahead(alloc, choice)?;
    player.keep_all(own)?;
    player.turn_all_about(alloc)?;
    Ok(player.into_planned())
}
