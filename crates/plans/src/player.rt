// Makes the choices of a plan on a machine, and keeps them as runs.
ghost use Rattle.std.specs.Prelude.{◌≡◌, ◌<◌, ◌≤◌, ◌==◌, ◌&&◌, IfOk, OnOk, true};
ghost use Rattle.thread_machine.specs.{Ready.is_choice_ready, World.world_of, Step.refusal_of};
ghost use Rattle.schedule_reader.specs.Schedule.{choices_of};
ghost use Rattle.plans.specs.{Planned.AreRuns, Progress.begun, Progress.begun_at, Progress.chosen, Progress.chosen_by};
ghost use Rattle.plans.specs.Rules.{can_expire_in, is_ready_in, thread_count};

use crate::planned::Planned;
use loader::Loaded;
use schedule_reader::{Run, push_joined};
use std::alloc::{AllocError, Global};
use std::marker::Model;
use thread_machine::{Choice, Machine, StepFault};

/// The machine's limit of steps. It is above `MOST_CHOICES`, so that the player's own limit is always reached first.
const MOST_STEPS: u32 = 1_000_000_000;
/// The most choices that a plan makes.
pub const MOST_CHOICES: u32 = 1_000_000;

/// A machine, the choices that led to it, how many more are allowed (`left`), and whether one was asked for beyond (`stopped`).
#[derive(Drop)]
pub struct Player {
    machine: Machine,
    runs: Vec<Run>,
    after_last: u8,
    left: u32,
    stopped: bool,
}

impl Model for Player {
    ghost use Rattle.thread_machine.specs.World.{world_of};
    ghost use Rattle.schedule_reader.specs.Schedule.{choices_of};
    ghost use Rattle.plans.specs.{Planned.AreRuns, Progress.Progress};
    ghost use Rattle.std.specs.Prelude.{◌≤◌};

    ghost Value = { Progress };

    ghost view = { λ player. record {
      world = world_of player.machine;
      choices = choices_of player.runs.items;
      after_last = player.after_last;
      left = player.left;
      stopped = player.stopped;
    } };

    ghost invariant = { λ player. AreRuns player.runs.items × (player.left ≤ 1000000) };
}

impl Player {
    /// Returns a player that may make `most` choices from a machine's present state on.
    #[tactic(auto, unfolding(crate::specs::Progress::begun_at))]
    pub fn with_room(alloc: Global, machine: Machine, most: u32) -> Player
        requires { most ≤ 1000000 }
        ensures { result ≡ record (begun_at (world_of machine)) { left = most } }
    {
        Player {
            machine,
            runs: Vec::new(alloc),
            after_last: 0,
            left: most,
            stopped: false,
        }
    }

    /// Returns a player that may make `most` choices from the beginning of a program on.
    #[tactic(auto, unfolding(crate::specs::Progress::begun))]
    pub fn new(alloc: Global, program: Loaded, most: u32) -> Result<Player, AllocError>
        requires { most ≤ 1000000 }
        ensures { IfOk result (λ player. player ≡ begun program most) }
    {
        let machine = Machine::new(alloc, program, MOST_STEPS)?;
        Ok(Player::with_room(alloc, machine, most))
    }

    /// Returns the machine, the choices made, and whether one more was asked for than allowed.
    pub fn into_planned(self) -> Planned
        ensures choices { choices_of result.runs.items ≡ self.choices }
        ensures world { world_of result.machine ≡ self.world }
        ensures stopped { result.stopped ≡ self.stopped }
        ensures runs { AreRuns result.runs.items }
    {
        Planned {
            machine: self.machine,
            runs: self.runs,
            stopped: self.stopped,
        }
    }

    /// Returns how many more choices are allowed.
    pub fn left(&self) -> u32
        ensures left { result ≡ self.now.left }
        ensures most { result ≤ 1000000 }
    {
        self.left
    }

    /// Returns whether a choice was asked for when none was left. Then nothing changes any more. Both fields are compared:
    /// the invariant doesn't say that a stopped player has no choice left.
    pub fn is_over(&self) -> bool
        ensures { result ≡ ((self.now.left == 0) && self.now.stopped) }
    {
        self.left == 0 && self.stopped
    }

    /// Returns how many threads the program has.
    pub fn thread_count(&self) -> usize
        ensures count { result ≡ thread_count self.now.world }
        ensures few { result ≤ 64 }
    {
        self.machine.thread_count()
    }

    /// Returns whether a thread's turn would be a step.
    #[tactic(auto, unfolding(crate::specs::Rules::is_ready_in))]
    pub fn is_ready(&self, thread: u8) -> bool
        requires { thread < thread_count self.now.world }
        ensures { result ≡ is_ready_in self.now.world thread }
    {
        self.machine.is_ready(thread)
    }

    /// Returns whether a thread's wait may time out.
    #[tactic(auto, unfolding(crate::specs::Rules::can_expire_in))]
    pub fn can_expire(&self, thread: u8) -> bool
        requires { thread < thread_count self.now.world }
        ensures { result ≡ can_expire_in self.now.world thread }
    {
        self.machine.can_expire(thread)
    }

    /// Returns whether a choice of a thread, its turn or its time-out, would be a step.
    pub fn is_choice_ready(&self, choice: Choice) -> bool
        requires { choice.thread < thread_count self.now.world }
        ensures { result ≡ is_choice_ready self.now.world.program choice self.now.world.scene }
    {
        if choice.expiry {
            self.machine.can_expire(choice.thread)
        } else {
            self.machine.is_ready(choice.thread)
        }
    }

    /// Returns the number of the thread chosen last, plus 1, or 0 before the first choice. From this number on, the rule `..`
    /// (`turn_about`) looks for a thread that is ready.
    pub fn after_last(&self) -> u8
        ensures { result ≡ self.now.after_last }
    {
        self.after_last
    }

    /// Notes that a choice was asked for when none was left.
    fn stop(&mut self)
        ensures { self.new ≡ record self.old { stopped = true } }
    {
        self.stopped = true;
    }

    /// Makes a choice and counts it, idle or not. If the machine refuses it, nothing changes. Room for it is reserved before
    /// the step, so that each step that is played is also kept.
    fn make(&mut self, choice: Choice) -> Result<(), AllocError>
        requires thread { choice.thread < thread_count self.old.world }
        requires few { thread_count self.old.world ≤ 64 }
        ensures { OnOk result (self.new ≡ chosen_by (refusal_of self.old.world choice) choice self.old) }
    {
        self.runs.reserve(1)?;
        match self.machine.step(choice) {
            Ok(_) => {
                push_joined(&mut self.runs, choice);
                self.after_last = choice.thread + 1;
                self.left = self.left.saturating_sub(1);
                Ok(())
            }
            Err(StepFault::Memory) => Err(AllocError),
            Err(StepFault::NoSuchThread) => Ok(()),
            Err(StepFault::StepLimit) => Ok(()),
        }
    }

    /// Makes a choice, or notes that none is left. One that the machine refuses changes nothing.
    #[tactic(auto, unfolding(crate::specs::Progress::chosen), using(crate::proofs::Choosing::none_refused))]
    pub fn choose(&mut self, choice: Choice) -> Result<(), AllocError>
        ensures { OnOk result (self.new ≡ chosen choice self.old) }
    {
        if self.left() == 0 {
            self.stop();
            return Ok(());
        }
        if choice.thread as usize >= self.thread_count() {
            return Ok(());
        }
        self.make(choice)
    }
}
