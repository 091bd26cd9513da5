// Plays one step of a plan: a choice several times, or choices by a rule.
ghost use Rattle.std.specs.Prelude.{◌≡◌, OnOk};
ghost use Rattle.plans.specs.{Play.choice_of, Play.followed, Play.most_of, Play.repeated, Play.step_played, Progress.chosen};

use crate::player::Player;
use crate::word::{Chosen, Rule, Step};
use std::alloc::{AllocError, Global};
use thread_machine::Choice;

/// Returns what a plan's word chooses, in the type that a machine takes.
fn choice_of(who: Chosen) -> Choice
    ensures { result ≡ choice_of who }
{
    Choice {
        thread: who.thread,
        expiry: who.expiry,
    }
}

impl Player {
    /// Makes a choice `times` times. It stops if one is asked for when no more choices are allowed.
    fn repeat(&mut self, choice: Choice, times: u32) -> Result<(), AllocError>
        ensures { OnOk result (self.new ≡ repeated times (chosen choice) self.old) }
    {
        for done in 0..times {
            self.choose(choice)?;
            if self.is_over() {
                return Ok(());
            }
        }
        Ok(())
    }

    /// Makes choices by a rule, at most `most`. It stops if the rule has none, or one is asked for when no more are allowed.
    pub fn follow(&mut self, alloc: Global, rule: Rule, most: u32) -> Result<(), AllocError>
        ensures { OnOk result (self.new ≡ followed rule most 0 self.old) }
    {
        for k in 0..most {
            let Some(choice) = self.next_choice(alloc, rule, k)? else {
                return Ok(());
            };
            self.choose(choice)?;
            if self.is_over() {
                return Ok(());
            }
        }
        Ok(())
    }

    /// Returns the most choices of a rule. Without a limit it is one more than are allowed, so that running out is noted.
    fn most_of(&self, most: Option<u32>) -> u32
        ensures { result ≡ most_of most self.now }
    {
        match most {
            Some(most) => most,
            None => self.left() + 1,
        }
    }

    /// Makes the choices of one step: a choice several times, or choices by a rule.
    #[tactic(auto, unfolding(crate::specs::Play::step_played))]
    pub fn play_step(&mut self, alloc: Global, step: Step) -> Result<(), AllocError>
        ensures { OnOk result (self.new ≡ step_played step self.old) }
    {
        match step {
            Step::Make { chosen, times } => self.repeat(choice_of(chosen), times),
            Step::Follow { rule, most } => {
                let most = self.most_of(most);
                self.follow(alloc, rule, most)
            }
        }
    }
}
