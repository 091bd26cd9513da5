//! Idle choices in a row.
ghost use Rattle.std.specs.Prelude.{◌≡◌, ◌+◌, ◌<◌, length, replicate, None};
ghost use Rattle.thread_machine.specs.{World.world_of, Execution.execution, Idle.idle_event, Idle.idle_times};

use super::{MOST_CHOICES, Machine};
use crate::choice::Choice;

impl Machine {
    /// Plays an idle choice `most` times, or less often if the machine takes no more choices. Returns how often: 0 if the
    /// choice isn't idle. The time is constant, because idle choices are only counted.
    pub fn idle(&mut self, choice: Choice, most: u64) -> u64
        requires { choice.thread < length self.old.scene.threads }
        ensures times { result ≡ idle_times (world_of self.old) choice most }
        ensures played { execution (world_of self.old) (replicate result choice)
            ≡ record { world = world_of self.new; events = replicate result idle_event; refusal = None } }
        ensures stored { self.new ≡ record self.old { choices = self.old.choices + result } }
    {
        if self.is_choice_ready(choice) {
            return 0;
        }
        let times = most.min(MOST_CHOICES - self.choices);
        self.choices += times;
        times
    }
}
