ghost use Rattle.std.specs.Prelude.{◌≡◌};
ghost use Rattle.commands.specs.Pauses.{pause_of, word_at};

use crate::pauses::pause::Pause;
use rand_core::utils::NextWord;
use rand_pcg::Pcg32;

/// The pauses of a run's workers before some of their turns. The seed's generator says which, for each run, thread and turn.
#[derive(Clone, Copy, PartialEq, Eq)]
pub struct Stirred {
    pub seed: u64,
    /// The number of the run. Each run has other pauses.
    pub run: u32,
}

impl Stirred {
    /// Returns the pause before turn `step` of a thread: random number `step` of a sequence for this seed, run and thread.
    pub fn pause(&self, thread: u8, step: u32) -> Pause
        ensures { result ≡ pause_of (word_at self.now.seed self.now.run thread step) }
    {
        // 256 streams for each run: one for each value of `thread`.
        let stream = u64::from(self.run) * 256 + u64::from(thread);
        let mut words = Pcg32::new(self.seed, stream);
        words.advance(u64::from(step));
        Pause::of(words.next_word())
    }
}
