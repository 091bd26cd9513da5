//! The pauses of several live runs: their workers pause before some turns. So orders happen that are rare otherwise.
//!
//! A worker is the real thread that plays a thread of the program (`thread_runner`). Before each turn it passes a gate, and
//! there it may pause. A seed determines the pauses of each thread in each run. The same seed gives the same pauses. The
//! pauses influence only the order in which the workers take the lock. A run is recorded and replayed in the same way with
//! and without pauses.
ghost use Rattle.std.specs.Prelude.{◌≡◌, option_map};

pub mod pause;
pub mod stirred;

use crate::pauses::pause::Pause;
use crate::pauses::stirred::Stirred;
use thread_runner::Gate;

/// Whether threads pause before some of their turns, and by which seed.
#[derive(Clone, Copy, PartialEq, Eq)]
pub struct Pauses {
    pub seed: Option<u32>,
}

/// The gate of one run, and a gate that is passed after it.
#[derive(Drop)]
pub struct RunGate<'a, G> {
    pub stirred: Option<Stirred>,
    pub behind: &'a G,
}

impl Pauses {
    /// Returns the gate of run number `run`: a pause by the seed, if there is one, and then the gate `behind`.
    pub fn of_run<'a, G>(self, run: u32, behind: &'a G) -> RunGate<'a, G>
        ensures stirred { result.stirred ≡ option_map (λ seed. record { seed = seed; run = run }) self.seed }
        ensures behind { result.behind.now ≡ behind.now }
    {
        RunGate {
            stirred: self.seed.map(|seed| Stirred {
                seed: u64::from(seed),
                run,
            }),
            behind,
        }
    }
}

/// What a worker passes before each of its turns: a pause, and then a gate.
pub trait Pausing {
    /// Makes a pause, before turn `step` of a thread, and then passes the gate.
    fn pass_after(&self, pause: Pause, thread: u8, step: u32);
}

/// A gate really pauses. A test may have something else here, which only notes the pause.
impl<G: Gate> Pausing for G {
    /// Waits as long as the pause says, and then passes this gate.
    fn pass_after(&self, pause: Pause, thread: u8, step: u32) {
        pause.wait();
        self.pass(thread, step);
    }
}

impl<'a, G: Pausing> Gate for RunGate<'a, G> {
    /// Passes the gate `behind` after the pause that the seed gives for turn `step` of a thread, or after none without a seed.
    fn pass(&self, thread: u8, step: u32) {
        let pause = match self.stirred {
            Some(stirred) => stirred.pause(thread, step),
            None => Pause::NoPause,
        };
        self.behind.pass_after(pause, thread, step);
    }
}
