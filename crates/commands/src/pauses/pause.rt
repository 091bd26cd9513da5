ghost use Rattle.std.specs.Prelude.{◌≡◌};
ghost use Rattle.commands.specs.Pauses.{pause_of};

use std::hint::spin_loop;
use std::thread::yield_now;

/// What a worker does before a turn.
#[derive(Clone, Copy, PartialEq, Eq)]
pub enum Pause {
    /// Nothing.
    NoPause,
    /// It yields its processor so many times.
    Yield(u32),
    /// It spins for so many rounds.
    Spin(u32),
}

impl Pause {
    /// Returns the pause for a random number: of four, one yields (1 to 8 times), one spins (1 to 4096 rounds), two do nothing.
    pub fn of(word: u32) -> Pause
        ensures { result ≡ pause_of word }
    {
        match word % 4 {
            0 => Pause::Yield(word / 4 % 8 + 1),
            1 => Pause::Spin(word / 4 % 4096 + 1),
            _ => Pause::NoPause,
        }
    }

    /// Yields the processor or spins as often as the pause says.
    pub fn wait(self) {
        match self {
            Pause::NoPause => {}
            Pause::Yield(times) => {
                for _ in 0..times {
                    yield_now();
                }
            }
            Pause::Spin(rounds) => {
                for _ in 0..rounds {
                    spin_loop();
                }
            }
        }
    }
}
