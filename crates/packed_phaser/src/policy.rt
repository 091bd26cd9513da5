ghost use Rattle.std.specs.Prelude.{◌≡◌};
ghost use Rattle.packed_phaser.specs.Policy.{ends};

use phase_number::Phase;

/// When the end of a phase terminates the phaser: what `Phaser.onAdvance` returns.
#[derive(Clone, Copy, PartialEq, Eq)]
pub enum Policy {
    /// If no party is registered, as in Java's own `onAdvance`.
    Default,
    /// Never.
    Never,
    /// It terminates the phaser from the phase of this number on, or if no party is registered.
    Until(i32),
    /// The phaser's routine decides, a part of the program.
    Routine,
}

impl Policy {
    /// Returns what `onAdvance(phase, registeredParties)` returns, or `None` for `Routine`: the program's routine decides.
    pub fn ends(self, phase: Phase, parties: u16) -> Option<bool>
        ensures { result ≡ ends self phase parties }
    {
        match self {
            Policy::Default => Some(parties == 0),
            Policy::Never => Some(false),
            Policy::Until(last) => Some(phase.number() >= last || parties == 0),
            Policy::Routine => None,
        }
    }
}
