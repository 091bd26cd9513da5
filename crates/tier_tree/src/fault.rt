ghost use Rattle.std.specs.Prelude.{◌≡◌};
ghost use Rattle.tier_tree.specs.Declaration.{fault_number};

/// Why a declaration is refused.
#[derive(Clone, Copy, PartialEq, Eq)]
pub enum DeclareFault {
    /// The parties are below 0 or above 65535.
    BadParties,
    /// A phaser above, which the new one would register with, has 65535 parties.
    TooMany,
    /// The phaser would be more than 7 levels below its root.
    TooDeep,
    /// There are 64 phasers.
    TooManyPhasers,
    /// A child was given a first phase other than 0.
    PhaseOnChild,
    /// No phaser of the parent's number was declared before.
    NoParent,
    /// Out of memory.
    Memory,
}

impl DeclareFault {
    /// Returns the number that the fault is printed with.
    pub fn number(self) -> u8
        ensures { result ≡ fault_number self }
    {
        match self {
            DeclareFault::BadParties => 1,
            DeclareFault::TooMany => 2,
            DeclareFault::TooDeep => 3,
            DeclareFault::TooManyPhasers => 4,
            DeclareFault::PhaseOnChild => 5,
            DeclareFault::NoParent => 6,
            DeclareFault::Memory => 7,
        }
    }
}
