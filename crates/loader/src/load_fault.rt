//! Why an image isn't loaded, and the number of each fault.
ghost use Rattle.std.specs.Prelude.{◌≡◌};
ghost use Rattle.loader.specs.{FaultNumber.load_number, declared.load_fault.LoadFault.TheVariants.Memory};

use std::alloc::{AllocError, AllocFailed};
use tier_tree::DeclareFault;

/// Which object names a row that doesn't exist. The number is the object's own.
#[derive(Clone, Copy, PartialEq, Eq)]
pub enum Place {
    Row(u16),
    Thread(u8),
    /// Its routine would begin at that row.
    Phaser(u8),
    /// Its action would begin at that row.
    Barrier(u8),
}

/// Why an image is refused: the first fault in the order in which `load` checks.
#[derive(Clone, Copy, PartialEq, Eq)]
pub enum LoadFault {
    /// This object names a row that doesn't exist.
    Target(Place),
    /// The last row is none of `halt`, `jmp`, `ret` and `throw`: a thread could go on past it.
    FallsOff,
    /// The row of this number names a phaser that doesn't exist.
    NoSuchPhaser(u16),
    /// The row of this number names a barrier that doesn't exist.
    NoSuchBarrier(u16),
    /// The row of this number names a thread that doesn't exist.
    NoSuchThread(u16),
    /// The row of this number names a cell above 31.
    NoSuchCell(u16),
    /// The phaser of this number can't be declared after those before it.
    Declare(u8, DeclareFault),
    /// The barrier of this number has no parties.
    BarrierParties(u8),
    /// There is no thread.
    NoThread,
    /// Memory was refused.
    Memory,
}

impl LoadFault {
    /// Returns the number that the fault is reported with. `Memory` has none.
    pub fn number(self) -> Option<u8>
        ensures { result ≡ load_number self }
    {
        match self {
            LoadFault::Target(_) => Some(1),
            LoadFault::FallsOff => Some(2),
            LoadFault::NoSuchPhaser(_) => Some(3),
            LoadFault::NoSuchBarrier(_) => Some(4),
            LoadFault::NoSuchThread(_) => Some(5),
            LoadFault::NoSuchCell(_) => Some(6),
            LoadFault::Declare(_, _) => Some(7),
            LoadFault::BarrierParties(_) => Some(8),
            LoadFault::NoThread => Some(9),
            LoadFault::Memory => None,
        }
    }
}

impl From<AllocError> for LoadFault {
    ghost from_gives = { λ _ e. e ≡ Memory };

    /// Returns `Memory`, so that `?` can pass on a failed allocation.
    fn from(_e: AllocError) -> LoadFault {
        LoadFault::Memory
    }
}

impl<T: Drop> From<AllocFailed<T>> for LoadFault {
    ghost from_gives = { λ _ e. e ≡ Memory };

    /// Returns `Memory`, so that `?` can pass on a failed allocation that hands back its value.
    fn from(_e: AllocFailed<T>) -> LoadFault {
        LoadFault::Memory
    }
}
