ghost use Rattle.std.specs.Prelude.{◌≡◌};
ghost use Rattle.row_code.specs.{FaultNumber.image_number, declared.image_fault.ImageFault.TheVariants.Memory};

use std::alloc::{AllocError, AllocFailed};

/// Why bytes are no image: the first fault in the order in which `read_image` checks.
#[derive(Clone, Copy, PartialEq, Eq)]
pub enum ImageFault {
    /// The bytes end before the counts, or before the end that the counts ask for.
    Short,
    /// The first four bytes are not those of an image.
    Magic,
    /// There are more than 64 phasers, barriers or threads.
    Count,
    /// A field has a value that it can't have. This is the place of its first byte in the file, from 0.
    Field(usize),
    /// The bytes of the row of this number encode no row, or one with a timeout that the first four bytes exclude.
    Row(u16),
    /// Bytes follow after the last row.
    Extra,
    /// Memory was refused.
    Memory,
    /// The first four bytes announce a row with a timeout, but no row has one.
    Version,
}

impl ImageFault {
    /// Returns the number that the fault is reported with. `None`: the fault is `Memory`, which has none.
    pub fn number(self) -> Option<u8>
        ensures { result ≡ image_number self }
    {
        match self {
            ImageFault::Short => Some(1),
            ImageFault::Magic => Some(2),
            ImageFault::Count => Some(3),
            ImageFault::Field(_) => Some(4),
            ImageFault::Row(_) => Some(5),
            ImageFault::Extra => Some(6),
            ImageFault::Memory => None,
            ImageFault::Version => Some(8),
        }
    }
}

impl From<AllocError> for ImageFault {
    ghost from_gives = { λ _ e. e ≡ Memory };

    /// Returns `Memory`. The operator `?` calls it when memory is refused.
    fn from(_e: AllocError) -> ImageFault {
        ImageFault::Memory
    }
}

impl<T: Drop> From<AllocFailed<T>> for ImageFault {
    ghost from_gives = { λ _ e. e ≡ Memory };

    /// Returns `Memory`. The operator `?` calls it when a list has no memory for a value, which is lost.
    fn from(_e: AllocFailed<T>) -> ImageFault {
        ImageFault::Memory
    }
}
