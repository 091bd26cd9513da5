ghost use Rattle.std.specs.Prelude.{◌≡◌};
ghost use Rattle.line_reader.specs.{FaultNumber.asm_number, Reading.fault_at, Reading.read_at};
ghost use Rattle.line_reader.specs.declared.asm_fault.AsmFaultKind.TheVariants.{Memory};

use std::alloc::{AllocError, AllocFailed};

/// What is wrong with a line of a text.
#[derive(Clone, Copy, PartialEq, Eq)]
pub enum AsmFaultKind {
    /// A byte that no line may have, not even in a comment.
    BadByte,
    /// More than 256 bytes before the line's end, its comment and a CR counted.
    LongLine,
    /// No instruction and no directive has this word.
    UnknownWord,
    /// Operands or the argument of an option are missing, or there are too many operands.
    OperandCount,
    /// Not `r0` to `r7`.
    BadRegister,
    /// Not written as a number. Also after `#`.
    BadNumber,
    /// A number out of its range, or with more than ten digits.
    OutOfRange,
    /// Not spelled as a name.
    BadName,
    /// No thing of the kind that is wanted has this name.
    UnknownName,
    /// An earlier line has given the name.
    NameTwice,
    /// A directive after the first label or instruction.
    MisplacedDirective,
    /// A word that can't be at this place of a directive.
    BadOption,
    /// A row or an object beyond the most that a program may have of its kind.
    TooMany,
    /// Memory was refused.
    Memory,
}

impl AsmFaultKind {
    /// Returns the number that the fault is reported with. `None`: the fault is `Memory`, which has none.
    pub fn number(self) -> Option<u8>
        ensures { result ≡ asm_number self }
    {
        match self {
            AsmFaultKind::BadByte => Some(1),
            AsmFaultKind::LongLine => Some(2),
            AsmFaultKind::UnknownWord => Some(3),
            AsmFaultKind::OperandCount => Some(4),
            AsmFaultKind::BadRegister => Some(5),
            AsmFaultKind::BadNumber => Some(6),
            AsmFaultKind::OutOfRange => Some(7),
            AsmFaultKind::BadName => Some(8),
            AsmFaultKind::UnknownName => Some(9),
            AsmFaultKind::NameTwice => Some(10),
            AsmFaultKind::MisplacedDirective => Some(11),
            AsmFaultKind::BadOption => Some(12),
            AsmFaultKind::TooMany => Some(13),
            AsmFaultKind::Memory => None,
        }
    }
}

/// The first fault of a text and its line, counted from 1. For `Memory` it is the line that was being read.
#[derive(Clone, Copy, PartialEq, Eq)]
pub struct AsmFault {
    pub line: u64,
    pub kind: AsmFaultKind,
}

/// What is wrong with a word of a line, and where: `left` counts the words from the wrong one on to the end of the line.
#[derive(Clone, Copy, PartialEq, Eq)]
pub struct WordFault {
    pub kind: AsmFaultKind,
    pub left: u8,
}

impl WordFault {
    /// Returns the fault of a word. `left` counts the words from this one on: at most 128, since a line has at most 256 bytes.
    #[inline(always)]
    pub fn at(left: usize, kind: AsmFaultKind) -> WordFault
        ensures { result ≡ fault_at left kind }
    {
        WordFault {
            kind,
            left: left.min(255) as u8,
        }
    }
}

/// Returns what was read from a word, or its fault with the word's place: `left` is how many words are left, this one counted.
#[inline(always)]
pub fn read_at<T>(left: usize, read: Result<T, AsmFaultKind>) -> Result<T, WordFault>
    ensures { result ≡ read_at left read }
{
    match read {
        Ok(read) => Ok(read),
        Err(kind) => Err(WordFault::at(left, kind)),
    }
}

impl From<AllocError> for AsmFaultKind {
    ghost from_gives = { λ _ kind. kind ≡ Memory };

    /// Returns `Memory`. The operator `?` calls it when memory is refused.
    fn from(_e: AllocError) -> AsmFaultKind {
        AsmFaultKind::Memory
    }
}

impl<T: Drop> From<AllocFailed<T>> for AsmFaultKind {
    ghost from_gives = { λ _ kind. kind ≡ Memory };

    /// Returns `Memory`. The operator `?` calls it when a list has no memory for a value, which is lost.
    fn from(_e: AllocFailed<T>) -> AsmFaultKind {
        AsmFaultKind::Memory
    }
}
