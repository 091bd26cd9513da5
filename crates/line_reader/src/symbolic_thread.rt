ghost use Rattle.std.specs.Prelude.{◌≡◌, [], ◌∷◌, map};
ghost use Rattle.line_reader.specs.{Seen.seen, Seen.name_seen, Seen.thread_seen, Reading.thread_at};

use crate::asm_fault::{AsmFaultKind, WordFault, read_at};
use crate::name::name_at;
use crate::reference::{Reference, reference_at};

/// A thread as a line declares it.
#[derive(Drop)]
pub struct SymbolicThread<N> {
    pub name: N,
    pub first_row: Reference<N>,
}

/// Reads the name and the first row of a thread. A fault's place counts the words left: 2 at the name, and 1 at the row.
#[tactic(auto, unfolding(crate::specs::Reading::thread_at))]
fn thread_of<'a>(name: &'a [u8], row: &'a [u8]) -> Result<SymbolicThread<&'a [u8]>, WordFault>
    ensures { seen thread_seen result ≡ thread_at (name.now ∷ row.now ∷ []) }
{
    Ok(SymbolicThread {
        name: read_at(2, name_at(name))?,
        first_row: read_at(1, reference_at(u16::MAX, row))?,
    })
}

/// Reads the words after `.thread`: a name and the first row. With fewer or more, `.thread` has the fault `OperandCount`.
#[tactic(auto, unfolding(crate::specs::Reading::thread_at))]
pub fn thread_at<'a>(words: &[&'a [u8]]) -> Result<SymbolicThread<&'a [u8]>, WordFault>
    ensures { seen thread_seen result ≡ thread_at (map name_seen words.now) }
{
    match words {
        [name, row] => thread_of(*name, *row),
        _ => Err(WordFault::at(words.len() + 1, AsmFaultKind::OperandCount)),
    }
}
