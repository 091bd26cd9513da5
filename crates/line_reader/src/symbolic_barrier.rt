ghost use Rattle.std.specs.Prelude.{◌≡◌, map};
ghost use Rattle.line_reader.specs.{Seen.seen, Seen.barrier_seen, Seen.name_seen, Reading.barrier_at};

use crate::argument::{end_at, reference_option_at};
use crate::asm_fault::{AsmFaultKind, WordFault, read_at};
use crate::name::name_at;
use crate::number::count_at;
use crate::reference::Reference;

/// A barrier as a line declares it.
#[derive(Drop)]
pub struct SymbolicBarrier<N> {
    pub name: N,
    pub parties: u16,
    pub action: Option<Reference<N>>,
}

/// Reads the words after `.barrier`: a name, the parties, and perhaps `action` with a row. With fewer than two words `.barrier`
/// has the fault `OperandCount`.
#[tactic(auto, unfolding(crate::specs::Reading::barrier_at))]
pub fn barrier_at<'a>(words: &[&'a [u8]]) -> Result<SymbolicBarrier<&'a [u8]>, WordFault>
    ensures { seen barrier_seen result ≡ barrier_at (map name_seen words.now) }
{
    let [name, parties, options @ ..] = words else {
        return Err(WordFault::at(words.len() + 1, AsmFaultKind::OperandCount));
    };
    let name = read_at(words.len(), name_at(*name))?;
    let parties = read_at(words.len() - 1, count_at(u16::MAX, *parties))?;
    let (action, rest) = reference_option_at("action", u16::MAX, options)?;
    end_at(rest)?;
    Ok(SymbolicBarrier {
        name,
        parties,
        action,
    })
}
