//! The words of a plan, and what is wrong with one by itself.
ghost use Rattle.std.specs.Prelude.{◌≤◌, length};

use assembler::word_place::WordPlace;
use line_reader::words::before_comment;
use plans::cutting::word_length;
use plans::fault::PlanFaultKind;
use plans::read_plan;
use std::alloc::{AllocError, Global};

/// Returns where the words of a plan's line are, up to its comment.
pub fn word_places(alloc: Global, line: &[u8]) -> Result<Vec<WordPlace>, AllocError> {
    let text = before_comment(line);
    let mut places = Vec::new(alloc);
    let mut behind = 0;
    for at in 0..text.len() {
        if at >= behind {
            let length = word_length(&text[at..]);
            if length > 0 {
                places.push(WordPlace { at, length })?;
            }
            behind = at.saturating_add(length);
        }
    }
    Ok(places)
}

/// Returns what is wrong with a plan's word by itself, for threads of these names. None if nothing is, for a parenthesis, or if
/// it is out of memory.
pub fn fault_of_word(alloc: Global, names: &[&[u8]], word: &[u8]) -> Option<PlanFaultKind>
    requires { length names.now ≤ 64 }
{
    match read_plan(alloc, word, names) {
        Ok(_) => None,
        Err(fault) => match fault.kind {
            PlanFaultKind::NotOpened | PlanFaultKind::NotClosed | PlanFaultKind::Memory => None,
            kind => Some(kind),
        },
    }
}
