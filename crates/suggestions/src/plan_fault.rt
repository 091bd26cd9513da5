//! Which word makes a fault of a plan, and what helps there.
ghost use Rattle.std.specs.Prelude.{◌≤◌, length};

use crate::file_kind::{helps_at_encoding, is_trace, is_whole_program};
use crate::hint::{Hint, help_by_names, help_if_any, near};
use crate::line::word_at;
use crate::plan_line::{fault_of_word, word_places};
use crate::plan_word::{helps_at, near_choice};
use assembler::word_place::{WordPlace, line_at};
use plans::fault::{PlanFault, PlanFaultKind};
use std::alloc::{AllocError, Global};

/// How many parentheses may be open at once.
const DEEPEST: usize = 16;

/// Returns the place, in its line, of the word that makes a fault of a plan. For `NotClosed` it is the outermost `(` that is
/// never closed. None if no word makes the fault.
pub fn place_in_plan(
    alloc: Global,
    plan: &[u8],
    names: &[&[u8]],
    fault: PlanFault,
) -> Result<Option<WordPlace>, AllocError>
    requires { length names.now ≤ 64 }
{
    let mut opened = None;
    let mut depth: usize = 0;
    let mut number: u64 = 0;
    for line in plan.split(|byte| *byte == b'\n') {
        number = number.saturating_add(1);
        for place in word_places(alloc, line)?.iter() {
            let word = word_at(line, *place);
            let before = depth;
            if word.starts_with(b"(") {
                opened = if depth == 0 { Some(*place) } else { opened };
                depth = depth.saturating_add(1);
            } else if word.starts_with(b")") {
                depth = depth.saturating_sub(1);
            }
            let is_wrong = match fault.kind {
                _ if number != fault.line => false,
                PlanFaultKind::TooDeep => depth > DEEPEST,
                PlanFaultKind::NotOpened => before == 0 && word.starts_with(b")"),
                kind => fault_of_word(alloc, names, word) == Some(kind),
            };
            if is_wrong {
                return Ok(Some(*place));
            }
        }
    }
    Ok(match fault.kind {
        PlanFaultKind::NotClosed => opened,
        _ => None,
    })
}

/// Returns advice if a plan's text isn't a plan: it is a trace, a program, or no ASCII. None if it may be one.
fn helps_at_text(plan: &[u8]) -> Option<&'static str> {
    if is_trace(plan) {
        Some("this is a trace: `vuthgal choices TRACE | vuthgal run FILE -` plays its choices")
    } else if is_whole_program(plan) {
        Some("this is a program: a plan has words such as `ann. bob.`")
    } else {
        helps_at_encoding(plan)
    }
}

/// Returns advice for a name that no thread has: the nearest choice, or the names that there are.
fn hint_at_name(alloc: Global, names: &[&[u8]], word: &[u8]) -> Hint {
    match near_choice(alloc, names, word)? {
        Some(choice) => near(alloc, choice.as_slice()),
        None => help_by_names(alloc, b"the threads are ", names),
    }
}

/// Returns the line of advice for a fault of a plan for threads of these names. `part` is where the wrong word is.
pub fn hint_in_plan(
    alloc: Global,
    plan: &[u8],
    names: &[&[u8]],
    fault: PlanFault,
    part: Option<WordPlace>,
) -> Hint {
    let line = line_at(plan, fault.line).unwrap_or(&[]);
    let word = part.map_or(b"".as_slice(), |part| word_at(line, part));
    let front = part.map_or(b"".as_slice(), |part| line.get(..part.at).unwrap_or(&[]));
    let helps = helps_at_text(plan).or(helps_at(fault.kind, word, front.last().copied()));
    match helps {
        None if fault.kind == PlanFaultKind::NotNamed => hint_at_name(alloc, names, word),
        _ => help_if_any(alloc, helps),
    }
}
