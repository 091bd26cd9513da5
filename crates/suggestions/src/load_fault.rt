//! Because of which row or declaration of a text its program isn't loaded, and what helps there.

use crate::file_kind::is_whole_program;
use crate::hint::{Hint, help};
use crate::line::first_word;
use assembler::made::line_that_makes;
use assembler::word_place::{WordPlace, line_at};
use instruction_table::{OperandKind, shape_of};
use line_reader::words::{before_comment, is_blank};
use loader::{LoadFault, Place};
use row_code::is_image_file;
use std::alloc::Global;

/// Returns where a row or directive is in a line, without the blanks round it. None if nothing follows the label, which ends at
/// offset `behind_label`. The line has no comment.
fn statement(line: &[u8], behind_label: usize) -> Option<WordPlace> {
    let said = line.get(behind_label..)?;
    let at = said.iter().position(|byte| !is_blank(*byte))?;
    let last = said.iter().rposition(|byte| !is_blank(*byte))?;
    Some(WordPlace {
        at: behind_label.saturating_add(at),
        length: last.saturating_add(1).saturating_sub(at),
    })
}

/// Returns the number of the last line of a text with an instruction, from 1, or 0 if it has none.
fn last_line_with_row(text: &[u8]) -> u64 {
    let mut last: u64 = 0;
    let mut number: u64 = 0;
    for line in text.split(|byte| *byte == b'\n') {
        number = number.saturating_add(1);
        if shape_of(first_word(line)).is_some() {
            last = number;
        }
    }
    last
}

/// Returns the kind and number of what a load fault is about: a declared thing, or a row, as `Target`. None for other faults.
fn made_in(fault: LoadFault) -> Option<(OperandKind, u64)> {
    match fault {
        LoadFault::Target(Place::Row(row))
        | LoadFault::NoSuchPhaser(row)
        | LoadFault::NoSuchBarrier(row)
        | LoadFault::NoSuchThread(row)
        | LoadFault::NoSuchCell(row) => Some((OperandKind::Target, u64::from(row))),
        LoadFault::Target(Place::Thread(thread)) => Some((OperandKind::Thread, u64::from(thread))),
        LoadFault::Target(Place::Phaser(phaser)) | LoadFault::Declare(phaser, _) => Some((
            OperandKind::Phaser,
            u64::from(phaser),
        )),
        LoadFault::Target(Place::Barrier(barrier)) | LoadFault::BarrierParties(barrier) => Some((
            OperandKind::Barrier,
            u64::from(barrier),
        )),
        LoadFault::FallsOff | LoadFault::NoThread | LoadFault::Memory => None,
    }
}

/// Returns a line's number, from 1, and where its row or directive is. None if the text has no such line.
fn place_of_statement(text: &[u8], number: u64) -> Option<(u64, Option<WordPlace>)> {
    let line = before_comment(line_at(text, number)?);
    let colon = line.iter().position(|byte| *byte == b':');
    let label = colon.map_or(0, |at| at.saturating_add(1));
    Some((number, statement(line, label)))
}

/// Returns the number of the line that a load fault is about, and the part of it. None in an image, or if the fault is about no
/// line. `FallsOff`, a program that could run on past its last row, is about the line of that row.
pub fn place_of_load(
    alloc: Global,
    text: &[u8],
    fault: LoadFault,
) -> Option<(u64, Option<WordPlace>)> {
    if is_image_file(text) {
        return None;
    }
    if matches!(fault, LoadFault::FallsOff) {
        return place_of_statement(text, last_line_with_row(text));
    }
    let (kind, number) = made_in(fault)?;
    place_of_statement(text, line_that_makes(alloc, text, kind, number)?)
}

/// Returns advice for a program that can't be loaded. `bytes` is its file, and `text` the part above a line `.run`. None unless
/// the `.thread` lines are below `.run`, or the file is empty: for all else what `explain` says of the fault is enough.
pub fn hint_at_load(alloc: Global, bytes: &[u8], text: &[u8], fault: LoadFault) -> Hint {
    let behind = bytes.get(text.len()..).unwrap_or(&[]);
    if matches!(fault, LoadFault::NoThread) && is_whole_program(behind) {
        help(
            alloc,
            b"the program ends at the line `.run`: its `.thread` lines have to be above it",
        )
    } else if bytes.trim_ascii().is_empty() {
        help(
            alloc,
            b"it is empty: a program has a thread and rows, as `.thread ann main` and `main: halt`",
        )
    } else {
        Ok(None)
    }
}
