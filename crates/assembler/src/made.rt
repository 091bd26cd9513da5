//! Which line makes the row or the object of a number.

use crate::first_pass::lines_read;
use crate::kept_line::KeptLine;
use instruction_table::OperandKind;
use std::alloc::Global;

/// Returns whether a line has a row, if `kind` is `Target`, or otherwise declares an object of this kind.
fn makes(line: &KeptLine<'_>, kind: OperandKind) -> bool {
    match kind {
        OperandKind::Target => line.is_row(),
        _ => line.kind_named() == kind,
    }
}

/// Returns the number of the line that has row `number`, from 0, or declares object `number` of this kind. `None`: none does.
fn line_among(lines: &[KeptLine<'_>], kind: OperandKind, number: u64) -> Option<u64> {
    let mut left = number;
    for line in lines {
        if makes(line, kind) {
            if left == 0 {
                return Some(line.number());
            }
            left -= 1;
        }
    }
    None
}

/// Returns the number, from 1, of the line that has row `number`, from 0, or declares object `number` of this kind. `None`: no
/// line does, the text has a fault, or out of memory. A message about a program that can't be loaded shows this line.
pub fn line_that_makes(alloc: Global, text: &[u8], kind: OperandKind, number: u64) -> Option<u64> {
    match lines_read(alloc, text) {
        Ok((draft, _)) => line_among(draft.lines(), kind, number),
        Err(_) => None,
    }
}
