//! The lines of the rows.
ghost use Rattle.std.specs.Prelude.{◌≡◌, ◌+◌, ◌*◌, ◌≤◌, ◌++◌, OnOk, All, length, map};
ghost use Rattle.std.specs.List.{flat_map};
ghost use Rattle.row_code.specs.RowFields.{IsRow};
ghost use Rattle.line_reader.specs.Listing.{line_text, operand_words, row_words, spaced};

use crate::listing::row_line::RowLine;
use instruction_table::{OperandKind, Row, row_shape};
use row_code::fields_of;
use std::alloc::AllocError;

/// Appends an operand for each of `kinds`: the next of `registers`, or `imm` for another kind. Stops if no register is left.
#[inline(always)]
#[tactic(auto, using(crate::proofs::ListedTexts::operand_steps))]
fn put_operands(line: &mut RowLine, kinds: &[OperandKind], registers: &[u8], imm: i32)
    requires { length line.old + 13 * length kinds.now ≤ 63 }
    ensures text { line.new ≡ line.old ++ spaced (operand_words kinds.now registers.now imm) }
    ensures length { length line.new ≤ length line.old + 13 * length kinds.now }
{
    let mut next = 0;
    for kind in kinds {
        match *kind {
            OperandKind::Register => {
                if next == registers.len() {
                    return;
                }
                line.put_value(b" r", i32::from(registers[next]));
                next += 1;
            }
            OperandKind::Number => line.put_value(b" ", imm),
            OperandKind::Target
            | OperandKind::Phaser
            | OperandKind::Barrier
            | OperandKind::Thread
            | OperandKind::Cell => line.put_value(b" #", imm),
        }
    }
}

/// Appends the line that a row has in a canonical text, such as `paaa r0 #0`. Fails if it is out of memory.
#[inline(always)]
#[tactic(auto, using(crate::proofs::ListedTexts::option_steps))]
pub fn push_row(text: &mut Vec<u8>, row: Row) -> Result<(), AllocError>
    ensures text { OnOk result (text.new.items ≡ text.old.items ++ line_text (row_words row)) }
    ensures fits { IsRow row }
{
    let shape = row_shape(row);
    let fields = fields_of(row);
    let mut line = RowLine::new();
    line.put_word(shape.word.as_bytes());
    let registers = [fields.a, fields.b, fields.c];
    put_operands(&mut line, shape.operands, &registers, fields.imm);
    line.put_word(b"\n");
    text.extend_from_slice(line.as_slice())
}

/// Appends a line for each row, in order. Fails if it is out of memory.
#[tactic(auto, using(crate::proofs::ListedTexts::text_steps))]
pub(crate) fn push_rows(text: &mut Vec<u8>, rows: &[Row]) -> Result<(), AllocError>
    ensures text { OnOk result (text.new.items
        ≡ text.old.items ++ flat_map line_text (map row_words rows.now)) }
    ensures fits { OnOk result (All IsRow rows.now) }
{
    for row in rows {
        push_row(text, *row)?;
    }
    Ok(())
}
