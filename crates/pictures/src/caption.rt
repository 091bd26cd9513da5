// Names of the threads, phasers, barriers, cells and rows of a program.
ghost use Rattle.std.specs.Prelude.{◌≡◌, ◌++◌, codes, OnOk};
ghost use Rattle.line_reader.specs.Listing.{spaced};
ghost use Rattle.pictures.specs.Caption.{called, letter, named_operands, row_caption};

use crate::fitting::{push_count, push_value};
use assembler::Symbols;
use instruction_table::{OperandKind, Row, row_shape};
use row_code::fields_of;
use std::alloc::AllocError;

/// Returns what stands before the number of something without a name: `t` for a thread, `p` for a phaser, `b` for a barrier. It
/// is `c` for a cell, and `#` for a row.
fn letter(kind: OperandKind) -> &'static [u8]
    ensures { result.now ≡ letter kind }
{
    match kind {
        OperandKind::Thread => b"t",
        OperandKind::Phaser => b"p",
        OperandKind::Barrier => b"b",
        OperandKind::Cell => b"c",
        OperandKind::Target | OperandKind::Register | OperandKind::Number => b"#",
    }
}

/// Appends the name of an object or a row, or its letter and number if it has no name.
pub fn push_called(
    text: &mut Vec<u8>,
    symbols: &Symbols,
    kind: OperandKind,
    number: u32,
) -> Result<(), AllocError>
    ensures { OnOk result (text.new.items ≡ text.old.items ++ called symbols.now kind number) }
{
    match symbols.name_of(kind, number) {
        Some(name) => text.extend_from_slice(name),
        None => push_count(text, letter(kind), u64::from(number)),
    }
}

/// Appends a blank, and an operand's name or else its letter and number.
fn push_operand(
    text: &mut Vec<u8>,
    symbols: &Symbols,
    kind: OperandKind,
    number: u32,
) -> Result<(), AllocError>
    ensures { OnOk result (text.new.items ≡ text.old.items ++ (codes " " ++ called symbols.now kind number)) }
{
    text.extend_from_slice(b" ")?;
    push_called(text, symbols, kind, number)
}

/// Appends the operands of these kinds, each after a blank: a register is the next of `registers`, any other is `imm`, as a
/// number or by its name. It stops if no register is left.
#[tactic(auto, using(line_reader::proofs::ListedTexts::operand_steps))]
fn push_operands(
    text: &mut Vec<u8>,
    symbols: &Symbols,
    kinds: &[OperandKind],
    registers: &[u8],
    imm: i32,
) -> Result<(), AllocError>
    ensures { OnOk result (text.new.items
        ≡ text.old.items ++ spaced (named_operands symbols.now kinds.now registers.now imm)) }
{
    let mut next = 0;
    for kind in kinds {
        match *kind {
            OperandKind::Register => {
                if next == registers.len() {
                    return Ok(());
                }
                push_count(text, b" r", u64::from(registers[next]))?;
                next += 1;
            }
            OperandKind::Number => push_value(text, b" ", imm)?,
            object => push_operand(text, symbols, object, imm.unsigned_abs())?,
        }
    }
    Ok(())
}

/// Appends a row as a program text would have it, with the names of its operands, for example `paaa r0 p`.
pub fn push_row(text: &mut Vec<u8>, symbols: &Symbols, row: Row) -> Result<(), AllocError>
    ensures { OnOk result (text.new.items ≡ text.old.items ++ row_caption symbols.now row) }
{
    let shape = row_shape(row);
    let fields = fields_of(row);
    text.extend_from_slice(shape.word.as_bytes())?;
    let registers = [fields.a, fields.b, fields.c];
    push_operands(text, symbols, shape.operands, &registers, fields.imm)
}
