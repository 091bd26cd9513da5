// Puts a picture together: its blocks one below the other, and its last lines.
ghost use Rattle.std.specs.Prelude.{◌≡◌, ◌++◌, ◌<◌, IfOk, OnOk};
ghost use Rattle.pictures.specs.Picture.{each_from, lines_on, lines_text, other_block, picture};
ghost use Rattle.thread_machine.specs.{Execution.execution, World.world_of};

use crate::block::draw_block;
use crate::closing::push_closings;
use crate::line::push_line;
use crate::pen::Pen;
use crate::sheet::Sheet;
use assembler::Symbols;
use std::alloc::{AllocError, Global};
use thread_machine::{Choice, Machine};

/// Draws block `number`, from 0, with some of the threads, and an empty line. It plays the choices on this machine.
fn draw_spaced(
    pen: &Pen<'_, '_>,
    text: &mut Vec<u8>,
    machine: &mut Machine,
    choices: &[Choice],
    number: u16,
) -> Result<(), AllocError>
    ensures { OnOk result (text.new.items ≡ text.old.items
        ++ lines_text pen.now.sheet.width (other_block pen.now.sheet pen.now.symbols.now (world_of machine.old) choices.now number)) }
{
    let first = usize::from(number) * usize::from(pen.sheet.beside);
    draw_block(pen, text, machine, first, choices)?;
    push_line(text, pen.sheet.width, b"")
}

/// Draws block `number`, from 0, and an empty line. It plays the choices on a copy, so the next block can play them again.
fn draw_other(
    pen: &Pen<'_, '_>,
    text: &mut Vec<u8>,
    machine: &Machine,
    choices: &[Choice],
    number: u16,
) -> Result<(), AllocError>
    ensures { OnOk result (text.new.items ≡ text.old.items
        ++ lines_text pen.now.sheet.width (other_block pen.now.sheet pen.now.symbols.now (world_of machine.now) choices.now number)) }
{
    let mut copy = machine.copy(pen.alloc)?;
    draw_spaced(pen, text, &mut copy, choices, number)
}

/// Draws the first `count` blocks, each with an empty line after it.
fn draw_others(
    pen: &Pen<'_, '_>,
    text: &mut Vec<u8>,
    machine: &Machine,
    choices: &[Choice],
    count: u16,
) -> Result<(), AllocError>
    ensures { OnOk result (text.new.items ≡ text.old.items ++ lines_text pen.now.sheet.width
        (each_from (other_block pen.now.sheet pen.now.symbols.now (world_of machine.now) choices.now) 0 count)) }
{
    for number in 0..count {
        draw_other(pen, text, machine, choices, number)?;
    }
    Ok(())
}

/// Draws all blocks, and the last lines. Each block plays the choices: the last one on this machine, the others on copies.
fn draw_all(
    pen: &Pen<'_, '_>,
    text: &mut Vec<u8>,
    machine: &mut Machine,
    choices: &[Choice],
) -> Result<(), AllocError>
    requires { 0 < pen.now.sheet.beside }
    ensures text { OnOk result (text.new.items ≡ text.old.items
        ++ lines_text pen.now.sheet.width (lines_on pen.now.sheet pen.now.symbols.now (world_of machine.old) choices.now)) }
    ensures world { OnOk result (world_of machine.new ≡ (execution (world_of machine.old) choices.now).world) }
{
    let others = pen.sheet.other_blocks(machine.thread_count() as u16);
    draw_others(pen, text, machine, choices, others)?;
    let first = usize::from(others) * usize::from(pen.sheet.beside);
    draw_block(pen, text, machine, first, choices)?;
    push_closings(pen, text, machine)
}

/// Returns the picture of a run from this machine on, with the names `symbols`, whose lines have at most `width` bytes.
pub fn picture(
    alloc: Global,
    machine: &mut Machine,
    symbols: &Symbols,
    width: u16,
    choices: &[Choice],
) -> Result<Vec<u8>, AllocError>
    ensures picture { IfOk result (λ text. text.items ≡ picture width symbols.now (world_of machine.old) choices.now) }
    ensures world { OnOk result (world_of machine.new ≡ (execution (world_of machine.old) choices.now).world) }
{
    let sheet = Sheet::new(width, machine.thread_count() as u16);
    let pen = Pen {
        alloc,
        sheet,
        symbols,
    };
    let mut text = Vec::new(alloc);
    draw_all(&pen, &mut text, machine, choices)?;
    Ok(text)
}
