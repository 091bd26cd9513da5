// The lines of a picture.
ghost use Rattle.std.specs.Prelude.{◌≡◌, ◌++◌, ◌+◌, ◌<◌, ◌≤◌, codes, length, IfOk, OnOk};
ghost use Rattle.loader.specs.Program.{row_at};
ghost use Rattle.machine_scene.specs.Scene.{thread_at};
ghost use Rattle.thread_machine.specs.World.{world_of};
ghost use Rattle.pictures.specs.Picture.{block_line, cell_in, choice_line, name_cell, written_line};

use crate::caption::push_called;
use crate::fitting::{push_number, put_at, shortened};
use crate::pen::Pen;
use crate::turn::standing;
use instruction_table::{OperandKind, Row};
use std::alloc::AllocError;
use thread_machine::Machine;

/// Returns the row of the program that a thread plays at its next turn.
pub fn row_of(machine: &Machine, thread: u8) -> Row
    requires { thread < length machine.now.scene.threads }
    ensures { let world = world_of machine.now in
        result ≡ row_at world.program.rows (thread_at world.scene thread).pc }
{
    machine.loaded().rows()[usize::from(machine.pc(thread))]
}

/// Appends a line, cut at the width of the picture, and a line end.
pub fn push_line(text: &mut Vec<u8>, width: u16, line: &[u8]) -> Result<(), AllocError>
    ensures { OnOk result (text.new.items ≡ text.old.items ++ written_line width line.now) }
{
    let end = line.len().min(usize::from(width));
    text.extend_from_slice(&line[..end])?;
    text.extend_from_slice(b"\n")
}

/// Returns what stands in a thread's column: what it did if it had the turn, and else a sign for its status.
fn cell<'a>(machine: &Machine, turn: u8, did: &'a [u8], thread: u8) -> &'a [u8]
    requires { thread < length machine.now.scene.threads }
    ensures { result.now ≡ cell_in (world_of machine.now) turn did.now thread }
{
    if thread == turn {
        did
    } else {
        standing(machine.is_ready(thread), machine.status(thread))
    }
}

/// Appends the columns of the block from thread `first` on. They begin after 8 bytes for the number. The column of thread
/// `turn` shows `did`.
#[tactic(auto, using(crate::proofs::Cells::cell_steps))]
fn put_cells(
    pen: &Pen<'_, '_>,
    line: &mut Vec<u8>,
    machine: &Machine,
    first: usize,
    turn: u8,
    did: &[u8],
) -> Result<(), AllocError>
    ensures { OnOk result (line.new.items ≡ block_line pen.now.sheet (length machine.now.scene.threads) first
        (cell_in (world_of machine.now) turn did.now) line.old.items) }
{
    for n in 0..pen.sheet.in_block(machine.thread_count(), first) {
        let text = cell(machine, turn, did, (first + n) as u8);
        put_at(line, 8 + n * usize::from(pen.sheet.column), text)?;
    }
    Ok(())
}

/// Returns a choice's line in the block from thread `first` on: its number, the columns, and `told`, what happened to phasers
/// and barriers. Thread `turn` has made the choice: its column shows `did`. `machine` is the one after the choice.
pub(crate) fn choice_line(
    pen: &Pen<'_, '_>,
    machine: &Machine,
    first: usize,
    number: u64,
    turn: u8,
    did: &[u8],
    told: &[u8],
) -> Result<Vec<u8>, AllocError>
    ensures { IfOk result (λ line. line.items
        ≡ choice_line pen.now.sheet first (world_of machine.now) number turn did.now told.now) }
{
    let mut line = Vec::with_capacity(pen.alloc, usize::from(pen.sheet.width))?;
    push_number(&mut line, number)?;
    put_cells(pen, &mut line, machine, first, turn, did)?;
    put_at(&mut line, pen.sheet.mark_column(), told)?;
    Ok(line)
}

/// Returns the name of a thread, shortened to the width of its column.
fn name_cell(pen: &Pen<'_, '_>, thread: u32) -> Result<Vec<u8>, AllocError>
    ensures { IfOk result (λ text. text.items ≡ name_cell pen.now.sheet pen.now.symbols.now thread) }
{
    let mut name = Vec::new(pen.alloc);
    push_called(&mut name, pen.symbols, OperandKind::Thread, thread)?;
    shortened(pen.alloc, pen.sheet.column_room(), name.as_slice())
}

/// Returns the head of the block from thread `first` on: `choice` in the 8 bytes for numbers, and the threads' names.
#[tactic(auto, using(crate::proofs::Cells::cell_steps))]
pub(crate) fn names_line(
    pen: &Pen<'_, '_>,
    threads: usize,
    first: usize,
) -> Result<Vec<u8>, AllocError>
    requires { threads ≤ 64 }
    ensures { IfOk result (λ line. line.items
        ≡ block_line pen.now.sheet threads first (name_cell pen.now.sheet pen.now.symbols.now) (codes "choice")) }
{
    let mut line = Vec::from_slice(pen.alloc, b"choice")?;
    for n in 0..pen.sheet.in_block(threads, first) {
        let name = name_cell(pen, (first + n) as u32)?;
        put_at(
            &mut line,
            8 + n * usize::from(pen.sheet.column),
            name.as_slice(),
        )?;
    }
    Ok(line)
}
