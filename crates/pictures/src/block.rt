// Draws a block: some threads side by side, over the whole run.
ghost use Rattle.std.specs.Prelude.{◌≡◌, ◌++◌, ◌<◌, length, IfOk, OnOk};
ghost use Rattle.thread_machine.specs.{Execution.execution, World.world_of};
ghost use Rattle.pictures.specs.{Caption.row_caption, Drawing.Draws, Drawing.DrawsOne};
ghost use Rattle.pictures.specs.Picture.{block_lines, choice_line, lines_text, refused_line, refused_words};
ghost use Rattle.pictures.specs.Sheet.{column_room, kept_behind, mark_room};
ghost use Rattle.pictures.specs.Turn.{mark_words, marked, turn_text};

use crate::caption::push_row;
use crate::fitting::{push_count, shortened};
use crate::line::{choice_line, names_line, push_line, row_of};
use crate::pen::Pen;
use crate::turn::{marked_text, turn_text};
use instruction_table::Row;
use std::alloc::{AllocError, Global};
use thread_machine::{Choice, Event, Machine, StepFault};

/// Returns what the column of the choice's thread shows: the row and what the choice did, for example `paaa r0 p = 1`.
fn did(pen: &Pen<'_, '_>, choice: Choice, row: Row, event: &Event) -> Result<Vec<u8>, AllocError>
    ensures { IfOk result (λ text. text.items ≡ turn_text (column_room pen.now.sheet) (row_caption pen.now.symbols.now row)
        choice.expiry event.now.what) }
{
    let mut caption = Vec::new(pen.alloc);
    push_row(&mut caption, pen.symbols, row)?;
    turn_text(
        pen.alloc,
        pen.sheet.column_room(),
        caption.as_slice(),
        choice.expiry,
        event.what,
    )
}

/// Returns the line of choice `number`, which played `row`, in the block from thread `first` on. `machine` has played it.
fn played_line(
    pen: &Pen<'_, '_>,
    machine: &Machine,
    first: usize,
    number: u64,
    choice: Choice,
    row: Row,
    event: &Event,
) -> Result<Vec<u8>, AllocError>
    ensures { IfOk result (λ line. line.items
        ≡ choice_line pen.now.sheet first (world_of machine.now) number choice.thread
        (turn_text (column_room pen.now.sheet) (row_caption pen.now.symbols.now row) choice.expiry event.now.what)
        (kept_behind (mark_room pen.now.sheet) (marked pen.now.symbols.now event.now.mark) (mark_words event.now.mark))) }
{
    let did = did(pen, choice, row, event)?;
    let told = marked_text(pen, event.mark)?;
    choice_line(
        pen,
        machine,
        first,
        number,
        choice.thread,
        did.as_slice(),
        told.as_slice(),
    )
}

/// Returns `no thread t9` if there is no such thread. At the step limit it returns no bytes: the thread's column shows that.
fn refused_words(alloc: Global, why: StepFault, thread: u8) -> Result<Vec<u8>, AllocError>
    ensures { IfOk result (λ text. text.items ≡ refused_words why thread) }
{
    let mut words = Vec::new(alloc);
    match why {
        StepFault::NoSuchThread => push_count(&mut words, b"no thread t", u64::from(thread))?,
        StepFault::StepLimit | StepFault::Memory => {}
    }
    Ok(words)
}

/// Returns the line of a choice refused for `why`, in the block from thread `first` on: `refused: limit` or `no thread t9`.
fn refused_line(
    pen: &Pen<'_, '_>,
    machine: &Machine,
    first: usize,
    choice: Choice,
    why: StepFault,
) -> Result<Vec<u8>, AllocError>
    ensures { IfOk result (λ line. line.items
        ≡ refused_line pen.now.sheet first (world_of machine.now) choice why) }
{
    let did = shortened(pen.alloc, pen.sheet.column_room(), b"refused: limit")?;
    let words = refused_words(pen.alloc, why, choice.thread)?;
    let told = shortened(pen.alloc, pen.sheet.mark_room(), words.as_slice())?;
    choice_line(
        pen,
        machine,
        first,
        machine.choices() + 1,
        choice.thread,
        did.as_slice(),
        told.as_slice(),
    )
}

/// Plays a choice of an existing thread, and appends its line. Returns false if it was refused because of the step limit.
fn draw_turn(
    pen: &Pen<'_, '_>,
    text: &mut Vec<u8>,
    machine: &mut Machine,
    first: usize,
    choice: Choice,
) -> Result<bool, AllocError>
    requires { choice.thread < length machine.old.scene.threads }
    ensures { IfOk result (λ accepted. DrawsOne pen.now.sheet pen.now.symbols.now first (world_of machine.old)
        (world_of machine.new) choice accepted text.old.items text.new.items) }
{
    let number = machine.choices() + 1;
    let row = row_of(machine, choice.thread);
    match machine.step(choice) {
        Ok(event) => {
            let line = played_line(pen, machine, first, number, choice, row, &event)?;
            push_line(text, pen.sheet.width, line.as_slice())?;
            Ok(true)
        }
        Err(StepFault::StepLimit) => {
            let line = refused_line(pen, machine, first, choice, StepFault::StepLimit)?;
            push_line(text, pen.sheet.width, line.as_slice())?;
            Ok(false)
        }
        // The thread exists, so this is out of memory.
        Err(StepFault::Memory | StepFault::NoSuchThread) => Err(AllocError),
    }
}

/// Plays a choice, and appends its line. Returns false if it was refused: at the step limit, or for no such thread.
fn draw_choice(
    pen: &Pen<'_, '_>,
    text: &mut Vec<u8>,
    machine: &mut Machine,
    first: usize,
    choice: Choice,
) -> Result<bool, AllocError>
    ensures { IfOk result (λ accepted. DrawsOne pen.now.sheet pen.now.symbols.now first (world_of machine.old)
        (world_of machine.new) choice accepted text.old.items text.new.items) }
{
    if usize::from(choice.thread) < machine.thread_count() {
        return draw_turn(pen, text, machine, first, choice);
    }
    let line = refused_line(pen, machine, first, choice, StepFault::NoSuchThread)?;
    push_line(text, pen.sheet.width, line.as_slice())?;
    Ok(false)
}

/// Plays the choices up to the first that is refused, and appends a line for each.
fn draw_choices(
    pen: &Pen<'_, '_>,
    text: &mut Vec<u8>,
    machine: &mut Machine,
    first: usize,
    choices: &[Choice],
) -> Result<(), AllocError>
    ensures { OnOk result (Draws pen.now.sheet pen.now.symbols.now first (world_of machine.old) (world_of machine.new) choices.now
        text.old.items text.new.items) }
{
    for choice in choices {
        if !draw_choice(pen, text, machine, first, *choice)? {
            return Ok(());
        }
    }
    Ok(())
}

/// Plays the choices, and appends the block from thread `first` on: names, then the lines.
pub fn draw_block(
    pen: &Pen<'_, '_>,
    text: &mut Vec<u8>,
    machine: &mut Machine,
    first: usize,
    choices: &[Choice],
) -> Result<(), AllocError>
    ensures block { OnOk result (text.new.items ≡ text.old.items
        ++ lines_text pen.now.sheet.width (block_lines pen.now.sheet pen.now.symbols.now (world_of machine.old) choices.now first)) }
    ensures world { OnOk result (world_of machine.new ≡ (execution (world_of machine.old) choices.now).world) }
{
    let names = names_line(pen, machine.thread_count(), first)?;
    push_line(text, pen.sheet.width, names.as_slice())?;
    draw_choices(pen, text, machine, first, choices)
}
