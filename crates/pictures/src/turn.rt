// What a choice is shown as: in the column of its thread, and after the columns.
ghost use Rattle.std.specs.Prelude.{◌≡◌, ◌++◌, IfOk, OnOk};
ghost use Rattle.trace_text.specs.Lines.{what_text};
ghost use Rattle.pictures.specs.Sheet.{kept_behind, mark_room};
ghost use Rattle.pictures.specs.Turn.{answer_text, mark_words, marked, shows_row, standing, turn_text, view_words};

use crate::caption::push_called;
use crate::fitting::{kept_behind, push_count, push_value, shortened};
use crate::pen::Pen;
use instruction_table::OperandKind;
use std::alloc::{AllocError, Global};
use thread_machine::{Mark, Status, What};

/// Appends what happened to the thread, as `wait` or `= 1`.
fn push_what(text: &mut Vec<u8>, what: What) -> Result<(), AllocError>
    ensures { OnOk result (text.new.items ≡ text.old.items ++ what_text what) }
{
    match what {
        What::Idle => text.extend_from_slice(b"idle"),
        What::Done => text.extend_from_slice(b"ok"),
        What::Value(value) => push_value(text, b"= ", value),
        What::Out(value) => push_value(text, b"out ", value),
        What::Waits => text.extend_from_slice(b"wait"),
        What::Throws(code) => push_value(text, b"throw ", code),
        What::Enters => text.extend_from_slice(b"enter"),
        What::Unwinds => text.extend_from_slice(b"unwind"),
        What::Catches(code) => push_value(text, b"catch ", code),
        What::Dies(code) => push_value(text, b"die ", code),
        What::Ends => text.extend_from_slice(b"end"),
    }
}

/// Returns whether a column shows the row before this result, as in `paaa r0 p = 1`. Other results, as `out 1`, are alone.
fn shows_row(what: What) -> bool
    ensures { result ≡ shows_row what }
{
    matches!(
        what,
        What::Done | What::Value(_) | What::Waits | What::Throws(_) | What::Enters
    )
}

/// Returns what follows the row: a blank and its result, as ` = 1`, or nothing for `Done`.
fn answer(alloc: Global, what: What) -> Result<Vec<u8>, AllocError>
    ensures { IfOk result (λ text. text.items ≡ answer_text what) }
{
    let mut text = Vec::new(alloc);
    if what != What::Done {
        text.push(b' ')?;
        push_what(&mut text, what)?;
    }
    Ok(text)
}

/// Returns what the column of the choice's thread shows: the row or `expiry`, and the result. Some results are shown alone.
pub fn turn_text(
    alloc: Global,
    room: usize,
    row: &[u8],
    expiry: bool,
    what: What,
) -> Result<Vec<u8>, AllocError>
    ensures { IfOk result (λ text. text.items ≡ turn_text room row.now expiry what) }
{
    if !expiry && !shows_row(what) {
        let mut text = Vec::new(alloc);
        push_what(&mut text, what)?;
        return shortened(alloc, room, text.as_slice());
    }
    let answer = answer(alloc, what)?;
    let front = if expiry { b"expiry" } else { row };
    kept_behind(alloc, room, front, answer.as_slice())
}

/// Returns the sign of a thread without the turn: `|` runs, `!` throws, `:` waits and is runnable, `#` waits. A thread that has
/// ended or died has no sign.
pub fn standing(ready: bool, status: Status) -> &'static [u8]
    ensures { result.now ≡ standing ready status }
{
    match status {
        Status::Runs => b"|",
        Status::Throws(_) => b"!",
        Status::AwaitsPhase(_) | Status::AwaitsBarrier(_) if ready => b":",
        Status::AwaitsPhase(_) | Status::AwaitsBarrier(_) => b"#",
        Status::Ended | Status::Died(_) => b"",
    }
}

/// Returns the name of the phaser or barrier that a choice changed, or no bytes if it changed none.
fn marked(pen: &Pen<'_, '_>, mark: Mark) -> Result<Vec<u8>, AllocError>
    ensures { IfOk result (λ text. text.items ≡ marked pen.now.symbols.now mark) }
{
    let mut text = Vec::new(pen.alloc);
    match mark {
        Mark::Nothing => {}
        Mark::Phase { root, .. } => {
            push_called(&mut text, pen.symbols, OperandKind::Phaser, u32::from(root))?
        }
        Mark::Tripped(barrier) | Mark::Broke(barrier) => {
            push_called(
                &mut text,
                pen.symbols,
                OperandKind::Barrier,
                u32::from(barrier),
            )?
        }
    }
    Ok(text)
}

/// Appends `: phase 1`, the phase that a root is in now, or `: terminated` for a negative view.
fn push_view(text: &mut Vec<u8>, view: i32) -> Result<(), AllocError>
    ensures { OnOk result (text.new.items ≡ text.old.items ++ view_words view) }
{
    if view < 0 {
        text.extend_from_slice(b": terminated")
    } else {
        push_count(text, b": phase ", u64::from(view as u32))
    }
}

/// Returns what happened to the phaser or barrier, as `: phase 1` or ` trips`, or no bytes.
fn mark_words(alloc: Global, mark: Mark) -> Result<Vec<u8>, AllocError>
    ensures { IfOk result (λ text. text.items ≡ mark_words mark) }
{
    let mut text = Vec::new(alloc);
    match mark {
        Mark::Nothing => {}
        Mark::Phase { view, .. } => push_view(&mut text, view)?,
        Mark::Tripped(_) => text.extend_from_slice(b" trips")?,
        Mark::Broke(_) => text.extend_from_slice(b" breaks")?,
    }
    Ok(text)
}

/// Returns what a choice changed besides its own thread, as `p: phase 1`, cut to its room; no bytes if it changed nothing.
pub fn marked_text(pen: &Pen<'_, '_>, mark: Mark) -> Result<Vec<u8>, AllocError>
    ensures { IfOk result (λ text. text.items
        ≡ kept_behind (mark_room pen.now.sheet) (marked pen.now.symbols.now mark) (mark_words mark)) }
{
    let front = marked(pen, mark)?;
    let back = mark_words(pen.alloc, mark)?;
    kept_behind(
        pen.alloc,
        pen.sheet.mark_room(),
        front.as_slice(),
        back.as_slice(),
    )
}
