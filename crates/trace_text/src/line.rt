// Puts the parts of a trace's line together from its end: each goes before what is there.
ghost use Rattle.std.specs.Prelude.{◌≡◌, ◌++◌, ◌+◌, ◌<◌, ◌≤◌, ℕ, OnOk, OnErr, codes, length};
ghost use Rattle.std.specs.Fmt.{signed_decimal, decimal};
ghost use Rattle.trace_text.specs.Lines.{what_text, mark_text, choice_text, event_text, refusal_text};

use crate::line_end::LineEnd;
use std::alloc::AllocError;
use std::marker::Model;
use thread_machine::{Choice, Event, Mark, What};

/// Puts a word and a signed number before the line.
#[inline(always)]
fn put_with_value<const N: usize>(line: &mut LineEnd, word: &[u8; N], value: i32)
    requires { length line.old + length word.now + 11 ≤ 192 }
    ensures text { line.new ≡ (word.now ++ signed_decimal value) ++ line.old }
    ensures length { length line.new ≤ length line.old + length word.now + 11 }
{
    line.put_value(value);
    line.put_word(word);
}

/// Puts a word and an unsigned number before the line.
#[inline(always)]
fn put_with_count<const N: usize>(line: &mut LineEnd, word: &[u8; N], count: u64)
    requires { length line.old + length word.now + 20 ≤ 192 }
    ensures text { line.new ≡ (word.now ++ decimal count) ++ line.old }
    ensures length { length line.new ≤ length line.old + length word.now + 20 }
{
    line.put_count(count);
    line.put_word(word);
}

/// Puts before the line what a choice did, for example `wait` or `= 1`.
#[inline(always)]
fn put_what(line: &mut LineEnd, what: What)
    requires { length line.old + 17 ≤ 192 }
    ensures text { line.new ≡ what_text what ++ line.old }
    ensures length { length line.new ≤ length line.old + 17 }
{
    match what {
        What::Idle => line.put_word(b"idle"),
        What::Done => line.put_word(b"ok"),
        What::Value(value) => put_with_value(line, b"= ", value),
        What::Out(value) => put_with_value(line, b"out ", value),
        What::Waits => line.put_word(b"wait"),
        What::Throws(code) => put_with_value(line, b"throw ", code),
        What::Enters => line.put_word(b"enter"),
        What::Unwinds => line.put_word(b"unwind"),
        What::Catches(code) => put_with_value(line, b"catch ", code),
        What::Dies(code) => put_with_value(line, b"die ", code),
        What::Ends => line.put_word(b"end"),
    }
}

/// Puts before the line ` +p`, a root's number, a space and `view`, what its `getPhase` returns. The root's phase has ended, or
/// the root is terminated.
#[inline(always)]
fn put_phase(line: &mut LineEnd, root: u8, view: i32)
    requires { length line.old + 35 ≤ 192 }
    ensures text { line.new ≡ mark_text (Mark.Phase root view) ++ line.old }
    ensures length { length line.new ≤ length line.old + 35 }
{
    put_with_value(line, b" ", view);
    put_with_count(line, b" +p", u64::from(root));
}

/// Puts before the line ` +p0 1` if a phase ended, ` +b0` if a barrier tripped, ` -b0` if it broke, and otherwise nothing.
#[inline(always)]
fn put_mark(line: &mut LineEnd, mark: Mark)
    requires { length line.old + 35 ≤ 192 }
    ensures text { line.new ≡ mark_text mark ++ line.old }
    ensures length { length line.new ≤ length line.old + 35 }
{
    match mark {
        Mark::Nothing => {}
        Mark::Phase { root, view } => put_phase(line, root, view),
        Mark::Tripped(barrier) => put_with_count(line, b" +b", u64::from(barrier)),
        Mark::Broke(barrier) => put_with_count(line, b" -b", u64::from(barrier)),
    }
}

/// Makes this the end of a line: a blank, what a choice did and changed, and an LF. Frequent ends are put whole, for speed.
#[inline(always)]
fn put_answer(line: &mut LineEnd, event: &Event)
    ensures text { line.new
        ≡ codes " " ++ (what_text event.now.what ++ (mark_text event.now.mark ++ codes "\n")) }
    ensures length { length line.new ≤ 54 }
{
    match (event.what, event.mark) {
        (What::Done, Mark::Nothing) => {
            line.clear();
            line.put_word(b" ok\n");
        }
        (What::Idle, Mark::Nothing) => {
            line.clear();
            line.put_word(b" idle\n");
        }
        (What::Waits, Mark::Nothing) => {
            line.clear();
            line.put_word(b" wait\n");
        }
        (What::Value(value), Mark::Nothing) => {
            line.clear();
            line.put_word(b"\n");
            put_with_value(line, b" = ", value);
        }
        (what, mark) => {
            line.clear();
            line.put_word(b"\n");
            put_mark(line, mark);
            put_what(line, what);
            line.put_word(b" ");
        }
    }
}

/// Puts a number and a space after it before the line. A single digit, the most frequent, is put at once.
#[inline(always)]
fn put_spaced(line: &mut LineEnd, number: u8)
    requires { length line.old + 21 ≤ 192 }
    ensures text { line.new ≡ decimal number ++ (codes " " ++ line.old) }
    ensures length { length line.new ≤ length line.old + 21 }
{
    if number < 10 {
        line.put_word(&[b'0' + number, b' ']);
        return;
    }
    line.put_word(b" ");
    line.put_count(u64::from(number));
}

/// Puts the choice's letter, `t` for a turn or `x` for an expiry, and its thread's number before the line, as ` t0 `.
#[inline(always)]
fn put_thread(line: &mut LineEnd, choice: Choice)
    requires { length line.old + 23 ≤ 192 }
    ensures text { (step : ℕ) → decimal step ++ line.new ≡ choice_text step choice ++ line.old }
    ensures length { length line.new ≤ length line.old + 23 }
{
    put_spaced(line, choice.thread);
    if choice.expiry {
        line.put_word(b" x");
    } else {
        line.put_word(b" t");
    }
}

/// Makes this the line of a choice that a thread at row `pc` has played, without its number.
#[inline(always)]
pub(super) fn put_played(line: &mut LineEnd, choice: Choice, pc: u16, event: &Event)
    ensures text { (step : ℕ) → decimal step ++ line.new ≡ event_text step choice pc event.now }
    ensures length { length line.new ≤ 100 }
{
    put_answer(line, event);
    line.put_count(u64::from(pc));
    put_thread(line, choice);
}

/// Makes this the line of choice number `step`, which a thread at row `pc` has played.
pub fn put_event(line: &mut LineEnd, step: u64, choice: Choice, pc: u16, event: &Event)
    ensures { line.new ≡ event_text step choice pc event.now }
{
    put_played(line, choice, pc, event);
    line.put_count(step);
}

/// Makes this the line of a refused choice without its number: `limit` with its thread's row `pc`, `none` for no such thread.
pub(super) fn put_refused(line: &mut LineEnd, choice: Choice, pc: Option<u16>)
    ensures text { (step : ℕ) → decimal step ++ line.new ≡ refusal_text step choice pc }
    ensures length { length line.new ≤ 100 }
{
    line.clear();
    match pc {
        Some(pc) => {
            line.put_word(b" limit\n");
            line.put_count(u64::from(pc));
        }
        None => line.put_word(b"- none\n"),
    }
    put_thread(line, choice);
}

/// Makes this the line of refused choice `step`: it says `limit` and the thread's row `pc`, or `none` for no such thread.
pub fn put_refusal(line: &mut LineEnd, step: u64, choice: Choice, pc: Option<u16>)
    ensures { line.new ≡ refusal_text step choice pc }
{
    put_refused(line, choice, pc);
    line.put_count(step);
}

/// Appends the line of choice number `step`, which a thread at row `pc` has played. `Err`: no memory, and `text` is as before.
pub fn event_line(
    text: &mut Vec<u8>,
    step: u64,
    choice: Choice,
    pc: u16,
    event: &Event,
) -> Result<(), AllocError>
    ensures ok { OnOk result (text.new.items ≡ text.old.items ++ event_text step choice pc event.now) }
    ensures err { OnErr result (text.new.items ≡ text.old.items) }
{
    let mut line = LineEnd::new();
    put_event(&mut line, step, choice, pc, event);
    text.extend_from_slice(line.as_slice())
}

/// Appends the line of refused choice `step`: it says `limit` and the thread's row `pc`, or `none` for no such thread.
pub fn refusal_line(
    text: &mut Vec<u8>,
    step: u64,
    choice: Choice,
    pc: Option<u16>,
) -> Result<(), AllocError>
    ensures ok { OnOk result (text.new.items ≡ text.old.items ++ refusal_text step choice pc) }
    ensures err { OnErr result (text.new.items ≡ text.old.items) }
{
    let mut line = LineEnd::new();
    put_refusal(&mut line, step, choice, pc);
    text.extend_from_slice(line.as_slice())
}
