//! What helps at a fault of a schedule.

use crate::file_kind::{helps_at_encoding, is_trace, is_whole_program};
use crate::plan_word::AT_TURN;

/// Where a schedule is from.
#[derive(Clone, Copy, PartialEq, Eq)]
pub enum Origin {
    /// Below the line `.run` of the program's file.
    Beside,
    /// A file of its own.
    File,
    /// Standard input.
    Standard,
    /// It was made from a plan.
    Plan,
}

/// Returns advice if the schedule `bytes` is refused at `rest`, the end of a line. `before` is the byte before that. None if
/// the entry of the fault says enough.
fn helps_at(bytes: &[u8], before: Option<u8>, rest: &[u8], origin: Origin) -> Option<&'static str> {
    let byte = rest.first().copied().unwrap_or(0);
    let is_of_plan = !matches!(rest, [b't' | b'x'])
        && (byte.is_ascii_alphabetic() || matches!(byte, b'.' | b'?' | b'(' | b')'));
    let helps = helps! {
        is_whole_program(bytes) => "this is a program: a schedule is a list of turns such as `t0 t1*3`",
        is_trace(bytes) => "this looks like a trace: `vuthgal choices TRACE` writes its schedule",
        byte == b';' => "a schedule can't have comments; a program text can, above its line `.run`",
        byte == b'*' || before == Some(b'*') && !byte.is_ascii_digit() =>
            "a count follows its star, and no blank is beside the star: `t0*3`",
        matches!((before, byte), (Some(b'0'..=b'9'), b't' | b'x')) =>
            "put a blank between two turns, as in `t0 t1`; a count follows a star: `t0*3`",
        matches!(rest, [b't' | b'T' | b'X', b'0'..=b'9', ..]) => AT_TURN,
        origin != Origin::Beside && rest.starts_with(b".run") =>
            "`.run` is a line of a program's text: a schedule in a file of its own has none",
        is_of_plan && origin == Origin::Beside =>
            "below `.run` is a schedule of tN and xN; a plan is an option: `--plan 'ann. bob.'`",
        is_of_plan && origin == Origin::Standard =>
            "a schedule has tN and xN; `--plan-file /dev/stdin` plays the plan on standard input",
        is_of_plan => "a schedule has tN and xN; a plan has names and `?SEED`: `--plan-file FILE` plays one",
        else None
    };
    helps_at_encoding(bytes).or(helps)
}

/// Returns advice if a schedule is refused at offset `at` of a line. None if the entry of the fault says enough. At the line's
/// end its last byte is looked at: it may be a star without a count.
pub fn helps_in_schedule(
    schedule: &[u8],
    line: &[u8],
    at: usize,
    origin: Origin,
) -> Option<&'static str> {
    let (before, rest) = line.split_at(at.min(line.len().saturating_sub(1)));
    helps_at(schedule, before.last().copied(), rest, origin)
}
