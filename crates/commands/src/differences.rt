//! How the states differ in which several runs ended. Most of them have the same word, such as `all`, so a person needs more.

use crate::outcomes::{Outcome, Outcomes};
use byte_ports::{Failed, Sink};
use itoa::Buffer;
use line_reader::words::length_before;

/// How many states are told apart at most.
const MOST: usize = 10;

/// Returns word `number` of a line, from 0, or an empty one if the line has fewer words.
fn word(line: &[u8], number: usize) -> &[u8] {
    line.split(|byte| *byte == b' ').nth(number).unwrap_or(&[])
}

/// Returns what a thread's line says of its output, from the word `out` on, or nothing if there is no such word.
fn output_of(line: &[u8]) -> &[u8] {
    match line
        .windows(4)
        .position(|bytes| bytes == b" out".as_slice())
    {
        Some(at) => line.get(at.saturating_add(1)..).unwrap_or(&[]),
        None => &[],
    }
}

/// Returns the line of a state that begins with this word, such as `t0`, or `None` if there is none.
fn line_of<'a>(state: &'a [u8], subject: &[u8]) -> Option<&'a [u8]> {
    state
        .split(|byte| *byte == b'\n')
        .find(|line| word(*line, 0) == subject)
}

/// Returns the name of the thread that a line is about, or the line's first word if it is about something else.
fn name_of<'a>(names: &[&'a [u8]], line: &'a [u8]) -> &'a [u8] {
    let subject = &line[..length_before(b' ', line)];
    match subject {
        [b't', digits @ ..] => {
            // If this is no number, it has no name: there is none at `usize::MAX`.
            let number = str::from_utf8(digits).unwrap_or("").parse::<usize>();
            names
                .get(number.unwrap_or(usize::MAX))
                .copied()
                .unwrap_or(subject)
        }
        _ => subject,
    }
}

/// Writes a way in which a line differs from the other: after a blank if it is the first way, or else after a comma.
fn push_way<E: Sink>(errors: &mut E, is_first: &mut bool, way: &[u8]) -> Result<(), Failed> {
    errors.push(if *is_first { b" ".as_slice() } else { b", " })?;
    *is_first = false;
    errors.push(way)
}

/// Writes how a thread's line differs from its line in the other state, `first`: in its status, its output and whether it is
/// interrupted. If these are equal, says that its row, or its registers or stack differ.
fn push_thread<E: Sink>(errors: &mut E, line: &[u8], first: &[u8]) -> Result<(), Failed> {
    // Words 1 to 3 of a thread's line: its row, its status, and 1 if it is interrupted, or else 0.
    let mut is_first = true;
    if word(line, 2) != word(first, 2) {
        push_way(errors, &mut is_first, word(line, 2))?;
    }
    let output = output_of(line);
    if output != output_of(first) {
        let has_none = output == b"out".as_slice();
        let way: &[u8] = if has_none { b"out nothing" } else { output };
        push_way(errors, &mut is_first, way)?;
    }
    if word(line, 3) != word(first, 3) {
        let is_clear = word(line, 3) == b"0".as_slice();
        let way: &[u8] = if is_clear {
            b"not interrupted"
        } else {
            b"interrupted"
        };
        push_way(errors, &mut is_first, way)?;
    }
    if !is_first {
        return Ok(());
    }
    let is_there = word(line, 1) == word(first, 1);
    errors.push(if is_there {
        b" other registers or stack"
    } else {
        b" another row"
    })
}

/// Writes how a line differs from `first`, the other state's line about the same object, or `None` for a cell that is 0 there.
fn push_line<E: Sink>(
    errors: &mut E,
    names: &[&[u8]],
    line: &[u8],
    first: Option<&[u8]>,
) -> Result<(), Failed> {
    errors.push(name_of(names, line))?;
    match first {
        Some(first) if line.starts_with(b"t") => push_thread(errors, line, first),
        _ => errors.push(line.get(length_before(b' ', line)..).unwrap_or(&[])),
    }
}

/// Writes how a state differs from another one, `first`: each line after the first one (`state ..`) that differs, and each cell
/// that is 0 only in this state.
fn push_state<E: Sink>(
    errors: &mut E,
    names: &[&[u8]],
    state: &[u8],
    first: &[u8],
) -> Result<(), Failed> {
    let mut before: &[u8] = b": ";
    for line in state.split(|byte| *byte == b'\n').skip(1) {
        let subject = word(line, 0);
        let other = line_of(first, subject);
        if !line.is_empty() && other != Some(line) {
            errors.push(before)?;
            push_line(errors, names, line, other)?;
            before = b"; ";
        }
    }
    for line in first.split(|byte| *byte == b'\n').skip(1) {
        let subject = word(line, 0);
        if line_of(state, subject).is_none() {
            errors.push(before)?;
            errors.push(subject)?;
            errors.push(b" 0")?;
            before = b"; ";
        }
    }
    errors.push(b"\n")
}

/// Writes the seed of an outcome, such as `?7`, or else the number of its line in the report, such as `line 2`.
fn push_seed<E: Sink>(errors: &mut E, outcome: &Outcome, place: usize) -> Result<(), Failed> {
    match outcome.seed {
        Some(seed) => {
            errors.push(b"?")?;
            errors.push(Buffer::new().format(seed).as_bytes())
        }
        None => {
            errors.push(b"line ")?;
            errors.push(Buffer::new().format(place.saturating_add(1)).as_bytes())
        }
    }
}

/// Writes a line for each of the first ten states: in what it differs from the first one, with the threads' names, as
/// `?25: ann out 3; bob waits`. The line of the first says in what it differs from the second. A single state has no line.
pub fn push_differences<E: Sink>(
    names: &[&[u8]],
    outcomes: &Outcomes,
    errors: &mut E,
) -> Result<(), Failed> {
    for place in 0..outcomes.len().min(MOST) {
        let other = outcomes.get_index(if place == 0 { 1 } else { 0 });
        if let (Some((state, outcome)), Some((other, _))) = (outcomes.get_index(place), other) {
            push_seed(errors, outcome, place)?;
            push_state(errors, names, state.text.as_slice(), other.text.as_slice())?;
        }
    }
    Ok(())
}
