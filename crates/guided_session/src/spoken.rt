//! A person's line as the debugger reads it: with the numbers of threads instead of their names.

use assembler::Symbols;
use instruction_table::OperandKind;
use itoa::Buffer;
use line_reader::words::{is_blank, length_before};
use std::alloc::{AllocError, Global};

/// Returns the number of the thing of this kind and name, or `None` without one. For a label (`Target`) it is the row's.
fn number_called(symbols: &Symbols<'_>, kind: OperandKind, name: &[u8]) -> Option<u16> {
    for index in 0..symbols.len() {
        let symbol = symbols.get(index)?;
        if symbol.kind == kind && symbol.name == name {
            return Some(symbol.number);
        }
    }
    None
}

/// Returns the choice that a word stands for: `t` and a thread's number, its turn, if the word is its name (`ann`); `x` and the
/// number, the expiry of its timed wait, if the word is `x` and its name (`xann`). `None`: the word is neither.
fn choice_called(symbols: &Symbols<'_>, word: &[u8]) -> Option<(u8, u16)> {
    if let Some(thread) = number_called(symbols, OperandKind::Thread, word) {
        return Some((b't', thread));
    }
    let name = word.strip_prefix(b"x".as_slice())?;
    Some((b'x', number_called(symbols, OperandKind::Thread, name)?))
}

/// Appends a choice with a number for a thread's name: `t0*3` for `ann*3`. Other words stay as they are.
fn push_choice(line: &mut Vec<u8>, symbols: &Symbols<'_>, word: &[u8]) -> Result<(), AllocError> {
    let (name, times) = word.split_at(length_before(b'*', word));
    match choice_called(symbols, name) {
        Some((letter, thread)) => {
            line.push(letter)?;
            line.extend_from_slice(Buffer::new().format(thread).as_bytes())?;
            line.extend_from_slice(times)
        }
        None => line.extend_from_slice(word),
    }
}

/// Appends a row's number for a label. Other words stay as they are.
fn push_row(line: &mut Vec<u8>, symbols: &Symbols<'_>, row: &[u8]) -> Result<(), AllocError> {
    match number_called(symbols, OperandKind::Target, row) {
        Some(number) => line.extend_from_slice(Buffer::new().format(number).as_bytes()),
        None => line.extend_from_slice(row),
    }
}

/// Returns the first word of a line, and what follows it, without the blanks around them.
pub fn first_and_rest(said: &[u8]) -> (&[u8], &[u8]) {
    let line = said.trim_ascii();
    match line.iter().position(|byte| is_blank(*byte)) {
        Some(end) => (
            line.get(..end).unwrap_or(line),
            line.get(end..).unwrap_or(&[]).trim_ascii(),
        ),
        None => (line, &[]),
    }
}

/// Returns the line that the debugger reads, without an LF: `s t0` for `s ann` and for `ann` alone. Other words stay as they
/// are. A command such as `q` stays one even if a thread has that name, so that a person can always end the session.
pub fn in_numbers(
    alloc: Global,
    symbols: &Symbols<'_>,
    said: &[u8],
) -> Result<Vec<u8>, AllocError> {
    let (first, rest) = first_and_rest(said);
    let is_row = matches!(first, b"k" | b"c");
    let is_choice = matches!(first, b"s" | b"g");
    let is_whole = matches!(first, b"b" | b"help" | b"p" | b"q" | b"w");
    let mut line = Vec::new(alloc);
    if rest.is_empty() && !is_whole && choice_called(symbols, first).is_some() {
        line.extend_from_slice(b"s ")?;
        push_choice(&mut line, symbols, first)?;
    } else if is_row || is_choice {
        line.extend_from_slice(first)?;
        for word in rest
            .split(|byte| is_blank(*byte))
            .filter(|word| !word.is_empty())
        {
            line.push(b' ')?;
            if is_row {
                push_row(&mut line, symbols, word)?;
            } else {
                push_choice(&mut line, symbols, word)?;
            }
        }
    } else {
        line.extend_from_slice(said)?;
    }
    Ok(line)
}
