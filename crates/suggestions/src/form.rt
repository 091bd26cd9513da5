//! How a line of the language is written: the form of a row, as `paaa REGISTER PHASER`, or of a directive.

use crate::hint::{Hint, help};
use refusals::word::word_entry;
use std::alloc::{AllocError, Global};

/// Returns what the letter of an operand in a form stands for, and an example: REGISTER and `r0` for `a`. None for other words.
fn operand(letter: &str) -> Option<(&'static str, &'static str)> {
    match letter {
        "a" => Some(("REGISTER", "r0")),
        "b" => Some(("REGISTER", "r1")),
        "c" => Some(("REGISTER", "r2")),
        "n" => Some(("NUMBER", "1")),
        "L" => Some(("LABEL", "main")),
        "P" => Some(("PHASER", "p")),
        "B" => Some(("BARRIER", "b")),
        "T" => Some(("THREAD", "ann")),
        "C" => Some(("CELL", "sum")),
        _ => None,
    }
}

/// Appends the words of a form such as `ldi a n`, with `REGISTER` in place of the letter `a`, or `r0` if `is_example`.
fn push_each(text: &mut Vec<u8>, form: &str, is_example: bool) -> Result<(), AllocError> {
    for word in form.split_ascii_whitespace() {
        match operand(word) {
            Some((name, example)) => {
                text.push(b' ')?;
                text.extend_from_slice(if is_example { example } else { name }.as_bytes())?;
            }
            None => text.extend_from_slice(word.as_bytes())?,
        }
    }
    Ok(())
}

/// Returns the line `help: ..` with the form of a row or directive, and an example if a row has operands. None for other words.
pub fn form_of(alloc: Global, word: &[u8]) -> Hint {
    let Some(entry) = word_entry(str::from_utf8(word).unwrap_or("")) else {
        return Ok(None);
    };
    let form = entry.form;
    if form.starts_with(".") || !form.contains(' ') {
        return help(alloc, form.as_bytes());
    }
    let mut text = Vec::new(alloc);
    push_each(&mut text, form, false)?;
    text.extend_from_slice(b", as `")?;
    push_each(&mut text, form, true)?;
    text.push(b'`')?;
    help(alloc, text.as_slice())
}
