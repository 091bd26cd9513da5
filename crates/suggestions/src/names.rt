//! The names that a text gives, the words of the language, and which of them is near to a word.

use crate::java::{METHODS, method_in, row_of};
use crate::line::word;
use crate::nearest::{Nearest, SHORT};
use instruction_table::OperandKind;
use line_reader::directive::is_directive;
use line_reader::label::{before_last, is_label};
use refusals::entries::tables;
use refusals::table::directive::DIRECTIVES;
use refusals::table::row::row_entry;
use refusals::word::word_entry;
use std::alloc::{AllocError, Global};

/// Returns what a thing of this kind is called, as `a cell`, and an example of a program's line that has one.
pub fn called(kind: OperandKind) -> (&'static str, &'static str) {
    match kind {
        OperandKind::Target => ("a label", "main: halt"),
        OperandKind::Phaser => ("a phaser", ".phaser p 2"),
        OperandKind::Barrier => ("a barrier", ".barrier b 2"),
        OperandKind::Thread => ("a thread", ".thread ann main"),
        OperandKind::Cell => ("a cell", ".cell x"),
        OperandKind::Register => ("a register", "out r0"),
        OperandKind::Number => ("a number", "ldi r0 5"),
    }
}

/// Returns the letter that stands for a thing of this kind in the state, before its number. None if the state shows none.
pub fn letter_of(kind: OperandKind) -> Option<&'static str> {
    match kind {
        OperandKind::Thread => Some("t"),
        OperandKind::Phaser => Some("p"),
        OperandKind::Barrier => Some("b"),
        OperandKind::Cell => Some("c"),
        OperandKind::Target | OperandKind::Register | OperandKind::Number => None,
    }
}

/// Returns the name that a line gives, of its label or of what it declares, and the kind of thing. None if it gives none.
fn name_given(line: &[u8]) -> Option<(&[u8], OperandKind)> {
    let kind = match word(line, 0)? {
        label if is_label(label) => return Some((before_last(label), OperandKind::Target)),
        b".phaser" => OperandKind::Phaser,
        b".barrier" => OperandKind::Barrier,
        b".thread" => OperandKind::Thread,
        first if is_directive(first) => OperandKind::Cell,
        _ => return None,
    };
    Some((word(line, 1)?, kind))
}

/// Returns the names that a text gives to things of this kind. Without a kind: all names of things that the state shows.
pub fn names_in(
    alloc: Global,
    text: &[u8],
    kind: Option<OperandKind>,
) -> Result<Vec<&[u8]>, AllocError> {
    let mut names = Vec::new(alloc);
    for line in text.split(|byte| *byte == b'\n') {
        if let Some((name, given)) = name_given(line) {
            if kind.map_or(letter_of(given).is_some(), |kind| kind == given) {
                names.push(name)?;
            }
        }
    }
    Ok(names)
}

/// Returns the number, from 1, of the first line that gives this name. None if no line does.
pub fn first_line(text: &[u8], name: &[u8]) -> Option<u64> {
    let before = text.split(|byte| *byte == b'\n').position(|line| name_given(line).is_some_and(|(
        given,
        _,
    )| given == name))?;
    Some((before as u64).saturating_add(1))
}

/// The fewest letters of a method's name that is recognized although it is misspelt.
const LEAST: usize = 5;

/// Returns the row for a word that is a row's first letter and a method of Java: `parr` for `parrive`. None for other words.
fn row_of_method_behind(word: &[u8]) -> Option<&'static str> {
    match word {
        [b'p' | b'c' | b'b', method @ ..] if method.len() >= LEAST => row_of(method),
        _ => None,
    }
}

/// Returns the word of a row or directive that is nearest to this one, or the row for the nearest method of Java.
pub fn nearest_word(alloc: Global, word: &[u8]) -> Result<Nearest<'static>, AllocError> {
    if let Some(row) = row_of_method_behind(word) {
        return Ok(Nearest {
            meant: Some(row.as_bytes()),
            far: 0,
        });
    }
    let name = method_in(word);
    let mut nearest = Nearest::to(name);
    for opcode in 0..=255 {
        if let Some(entry) = row_entry(opcode) {
            nearest = nearest.or(alloc, entry.word.as_bytes(), entry.word.as_bytes(), name)?;
        }
    }
    for directive in &DIRECTIVES {
        let directive = (*directive).as_bytes();
        nearest = nearest.or(alloc, method_in(directive), directive, name)?;
    }
    for (methods, row) in METHODS.split('\n').filter_map(|line| line.split_once(": ")) {
        for method in methods.split_ascii_whitespace() {
            if method.len() >= LEAST {
                nearest = nearest.or(alloc, method.as_bytes(), row.as_bytes(), name)?;
            }
        }
    }
    Ok(nearest)
}

/// Returns the nearest to this word of all words that `explain` knows. For a word of up to three letters only words of the
/// language count: nearly each other short word differs from it in one letter.
pub fn nearest_question(alloc: Global, word: &[u8]) -> Result<Nearest<'static>, AllocError> {
    let mut nearest = nearest_word(alloc, word)?;
    if word.len() <= SHORT {
        return Ok(nearest);
    }
    for table in tables().iter() {
        for entry in table.iter() {
            for asked in entry.asked.iter() {
                if let [name] = *asked {
                    nearest = nearest.or(alloc, name.as_bytes(), name.as_bytes(), word)?;
                }
            }
        }
    }
    Ok(nearest)
}

/// Returns the form of a directive, as `.barrier NAME PARTIES [action L]`.
fn form_of(directive: &str) -> &'static [u8] {
    word_entry(directive).map_or(b"", |entry| entry.form.as_bytes())
}

/// Returns whether a directive has this word as an option, or as its name without the dot.
pub fn has_option(directive: &str, word: &[u8]) -> bool {
    !word.is_empty()
        && form_of(directive)
            .split(|byte| !byte.is_ascii_lowercase())
            .any(|option| option == word)
}

/// Returns the option of a directive that is near to this word. None if none is near, or if the word is one. `action` counts as
/// near to `onadvance` where only one of them is allowed.
pub fn nearest_option(
    alloc: Global,
    directive: &str,
    word: &[u8],
) -> Result<Option<&'static [u8]>, AllocError> {
    let mut nearest = Nearest::to(word);
    for option in form_of(directive)
        .split(|byte| !byte.is_ascii_lowercase())
        // The first two parts are the empty one before the dot, and the directive's name.
        .skip(2)
    {
        nearest = nearest.or(alloc, option, option, word)?;
    }
    let nearest = if has_option(directive, b"action") {
        nearest.or(alloc, b"onadvance", b"action", word)?
    } else {
        nearest.or(alloc, b"action", b"onadvance", word)?
    };
    Ok(nearest.meant.filter(|meant| *meant != word))
}
