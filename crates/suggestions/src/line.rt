//! The words of a line of a program's text.

use assembler::word_place::WordPlace;
use line_reader::label::is_label;
use line_reader::words::{before_comment, is_blank};
use std::alloc::{AllocError, Global};

/// Returns the words of a line, up to its comment.
pub fn words_of(alloc: Global, line: &[u8]) -> Result<Vec<&[u8]>, AllocError> {
    let mut words = Vec::new(alloc);
    for word in before_comment(line).split(|byte| is_blank(*byte)) {
        if !word.is_empty() {
            words.push(word)?;
        }
    }
    Ok(words)
}

/// Returns word `number` of a line, from 0. The words of a comment don't count. None if the line has fewer words.
pub fn word(line: &[u8], number: usize) -> Option<&[u8]> {
    before_comment(line)
        .split(|byte| is_blank(*byte))
        .filter(|word| !word.is_empty())
        .nth(number)
}

/// Returns the word that begins the row or directive of a line, after its label if it has one. Empty if there is none.
pub fn first_word(line: &[u8]) -> &[u8] {
    match word(line, 0) {
        Some(first) if !is_label(first) => first,
        Some(_) => word(line, 1).unwrap_or(&[]),
        None => &[],
    }
}

/// Returns the bytes of a part of a line. They are empty if the line ends before the end of that part.
pub fn word_at(line: &[u8], part: WordPlace) -> &[u8] {
    line.get(part.at..part.at.saturating_add(part.length))
        .unwrap_or(&[])
}
