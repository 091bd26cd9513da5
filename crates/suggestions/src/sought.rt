//! What was meant by words that ask for nothing: another name of a word of the language, the name of a kind, or a row with its
//! operands.

use crate::java::row_of;
use crate::names::{has_option, nearest_question};
use byte_ports::{Failed, Sink};
use line_reader::label::is_label;
use refusals::entries::tables;
use refusals::entry::push_pieces;
use refusals::explain::{NO_LINE, QUESTIONS};
use refusals::question::question_in_line;
use refusals::table::directive::DIRECTIVES;
use refusals::word::word_entry;
use std::alloc::{AllocError, Global};

/// Returns the row or directive meant by a word in large letters, a method of Java, or an option. None if none is meant.
fn word_meant(alloc: Global, word: &str) -> Result<Option<&'static str>, AllocError> {
    let small = word.as_bytes().to_ascii_lowercase(alloc)?;
    let small = small.as_slice();
    if let Some(entry) = word_entry(str::from_utf8(small).unwrap_or("")) {
        return Ok(Some(entry.word));
    }
    Ok(
        DIRECTIVES
            .iter()
            .copied()
            .find(|directive| has_option(*directive, small))
            .or(row_of(word.as_bytes())),
    )
}

/// Returns whether these words are the sentence of an entry, without the name of a kind and the colon before it.
fn are_sentence(means: &str, words: &[&str]) -> bool {
    means
        .split_once(": ")
        .map_or(means, |(_, sentence)| sentence)
        .split_ascii_whitespace()
        .eq(words.iter().copied())
}

/// Returns the words that a person types after `explain` for the entry with this sentence, copied from an error message. The
/// words before the sentence that end in a colon (a place, a kind) are skipped. None if no entry has the sentence.
fn asked_by_sentence(words: &[&str]) -> Option<&'static [&'static str]> {
    let before = words
        .iter()
        .take_while(|word| is_label(word.as_bytes()))
        .count();
    let words = words.get(before..).unwrap_or(&[]);
    tables()
        .iter()
        .flat_map(|table| table.iter())
        .find(|entry| are_sentence(entry.means, words))
        .and_then(|entry| entry.asked.first().copied())
}

/// Returns what `explain` knows for a thing with a number: `p0` for each phaser, `schedule` for a choice. None for others.
fn numbered_word(word: &str) -> Option<&'static str> {
    let letters = word.trim_end_matches(|letter: char| letter.is_ascii_digit());
    if letters.len() == word.len() {
        return None;
    }
    match letters {
        "p" => Some("p0"),
        "b" => Some("b0"),
        "c" => Some("c0"),
        "+p" => Some("+p0"),
        "+b" => Some("+b0"),
        "-b" => Some("-b0"),
        "t" | "x" => Some("schedule"),
        _ => None,
    }
}

/// Returns the words that ask for an entry whose kind has this name, or that are this name in other letters; else None.
fn asked_by(name: &str) -> Option<&'static [&'static str]> {
    let is_name = |word: &str| word.as_bytes().eq_ignore_ascii_case(name.as_bytes());
    for entry in tables().iter().flat_map(|table| table.iter()) {
        let kind = entry.means.split_once(':').map_or("", |(kind, _)| kind);
        if is_name(kind) {
            return entry.asked.first().copied();
        }
        let mut asked = entry.asked.iter().copied();
        if let Some(asked) = asked.find(|asked| matches!(*asked, [word] if is_name(*word))) {
            return Some(asked);
        }
    }
    None
}

/// Returns the words that ask for what a line of a trace says without its number, as `t0 0 wait`. None if none do.
fn asked_by_event(
    alloc: Global,
    words: &[&str],
) -> Result<Option<&'static [&'static str]>, AllocError> {
    let mut line = Vec::from_slice(alloc, b"1")?;
    for word in words {
        line.extend_from_slice(b" ")?;
        line.extend_from_slice(word.as_bytes())?;
    }
    let question = question_in_line(alloc, line.as_slice())?;
    Ok(question.and_then(|question| question.entry.asked.first().copied()))
}

/// Takes words that `explain` doesn't know, and returns known words that may have been meant, or no words.
pub fn words_sought(alloc: Global, words: &[&str]) -> Result<Vec<&'static str>, AllocError> {
    let meant = match words {
        [word] => word_meant(alloc, *word)?,
        [label, word, ..] if is_label(label.as_bytes()) => word_entry(*word).map(
            |entry| entry.word,
        ),
        [word, ..] => word_entry(*word).map(|entry| entry.word),
        [] => None,
    };
    match meant {
        Some(meant) => Vec::from_slice(alloc, &[meant]),
        None => {
            let asked = match words {
                [word] => asked_by(*word),
                _ => None,
            };
            if let Some(asked) = asked.or(asked_by_sentence(words)) {
                return Vec::from_slice(alloc, asked);
            }
            match words.first().map_or(None, |word| numbered_word(*word)) {
                Some("schedule") if words.len() > 2 => {
                    let asked = asked_by_event(alloc, words)?.unwrap_or(&["schedule"]);
                    Vec::from_slice(alloc, asked)
                }
                Some(word) => Vec::from_slice(alloc, &[word]),
                None => Ok(Vec::new(alloc)),
            }
        }
    }
}

/// Returns whether a line of `QUESTIONS` has this word behind `explain`, or is that of exceptions, and the word names one.
fn is_about(question: &str, word: &str) -> bool {
    let asked = question.split_ascii_whitespace().nth(1).unwrap_or("");
    asked == word || asked == "exception" && word.ends_with("Exception")
}

/// What is written in place of the questions if none is near.
const ALL: &[u8] = b"explain                             all that you can ask\n";

/// How many near questions are written at most. With the two lines before them, these are five lines.
const MOST_LINES: usize = 3;

/// Writes that `explain` doesn't know these words, and what can be asked: lines of `QUESTIONS` about them, or the word nearest
/// to a single one. If none is near, it writes how to see all questions.
pub fn push_near_questions<E: Sink>(
    alloc: Global,
    errors: &mut E,
    words: &[&str],
) -> Result<(), Failed> {
    push_pieces(errors, &[NO_LINE, b"You can ask:\n"])?;
    let mut found: usize = 0;
    for question in QUESTIONS.split('\n') {
        if found < MOST_LINES && words.iter().any(|word| is_about(question, *word)) {
            push_pieces(errors, &[question.as_bytes(), b"\n"])?;
            found += 1;
        }
    }
    match words {
        _ if found > 0 => Ok(()),
        [word] => match nearest_question(alloc, word.as_bytes()).map_or(None, |near| near.meant) {
            Some(near) => push_pieces(errors, &[b"explain ", near, b"\n"]),
            None => errors.push(ALL),
        },
        _ => errors.push(ALL),
    }
}
