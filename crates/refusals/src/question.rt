//! Which words ask for which entry: those that fit one of its patterns.
ghost use Rattle.std.specs.Prelude.{◌≡◌, ℕ, Option, MatchOption, Some};
ghost use Rattle.refusals.specs.declared.{entry.Place.Place, question.Question.Question};
ghost use Rattle.refusals.specs.Question.{AsksAmong, AsksFor, AsksIn, FitOne, Fits, IsPlace, Spells, is_place, texts, without_refused};

use crate::entries::tables;
use crate::entry::{Entry, Place};
use crate::word::is_word;
use std::alloc::{AllocError, Global};

/// What is asked for: an entry, and the place in the words.
#[derive(Clone, Copy)]
pub struct Question {
    pub entry: Entry,
    pub place: Option<Place>,
}

/// Returns whether a word of a pattern stands for the number of a place: it begins with a blank.
fn is_place(word: &str) -> bool
    ensures { result ≡ is_place word.now }
{
    word.as_bytes().first() == Some(&b' ')
}

/// Returns the number that digits alone spell. None for a sign, other characters, or too large a number.
fn number(text: &str) -> Option<u64>
    ensures { MatchOption result ((n : ℕ) → Spells text.now n → ⊥) (Spells text.now) }
{
    if text.as_bytes().first() == Some(&b'+') {
        return None;
    }
    text.parse::<u64>().ok()
}

/// Returns the place that a word gives: its number, and `asked`, which says what is counted. None if it is no number.
fn place_in_words(asked: &'static str, word: &str) -> Option<Place>
    ensures { MatchOption result ((place : Option Place) → IsPlace asked.now word.now place → ⊥)
        (λ place. IsPlace asked.now word.now (Some place)) }
{
    let number = number(word)?;
    Some(Place {
        word: asked,
        number,
    })
}

/// Matches words with a pattern, where `_` is any word and `..` any rest. Returns None if they don't fit, `Some(None)` if they
/// fit and name no place, and else `Some` of their place, for example line 3.
fn fitted(pattern: &[&'static str], words: &[&str]) -> Option<Option<Place>>
    ensures { MatchOption result ((place : Option Place) → Fits (texts pattern.now) (texts words.now) place → ⊥)
        (Fits (texts pattern.now) (texts words.now)) }
{
    match pattern {
        [] => words.is_empty().then_some(None),
        [asked, ..] if is_word(asked, "..") => Some(None),
        [asked, pattern @ ..] => match words {
            [word, words @ ..] if is_place(asked) => {
                let place = place_in_words(asked, word)?;
                // A pattern names one place at most: the rest only has to fit.
                fitted(pattern, words)?;
                Some(Some(place))
            }
            [word, words @ ..] if is_word(asked, "_") || is_word(asked, word) => {
                fitted(pattern, words)
            }
            _ => None,
        },
    }
}

/// Returns what `fitted` returns for the first of these patterns that the words fit. None if they fit none.
fn fitted_one(patterns: &[&'static [&'static str]], words: &[&str]) -> Option<Option<Place>>
    ensures { MatchOption result ((place : Option Place) → FitOne patterns.now (texts words.now) place → ⊥)
        (FitOne patterns.now (texts words.now)) }
{
    match patterns {
        [] => None,
        [pattern, patterns @ ..] => match fitted(pattern, words) {
            Some(place) => Some(place),
            None => fitted_one(patterns, words),
        },
    }
}

/// Returns the first entry of a table that words ask for, with their place. None if they ask for none.
fn question_in(entries: &[Entry], words: &[&str]) -> Option<Question>
    ensures { MatchOption result ((q : Question) → AsksIn entries.now (texts words.now) q → ⊥)
        (AsksIn entries.now (texts words.now)) }
{
    match entries {
        [] => None,
        [entry, entries @ ..] => match fitted_one(entry.asked, words) {
            Some(place) => Some(Question {
                entry: *entry,
                place,
            }),
            None => question_in(entries, words),
        },
    }
}

/// Returns the first entry of several tables that words ask for, with their place. None if they ask for none.
fn question_among(tables: &[&[Entry]], words: &[&str]) -> Option<Question>
    ensures { MatchOption result ((q : Question) → AsksAmong tables.now (texts words.now) q → ⊥)
        (AsksAmong tables.now (texts words.now)) }
{
    match tables {
        [] => None,
        [table, tables @ ..] => match question_in(table, words) {
            Some(question) => Some(question),
            None => question_among(tables, words),
        },
    }
}

/// Returns the words after `refused` if that is the first word, or else all words.
fn without_refused<'a, 'b>(words: &'b [&'a str]) -> &'b [&'a str]
    ensures { texts result.now ≡ without_refused (texts words.now) }
{
    match words {
        [word, rest @ ..] if is_word(word, "refused") => rest,
        _ => words,
    }
}

/// Returns the first entry of these tables that the words of a line ask for, with their place. None if they ask for none. The
/// line may begin with the word `refused`, which no pattern has.
pub fn question_of(tables: &[&[Entry]], words: &[&str]) -> Option<Question>
    ensures { MatchOption result ((q : Question) → AsksFor tables.now (texts words.now) q → ⊥)
        (AsksFor tables.now (texts words.now)) }
{
    question_among(tables, without_refused(words))
}

/// Returns which entry of all tables a line asks for by its words. None if it asks for none.
pub fn question_in_line(alloc: Global, line: &[u8]) -> Result<Option<Question>, AllocError> {
    let mut words = Vec::new(alloc);
    for word in str::from_utf8(line).unwrap_or("").split_ascii_whitespace() {
        words.push(word)?;
    }
    Ok(question_of(&tables(), words.as_slice()))
}
