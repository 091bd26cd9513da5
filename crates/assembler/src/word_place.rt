//! Where a word is in its line.
ghost use Rattle.std.specs.Prelude.{◌≡◌, ◌+◌, ◌-◌, ◌<◌, ◌≤◌, ◌++◌, IfSome, Some, drop, length, option_map, slice_get, take, ℕ};
ghost use Rattle.std.specs.List.{position, slice_split};
ghost use Rattle.line_reader.specs.{FirstLine.word_alone, Seen.name_seen, Words.is_blank, Words.lines_of, Words.words_in};
ghost use Rattle.assembler.specs.Placed.{IsWordAt, places_from, places_in, with_piece};

use line_reader::first_line::first_line;
use line_reader::words::is_blank;

/// A word of a line: the place of its first byte, from 0, and its length in bytes.
#[derive(Clone, Copy, PartialEq, Eq)]
pub struct WordPlace {
    pub at: usize,
    pub length: usize,
}

/// Returns the line of this number, from 1. `None`: the number is 0, or the text has fewer lines.
pub fn line_at(text: &[u8], number: u64) -> Option<&[u8]>
    ensures line { IfSome result (λ line. slice_get (lines_of text.now) (number - 1) ≡ Some line.now) }
    ensures found { 1 ≤ number → option_map name_seen result ≡ slice_get (lines_of text.now) (number - 1) }
{
    let mut rest = text;
    let mut left = number.checked_sub(1)?;
    while !rest.is_empty() {
        let (line, after) = first_line(rest);
        if left == 0 {
            return Some(line);
        }
        left -= 1;
        rest = after;
    }
    None
}

/// Returns the place of the first blank, if there is one.
fn place_of_blank(bytes: &[u8]) -> Option<usize>
    ensures { result ≡ position is_blank bytes.now }
{
    bytes.iter().position(|byte| is_blank(*byte))
}

/// Returns what precedes the first blank, perhaps nothing, and what follows it. Without a blank these are the text and nothing.
/// The clauses say that the text's words are the word before the blank, if there is one, and then those after it.
fn first_piece(text: &[u8]) -> (&[u8], &[u8])
    requires { 0 < length text.now }
    ensures words { words_in text.now ≡ word_alone result.0.now ++ words_in result.1.now }
    ensures places { (begin : ℕ) → places_from begin (slice_split is_blank text.now)
        ≡ with_piece begin (length result.0.now) (places_from
        (begin + (length text.now - length result.1.now)) (slice_split is_blank result.1.now)) }
    ensures piece { result.0.now ≡ take (length result.0.now) text.now }
    ensures after { result.1.now ≡ drop (length text.now - length result.1.now) text.now }
    ensures within { length result.0.now ≤ length text.now }
    ensures shorter { length result.1.now < length text.now }
{
    match place_of_blank(text) {
        Some(place) => (&text[..place], &text[place + 1..]),
        None => (text, &text[text.len()..]),
    }
}

/// Returns the place of the word of this number, from 0, in a line without its comment. `None`: the line has fewer words.
pub fn place_of_word(text: &[u8], number: usize) -> Option<WordPlace>
    ensures place { result ≡ slice_get (places_in text.now) number }
    ensures word { IfSome result (IsWordAt text.now number) }
{
    let mut at = 0usize;
    let mut left = number;
    let mut rest = text;
    while !rest.is_empty() {
        let (piece, after) = first_piece(rest);
        let length = piece.len();
        if length > 0 {
            if left == 0 {
                return Some(WordPlace { at, length });
            }
            left -= 1;
        }
        at += rest.len() - after.len();
        rest = after;
    }
    None
}

/// Returns the place of the last word equal to `word` in a line without its comment, if there is one. It tries each number
/// that a word can have, from the highest on: a line has at most as many words as bytes.
pub fn last_place_of(text: &[u8], word: &[u8]) -> Option<WordPlace>
    ensures { IfSome result (λ place. (number : ℕ) × IsWordAt text.now number place
        × (Some word.now ≡ slice_get (words_in text.now) number)) }
{
    for number in (0..text.len()).rev() {
        if let Some(place) = place_of_word(text, number) {
            if text.get(place.at..place.at.saturating_add(place.length)) == Some(word) {
                return Some(place);
            }
        }
    }
    None
}
