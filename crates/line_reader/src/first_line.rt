//! The first line of a text: its end and its words.
ghost use Rattle.std.specs.Prelude.{◌≡◌, ◌+◌, ◌<◌, ◌≤◌, ◌⊎◌, ◌++◌, ◌∷◌, Err, IfErr, IfOk, Ok, drop, length, map, not, slice_index_or, true};
ghost use Rattle.std.specs.List.{list_all, position, position_or_len};
ghost use Rattle.line_reader.specs.declared.asm_fault.AsmFaultKind.TheVariants as fault;
ghost use Rattle.line_reader.specs.FirstLine.{IsLeft, first_line, is_letter, word_alone};
ghost use Rattle.line_reader.specs.{Reading.line_words, Seen.name_seen};
ghost use Rattle.line_reader.specs.Words.{is_allowed, is_blank, is_line_end, lines_of, words_of};

use crate::asm_fault::AsmFaultKind;
use crate::byte_kind::is_letter;
use crate::words::{is_blank, is_line_end, length_before, place_of_forbidden};
use std::alloc::AllocError;

/// The most bytes that a line holds.
const LONGEST_LINE: usize = 256;

/// Returns the place of the first byte that is part of no word, if there is one.
fn place_of_end(bytes: &[u8]) -> Option<usize>
    ensures { result ≡ position (λ byte. not (is_letter byte)) bytes.now }
{
    bytes.iter().position(|byte| !is_letter(*byte))
}

/// Returns the length of the word that the text begins with, or 0 if it begins with no word.
#[inline(always)]
#[tactic(auto, using(crate::proofs::Places::position_some, crate::proofs::Places::position_none))]
fn length_of_word(text: &[u8]) -> usize
    ensures length { result ≡ position_or_len (λ byte. not (is_letter byte)) text.now }
    ensures within { result ≤ length text.now }
{
    match place_of_end(text) {
        Some(place) => place,
        None => text.len(),
    }
}

/// Appends a piece to the list, unless it is empty.
#[inline(always)]
fn push_piece<'a>(words: &mut Vec<&'a [u8]>, piece: &'a [u8]) -> Result<(), AllocError>
    ensures { IfOk result (λ _. map name_seen words.new.items
        ≡ map name_seen words.old.items ++ word_alone piece.now) }
{
    if !piece.is_empty() {
        words.push(piece)?;
    }
    Ok(())
}

/// Returns whether the text begins with a space, a tab or CR.
#[inline(always)]
fn begins_blank(text: &[u8]) -> bool
    ensures { result ≡ is_blank (slice_index_or text.now 0 10) }
{
    match text {
        [byte, ..] => is_blank(*byte),
        [] => false,
    }
}

/// Replaces the list by the words that a text begins with, up to the first byte that is neither in a word nor a blank. Returns
/// what follows from there on.
#[inline(always)]
fn put_words<'a>(words: &mut Vec<&'a [u8]>, text: &'a [u8]) -> Result<&'a [u8], AllocError>
    ensures left { IfOk result (λ rest. IsLeft text.now rest.now) }
    ensures words { IfOk result (λ rest. list_all is_allowed (first_line rest.now) ≡ true
        → words_of (first_line text.now) ≡ map name_seen words.new.items) }
{
    words.clear();
    let mut rest = text;
    loop {
        let length = length_of_word(rest);
        push_piece(words, &rest[..length])?;
        rest = &rest[length..];
        if !begins_blank(rest) {
            return Ok(rest);
        }
        rest = &rest[1..];
    }
}

/// Returns how many bytes at the beginning of a text are allowed in a line.
#[inline(always)]
#[tactic(auto, using(crate::proofs::Places::position_some, crate::proofs::Places::position_none))]
fn length_allowed(text: &[u8]) -> usize
    ensures length { result ≡ position_or_len (λ byte. not (is_allowed byte)) text.now }
    ensures within { result ≤ length text.now }
{
    match place_of_forbidden(text) {
        Some(place) => place,
        None => text.len(),
    }
}

/// Returns whether a line ends at this place: LF is there, or the text ends.
#[inline(always)]
fn ends_line(text: &[u8], place: usize) -> bool
    ensures { result ≡ is_line_end (slice_index_or text.now place 10) }
{
    match text.get(place) {
        Some(byte) => is_line_end(*byte),
        None => true,
    }
}

/// Returns what follows the LF at the place `end`, or nothing if the text ends there.
#[inline(always)]
fn behind_end(text: &[u8], end: usize) -> &[u8]
    requires { end ≤ length text.now }
    ensures { result.now ≡ drop (end + 1) text.now }
{
    match &text[end..] {
        [] => &[],
        [_, after @ ..] => after,
    }
}

/// Returns the first line of a text, unchecked and without its LF, and the text after it.
#[tactic(auto, using(crate::proofs::FirstLines::lines_first, crate::proofs::FirstLines::shorter_after))]
pub fn first_line(text: &[u8]) -> (&[u8], &[u8])
    requires { 0 < length text.now }
    ensures lines { lines_of text.now ≡ result.0.now ∷ lines_of result.1.now }
    ensures shorter { length result.1.now < length text.now }
{
    let length = length_before(b'\n', text);
    (&text[..length], behind_end(text, length))
}

/// Replaces the list by the words of the text's first line, and returns the text after it. The fault is `BadByte` if the line
/// has a byte that no line may have: no later byte is looked at. It is `LongLine` if the line has more than 256 bytes.
#[inline(always)]
#[tactic(auto, unfolding(crate::specs::Reading::line_words), using(crate::proofs::FirstLines::end_of, crate::proofs::FirstLines::end_at, crate::proofs::FirstLines::first_long, crate::proofs::FirstLines::lines_first, crate::proofs::FirstLines::shorter_after))]
pub fn put_line<'a>(words: &mut Vec<&'a [u8]>, text: &'a [u8]) -> Result<&'a [u8], AsmFaultKind>
    ensures words { IfOk result (λ _. line_words (first_line text.now) ≡ Ok (map name_seen words.new.items)) }
    ensures lines { 0 < length text.now
        → IfOk result (λ after. lines_of text.now ≡ first_line text.now ∷ lines_of after.now) }
    ensures shorter { 0 < length text.now → IfOk result (λ after. length after.now < length text.now) }
    ensures fault { IfErr result (λ kind. (kind ≡ fault.Memory) ⊎ (line_words (first_line text.now) ≡ Err kind)) }
{
    // What follows the words: a comment, the line's end, or a byte that no line may have.
    let rest = put_words(words, text)?;
    let left = length_allowed(rest);
    if !ends_line(rest, left) {
        return Err(AsmFaultKind::BadByte);
    }
    if text.len() - rest.len() + left > LONGEST_LINE {
        return Err(AsmFaultKind::LongLine);
    }
    Ok(behind_end(rest, left))
}
