//! Where the words of a line end.
ghost use Rattle.std.specs.Prelude.{◌≡◌, ◌≤◌, ◌<◌, ◌++◌, drop, length, take};
ghost use Rattle.std.specs.List.{position, position_or_len};
ghost use Rattle.line_reader.specs.Words.{words_in};
ghost use Rattle.plans.specs.{Cutting.parts_words, Cutting.word_alone, Words.begins_count, Words.is_parenthesis, Words.spread};

use line_reader::words::is_blank;

/// Returns whether this byte is a blank or a parenthesis: the word before it ends there.
fn parts_words(byte: u8) -> bool
    ensures { result ≡ parts_words byte }
{
    is_parenthesis(byte) || is_blank(byte)
}

/// Returns the place of the first blank or parenthesis, or `None` if there is none.
fn place_of_part(text: &[u8]) -> Option<usize>
    ensures { result ≡ position parts_words text.now }
{
    text.iter().position(|byte| parts_words(*byte))
}

/// Returns how many bytes precede the first blank or parenthesis: all if there is none.
#[tactic(auto, using(line_reader::proofs::Places::position_some, line_reader::proofs::Places::position_none))]
fn length_to_part(text: &[u8]) -> usize
    ensures length { result ≡ position_or_len parts_words text.now }
    ensures within { result ≤ length text.now }
{
    match place_of_part(text) {
        Some(place) => place,
        None => text.len(),
    }
}

/// Returns whether the bytes begin with `*`, as the count after a group's `)` does.
fn begins_count(rest: &[u8]) -> bool
    ensures { result ≡ begins_count rest.now }
{
    matches!(rest, [b'*', ..])
}

/// Returns whether this byte is `(` or `)`.
fn is_parenthesis(byte: u8) -> bool
    ensures { result ≡ is_parenthesis byte }
{
    byte == b'(' || byte == b')'
}

/// Returns the number of bytes of a line's first word, 0 if the line begins with a blank. A parenthesis is a word of its own:
/// `(`, `)`, or `)*3` with the count after it.
pub fn word_length(line: &[u8]) -> usize
    requires { 0 < length line.now }
    ensures word { words_in (spread line.now) ≡ word_alone (take result line.now) ++ words_in (spread (drop result line.now)) }
    ensures blank { result ≡ 0 → words_in (spread line.now) ≡ words_in (spread (drop 1 line.now)) }
    ensures within { result ≤ length line.now }
{
    let byte = line[0];
    if !is_parenthesis(byte) {
        return length_to_part(line);
    }
    let rest = from(line, 1);
    if byte == b')' && begins_count(rest) {
        return length_to_part(rest) + 1;
    }
    1
}

/// Returns the first `place` bytes of a text.
pub fn before(text: &[u8], place: usize) -> &[u8]
    requires { place ≤ length text.now }
    ensures { result.now ≡ take place text.now }
{
    &text[..place]
}

/// Returns the bytes of a text from `place` on.
pub fn from(text: &[u8], place: usize) -> &[u8]
    requires { place ≤ length text.now }
    ensures { result.now ≡ drop place text.now }
{
    &text[place..]
}
