//! The lines of a state, and the words in them.
ghost use Rattle.std.specs.Prelude.{◌≡◌, List, ℕ, option_map};
ghost use Rattle.std.specs.Borrow.{Bor};
ghost use Rattle.trace_text.specs.ExpectedLine.{begins, begins_whole, ends_a_list, ends_a_word, first_line, has_died, has_whole, has_words, later_line, line_of, names_a_list};

use line_reader::words::length_before;

/// Returns whether a word that precedes `rest` is complete: `rest` is empty or begins with a blank.
fn ends_a_word(rest: &[u8]) -> bool
    ensures { result ≡ ends_a_word rest.now }
{
    match rest.first() {
        Some(byte) => *byte == b' ',
        None => true,
    }
}

/// Returns whether a text begins with these words, and the last of them is complete: `t1` doesn't begin `t12 0`.
fn begins(words: &[u8], text: &[u8]) -> bool
    ensures { result ≡ begins words.now text.now }
{
    text.starts_with(words) && ends_a_word(&text[words.len()..])
}

/// Returns whether a line has `words`, which begin with a blank, somewhere in a row, the last of them complete.
fn has_words(words: &[u8], line: &[u8]) -> bool
    ensures { result ≡ has_words words.now line.now }
{
    let mut rest = line;
    while !rest.is_empty() {
        if begins(words, rest) {
            return true;
        }
        rest = &rest[1..];
    }
    false
}

/// Returns whether ` regs`, ` stack` or ` out` is among these words of an expectation, as a whole word. If so, the words
/// have to go on to the end of a list (`begins_whole`).
fn names_a_list(words: &[u8]) -> bool
    ensures { result ≡ names_a_list words.now }
{
    has_words(b" regs", words) || has_words(b" stack", words) || has_words(b" out", words)
}

/// Returns whether a list that precedes `rest` is complete: `rest` is empty, or begins with the next list's name.
fn ends_a_list(rest: &[u8]) -> bool
    ensures { result ≡ ends_a_list rest.now }
{
    rest.is_empty() || begins(b" stack", rest) || begins(b" out", rest)
}

/// Returns whether a text begins with these words. If a list is among them, they have to go on to a list's end in the text.
fn begins_whole(words: &[u8], text: &[u8]) -> bool
    ensures { result ≡ begins_whole words.now text.now }
{
    begins(words, text) && (!names_a_list(words) || ends_a_list(&text[words.len()..]))
}

/// Returns whether a line has `words`, which begin with a blank, somewhere in a row. If a list is among them, they have to go
/// on to a list's end.
pub fn has_whole(words: &[u8], line: &[u8]) -> bool
    ensures { result ≡ has_whole words.now line.now }
{
    let mut rest = line;
    while !rest.is_empty() {
        if begins_whole(words, rest) {
            return true;
        }
        rest = &rest[1..];
    }
    false
}

/// Returns the first line of a text, without its LF.
fn first_line(text: &[u8]) -> &[u8]
    ensures { result.now ≡ first_line text.now }
{
    &text[..length_before(b'\n', text)]
}

/// Returns the first line after the text's first one that begins with the word `subject`, without its LF, or `None`.
fn later_line<'a>(subject: &[u8], text: &'a [u8]) -> Option<&'a [u8]>
    ensures { option_map (λ (line : Bor (List ℕ)). line.now) result ≡ later_line subject.now text.now }
{
    let mut rest = text;
    while !rest.is_empty() {
        let after = &rest[1..];
        if rest[0] == b'\n' && begins(subject, after) {
            return Some(first_line(after));
        }
        rest = after;
    }
    None
}

/// Returns the line of a state that begins with this word, without its LF, or `None` if there is none.
pub fn line_of<'a>(state: &'a [u8], subject: &[u8]) -> Option<&'a [u8]>
    ensures { option_map (λ (line : Bor (List ℕ)). line.now) result ≡ line_of state.now subject.now }
{
    if begins(subject, state) {
        Some(first_line(state))
    } else {
        later_line(subject, state)
    }
}

/// Returns whether ` died:`, the status of a thread that has died, is in a state's text.
pub fn has_died(state: &[u8]) -> bool
    ensures { result ≡ has_died state.now }
{
    let mut rest = state;
    while !rest.is_empty() {
        if rest.starts_with(b" died:") {
            return true;
        }
        rest = &rest[1..];
    }
    false
}
