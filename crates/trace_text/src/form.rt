//! The texts of expectations.
ghost use Rattle.std.specs.Prelude.{◌≡◌, List, ℕ, option_map};
ghost use Rattle.std.specs.Borrow.{Bor};
ghost use Rattle.trace_text.specs.Expectation.{end_words, is_expectation, subject_of, words_of};

use line_reader::words::length_before;

/// Returns what the line `state` has to contain if `text` is a word for how a run ends. `None`: `text` is no such word. `ended`
/// is read as `all`: `is_met` checks that no thread has died.
pub fn end_words(text: &[u8]) -> Option<&'static [u8]>
    ensures { option_map (λ (words : Bor (List ℕ)). words.now) result ≡ end_words text.now }
{
    if text == b"all".as_slice() {
        Some(b" all")
    } else if text == b"ended".as_slice() {
        Some(b" all")
    } else if text == b"stuck".as_slice() {
        Some(b" stuck")
    } else if text == b"live".as_slice() {
        Some(b" live")
    } else {
        None
    }
}

/// Returns what precedes the first blank: the name of the line that the text is about.
pub fn subject_of(text: &[u8]) -> &[u8]
    ensures { result.now ≡ subject_of text.now }
{
    &text[..length_before(b' ', text)]
}

/// Returns what the line named by `subject_of` has to contain, from the first blank on: ` ended` for `t0 ended`.
pub fn words_of(text: &[u8]) -> &[u8]
    ensures { result.now ≡ words_of text.now }
{
    &text[length_before(b' ', text)..]
}

/// Returns whether a text is an expectation: a word for how a run ends (`all`), or a line's name and words (`t0 ended`).
pub fn is_expectation(text: &[u8]) -> bool
    ensures { result ≡ is_expectation text.now }
{
    end_words(text).is_some() || (!subject_of(text).is_empty() && words_of(text).len() > 1)
}
