//! Whether a state meets an expectation, and whether a run ended so.
ghost use Rattle.std.specs.Prelude.{◌≡◌};
ghost use Rattle.trace_text.specs.Expectation.{allows, are_met, have_ended, is_cell, is_end_expected, is_met, is_zero_cell, says};

use crate::form::{end_words, subject_of, words_of};
use crate::run_end::RunEnd;
use crate::state_line::{has_died, has_whole, line_of};
use thread_machine::Standing;

/// Returns whether a line of the state begins with `subject` and has `words` in a row. In a list, `words` reach its end.
fn says(state: &[u8], subject: &[u8], words: &[u8]) -> bool
    ensures { result ≡ says state.now subject.now words.now }
{
    match line_of(state, subject) {
        Some(line) => has_whole(words, line),
        None => false,
    }
}

/// Returns whether this is the word of a cell, `c` and its number, 0 to 31.
fn is_cell(word: &[u8]) -> bool
    ensures { result ≡ is_cell word.now }
{
    match word {
        [b'c', units] => units.is_ascii_digit(),
        [b'c', b'1' | b'2', units] => units.is_ascii_digit(),
        [b'c', b'3', b'0' | b'1'] => true,
        _ => false,
    }
}

/// Returns whether ` 0` is expected of a cell, for example `c3`, that has no line in the state. A cell that is 0 has no line.
fn is_zero_cell(state: &[u8], subject: &[u8], words: &[u8]) -> bool
    ensures { result ≡ is_zero_cell state.now subject.now words.now }
{
    words == b" 0".as_slice() && is_cell(subject) && line_of(state, subject).is_none()
}

/// Returns whether the run is over (`all` in the line `state`) and no thread has died: so every thread has ended.
fn have_ended(state: &[u8]) -> bool
    ensures { result ≡ have_ended state.now }
{
    says(state, b"state", b" all") && !has_died(state)
}

/// Returns whether `state`, the text of a state, meets the expectation `text`. An expectation is a word for how a run ends, for
/// example `ended`, or a line's name and words, for example `t0 ended` or `c3 0`.
pub fn is_met(state: &[u8], text: &[u8]) -> bool
    ensures { result ≡ is_met state.now text.now }
{
    if text == b"ended".as_slice() {
        return have_ended(state);
    }
    match end_words(text) {
        Some(words) => says(state, b"state", words),
        None => {
            let subject = subject_of(text);
            let words = words_of(text);
            says(state, subject, words) || is_zero_cell(state, subject, words)
        }
    }
}

/// Returns whether a state meets all of these expectations.
pub fn are_met(state: &[u8], texts: &[Vec<u8>]) -> bool
    ensures { result ≡ are_met state.now texts.now }
{
    texts.iter().all(|text| is_met(state, text.as_slice()))
}

/// Returns whether `text`, if it is a word for how a run ends, is the one for this end. Any other text allows every end.
fn allows(text: &[u8], standing: Standing) -> bool
    ensures { result ≡ allows text.now standing }
{
    let wants_all = text == b"all".as_slice() || text == b"ended".as_slice();
    let wants_stuck = text == b"stuck".as_slice();
    let wants_live = text == b"live".as_slice();
    match standing {
        Standing::All => !(wants_stuck || wants_live),
        Standing::Stuck => !(wants_all || wants_live),
        Standing::Live => !(wants_all || wants_stuck),
    }
}

/// Returns whether a run ended as the expectation `text` says: no choice was refused, and its end and its state meet `text`.
pub fn is_end_expected(end: &RunEnd, text: &[u8]) -> bool
    ensures { result ≡ is_end_expected end.now text.now }
{
    end.refused.is_none() && allows(text, end.standing) && is_met(end.state.as_slice(), text)
}
