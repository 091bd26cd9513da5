// What a line of a trace names.
ghost use Rattle.std.specs.{Prelude.◌≡◌, List.before_first, List.position, List.position_or_len};
ghost use Rattle.trace_text.specs.Reading.{choice_by, choice_in, choice_named, choice_of_digits, is_space, is_state_line, is_no_digit};

use crate::next_choice::rest_of;
use line_reader::words::length_before;
use thread_machine::Choice;

/// Returns the choice of thread number `thread`, or `None` if the thread wasn't named in digits or is above 63.
fn choice_by(expiry: bool, are_digits: bool, thread: u16) -> Option<Choice>
    ensures { result ≡ choice_by expiry are_digits thread }
{
    if are_digits && thread <= 63 {
        Some(Choice {
            thread: thread as u8,
            expiry,
        })
    } else {
        None
    }
}

/// Returns the choice of the thread that one or two digits name, or `None` for any other bytes or a number above 63.
fn choice_of_digits(expiry: bool, digits: &[u8]) -> Option<Choice>
    ensures { result ≡ choice_of_digits expiry digits.now }
{
    match digits {
        [one] => choice_by(
            expiry,
            one.is_ascii_digit(),
            u16::from(one.saturating_sub(b'0')),
        ),
        [ten, one] => choice_by(
            expiry,
            ten.is_ascii_digit() && one.is_ascii_digit(),
            10 * u16::from(ten.saturating_sub(b'0')) + u16::from(one.saturating_sub(b'0')),
        ),
        _ => None,
    }
}

/// Returns the choice that a name such as `t2` or `x2` stands for. `None`: it is no such name.
fn choice_named(name: &[u8]) -> Option<Choice>
    ensures { result ≡ choice_named name.now }
{
    match name {
        [b't', digits @ ..] => choice_of_digits(false, digits),
        [b'x', digits @ ..] => choice_of_digits(true, digits),
        _ => None,
    }
}

/// Returns what precedes the first space, or the whole line if it has none.
fn first_word(line: &[u8]) -> &[u8]
    ensures { result.now ≡ before_first is_space line.now }
{
    &line[..length_before(b' ', line)]
}

/// Returns the place of the first byte that is no digit, or `None` if there is none.
fn place_of_no_digit(line: &[u8]) -> Option<usize>
    ensures { result ≡ position is_no_digit line.now }
{
    line.iter().position(|byte| !byte.is_ascii_digit())
}

/// Returns how many digits a line begins with.
#[tactic(auto, using(line_reader::proofs::Places::position_some, line_reader::proofs::Places::position_none))]
fn digits_before(line: &[u8]) -> usize
    ensures { result ≡ position_or_len is_no_digit line.now }
{
    match place_of_no_digit(line) {
        Some(place) => place,
        None => line.len(),
    }
}

/// Returns the choice that a line names after its number of 1 to 13 digits, as t0 in `7 t0 1 out 1`. `None`: it names none.
pub fn choice_in(line: &[u8]) -> Option<Choice>
    ensures { result ≡ choice_in line.now }
{
    let end = digits_before(line);
    if end == 0 || 13 < end || line.len() <= end || line[end] != b' ' {
        return None;
    }
    choice_named(first_word(rest_of(line, end + 1)))
}

/// Returns whether the first word of a line is `state`.
pub fn is_state_line(line: &[u8]) -> bool
    ensures { result ≡ is_state_line line.now }
{
    first_word(line) == b"state".as_slice()
}
