// The choice that the next line of a trace names, if the line begins like that of the next choice.
ghost use Rattle.std.specs.Prelude.{◌≡◌, ◌≢◌, ◌+◌, ◌≤◌, IfSome, drop, false, length, take, true};
ghost use Rattle.trace_text.specs.Reading.{BeginsWithName, NamesBehind};

use thread_machine::Choice;

/// Returns the bytes of a text from index `at` on.
pub fn rest_of(text: &[u8], at: usize) -> &[u8]
    requires { at ≤ length text.now }
    ensures rest { result.now ≡ drop at text.now }
    ensures length { at + length result.now ≡ length text.now }
{
    &text[at..]
}

/// Returns the first `count` bytes of a text.
pub fn first_bytes(text: &[u8], count: usize) -> &[u8]
    requires { count ≤ length text.now }
    ensures { result.now ≡ take count text.now }
{
    &text[..count]
}

/// Returns whether N bytes are equal. The compiler knows N, so no function is called.
#[inline(always)]
fn are_same<const N: usize>(one: &[u8; N], other: &[u8; N]) -> bool
    ensures same { result ≡ true → one.now ≡ other.now }
    ensures other { one.now ≡ other.now → result ≡ true }
{
    *one == *other
}

/// Returns whether two texts of N to 2 N bytes are equal, by their first N and their last N, which may overlap: two fast looks.
#[inline(always)]
#[tactic(auto, using(crate::proofs::Words::ends_same))]
fn have_same_ends<const N: usize>(one: &[u8], other: &[u8]) -> bool
    requires length { length one.now ≡ length other.now }
    requires many { N ≤ length one.now }
    requires few { length one.now ≤ N + N }
    ensures same { result ≡ true → one.now ≡ other.now }
    ensures other { result ≡ false → one.now ≢ other.now }
{
    let (Some((first, _)), Some((_, last))) = (
        one.split_first_chunk::<N>(),
        one.split_last_chunk::<N>(),
    ) else {
        unreachable!()
    };
    let (Some((other_first, _)), Some((_, other_last))) = (
        other.split_first_chunk::<N>(),
        other.split_last_chunk::<N>(),
    ) else {
        unreachable!()
    };
    are_same(first, other_first) && are_same(last, other_last)
}

/// Returns whether bytes begin with a text. N matters only for speed: a text of N to 2 N bytes is compared fastest.
#[inline(always)]
pub fn begins_with<const N: usize>(bytes: &[u8], text: &[u8]) -> bool
    requires { length text.now ≤ length bytes.now }
    ensures same { result ≡ true → take (length text.now) bytes.now ≡ text.now }
    ensures other { result ≡ false → take (length text.now) bytes.now ≢ text.now }
{
    let first = first_bytes(bytes, text.len());
    if text.len() >= N && text.len() - N <= N {
        return have_same_ends::<N>(first, text);
    }
    first == text
}

/// Returns the choice whose name, as ` t0 ` or ` x63 `, begins these bytes. `None`: they don't begin so, or are fewer than 5.
#[inline(always)]
fn choice_between_spaces(bytes: &[u8]) -> Option<Choice>
    ensures { IfSome result (λ choice. BeginsWithName bytes.now choice) }
{
    if bytes.len() < 5 || bytes[0] != b' ' || !bytes[2].is_ascii_digit() {
        return None;
    }
    let expiry = bytes[1] == b'x';
    if !expiry && bytes[1] != b't' {
        return None;
    }
    let first = bytes[2] - b'0';
    if bytes[3] == b' ' {
        return Some(Choice {
            thread: first,
            expiry,
        });
    }
    if first == 0 || !bytes[3].is_ascii_digit() || bytes[4] != b' ' {
        return None;
    }
    let thread = first * 10 + (bytes[3] - b'0');
    if thread > 63 {
        return None;
    }
    Some(Choice { thread, expiry })
}

/// Returns the choice named after `number` at the start of a line, as t0 in `7 t0 `. `None`: the line begins otherwise, so the
/// caller has to read all of it.
#[inline(always)]
pub fn choice_behind(bytes: &[u8], number: &[u8]) -> Option<Choice>
    requires { length number.now ≤ length bytes.now }
    ensures { IfSome result (λ choice. NamesBehind bytes.now number.now choice) }
{
    // The 4 is only for speed: a number of 4 to 8 digits is compared fastest.
    if !begins_with::<4>(bytes, number) {
        return None;
    }
    choice_between_spaces(rest_of(bytes, number.len()))
}
