//! Decimal numbers and their ranges.
ghost use Rattle.std.specs.Prelude.{◌≡◌, ◌<◌, ◌≤◌, ◌≤ℤ◌, IfOk, length, true};
ghost use Rattle.std.specs.{Char.is_ascii_digit, List.AllPass, List.list_all, Str.Parse.digits_value};
ghost use Rattle.line_reader.specs.Numbers.{digits_in, is_negative, is_number, value_in};
ghost use Rattle.line_reader.specs.Reading.{count_at, number_at};

use crate::asm_fault::AsmFaultKind;

/// Returns whether a word begins with a minus sign.
fn is_negative(word: &[u8]) -> bool
    ensures { result ≡ is_negative word.now }
{
    matches!(word, [b'-', ..])
}

/// Returns the word without its minus sign, if it has one.
fn digits_in(word: &[u8]) -> &[u8]
    ensures { result.now ≡ digits_in word.now }
{
    match word {
        [b'-', digits @ ..] => digits,
        _ => word,
    }
}

/// Returns whether each byte is a decimal digit.
pub fn are_digits(bytes: &[u8]) -> bool
    ensures { result ≡ list_all is_ascii_digit bytes.now }
{
    bytes.iter().all(|byte| byte.is_ascii_digit())
}

/// Returns whether a word is one digit or more, perhaps after a minus sign.
fn is_number(word: &[u8]) -> bool
    ensures { result ≡ is_number word.now }
{
    let digits = digits_in(word);
    !digits.is_empty() && are_digits(digits)
}

/// Returns the number that at most ten digits spell, or 0 if there are none.
pub fn digits_value(digits: &[u8]) -> u64
    requires few { length digits.now ≤ 10 }
    requires digits { AllPass is_ascii_digit digits.now }
    ensures value { result ≡ digits_value 10 digits.now }
    ensures small { result < 10000000000 }
{
    let mut value = 0u64;
    for digit in digits {
        value = value * 10 + u64::from(*digit - b'0');
    }
    value
}

/// Returns the number that a word spells: at most ten digits, which fit in an `i64`, perhaps after a minus sign.
fn value_in(word: &[u8]) -> i64
    requires number { is_number word.now ≡ true }
    requires short { length (digits_in word.now) ≤ 10 }
    ensures { result ≡ value_in word.now }
{
    let digits = digits_value(digits_in(word));
    let digits = i64::try_from(digits).unwrap_or(i64::MAX);
    if is_negative(word) { -digits } else { digits }
}

/// Reads a word as a number from `low` to `high`: one to ten digits, perhaps after a minus sign. The fault is `BadNumber` if
/// the word has no digits, or another byte than these. It is `OutOfRange` if the number is less than `low` or greater than
/// `high`, or if the word has more than ten digits. It isn't inlined, since most operands are registers and names.
#[inline(never)]
#[tactic(auto, unfolding(crate::specs::Reading::number_at))]
pub fn number_at(low: i32, high: i32, word: &[u8]) -> Result<i32, AsmFaultKind>
    ensures read { result ≡ number_at low high word.now }
    ensures least { IfOk result (λ number. low ≤ℤ number) }
    ensures greatest { IfOk result (λ number. number ≤ℤ high) }
{
    if !is_number(word) {
        return Err(AsmFaultKind::BadNumber);
    }
    if digits_in(word).len() > 10 {
        return Err(AsmFaultKind::OutOfRange);
    }
    let value = value_in(word);
    if value < i64::from(low) || i64::from(high) < value {
        return Err(AsmFaultKind::OutOfRange);
    }
    match i32::try_from(value) {
        Ok(value) => Ok(value),
        Err(_) => Err(AsmFaultKind::OutOfRange),
    }
}

/// Reads a number from 0 to `high`. Any other word is `BadNumber` or `OutOfRange`.
#[tactic(auto, unfolding(crate::specs::Reading::count_at))]
pub fn count_at(high: u16, word: &[u8]) -> Result<u16, AsmFaultKind>
    ensures { result ≡ count_at high word.now }
{
    let value = number_at(0, i32::from(high), word)?;
    match u16::try_from(value) {
        Ok(value) => Ok(value),
        Err(_) => Err(AsmFaultKind::OutOfRange),
    }
}
