// The counts and seeds in the words of a plan.
ghost use Rattle.std.specs.Prelude.{◌≡◌, ◌≤◌, ◌<◌, length, IfSome};
ghost use Rattle.std.specs.{Char.is_ascii_digit, List.AllPass, List.list_all, Str.Parse.digits_value};
ghost use Rattle.plans.specs.Numbers.{are_digits, count_in, number_in, seed_in};

/// The largest count that a word may ask for.
const MOST_TIMES: u64 = 1_000_000;

/// Returns whether every byte of a word is a digit. It is true for an empty word.
fn all_digits(word: &[u8]) -> bool
    ensures { result ≡ list_all is_ascii_digit word.now }
{
    word.iter().all(|byte| byte.is_ascii_digit())
}

/// Returns whether a word has at least one byte and at most `most`, all of them digits.
pub fn are_digits(most: usize, word: &[u8]) -> bool
    ensures { result ≡ are_digits most word.now }
{
    !word.is_empty() && word.len() <= most && all_digits(word)
}

/// Returns the number that at most twenty digits spell.
fn digits_value(digits: &[u8]) -> u128
    requires few { length digits.now ≤ 20 }
    requires digits { AllPass is_ascii_digit digits.now }
    ensures { result ≡ digits_value 10 digits.now }
{
    let mut value = 0u128;
    for digit in digits {
        value = value * 10 + u128::from(*digit - b'0');
    }
    value
}

/// Returns the number that a word spells. `None`: the word isn't 1 to `most_digits` digits, or the number is above `most`.
pub fn number_in(most_digits: usize, most: u64, word: &[u8]) -> Option<u64>
    requires { most_digits ≤ 20 }
    ensures { result ≡ number_in most_digits most word.now }
{
    if !are_digits(most_digits, word) {
        return None;
    }
    let value = digits_value(word);
    if value > u128::from(most) {
        return None;
    }
    Some(value as u64)
}

/// Returns the count that a word spells: 1 to 1,000,000, in at most 7 digits, without a leading zero. `None`: any other word.
pub fn count_in(word: &[u8]) -> Option<u32>
    ensures { result ≡ count_in word.now }
{
    if let [b'0', ..] = word {
        return None;
    }
    match number_in(7, MOST_TIMES, word) {
        Some(count) => Some(count as u32),
        None => None,
    }
}

/// Returns the seed below 2 to the 64th that a word of at most twenty digits spells, or `None` for any other word.
pub fn seed_in(word: &[u8]) -> Option<u64>
    ensures { result ≡ seed_in word.now }
{
    number_in(20, u64::MAX, word)
}
