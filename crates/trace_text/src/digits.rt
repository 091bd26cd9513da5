// A number's digits, which are kept from line to line.
ghost use Rattle.std.specs.Prelude.{◌≡◌, ◌+◌, ◌-◌, ◌<◌, ◌≤◌, ◌^◌, drop, length};
ghost use Rattle.std.specs.Fmt.{decimal};

use itoa::write_digits;
use std::marker::Model;

/// The most digits that a number has.
pub const MOST_DIGITS: usize = 20;

/// The digits of a number, at the end of a block of their own. The number of one line is mostly one more than that of the
/// line before: then its last digit is counted up in place, and the block is copied whole into the line.
#[derive(Drop)]
pub struct Digits {
    block: [u8; MOST_DIGITS],
    count: usize,
    number: u64,
}

impl Model for Digits {
    ghost use Rattle.std.specs.Prelude.{◌≡◌, ◌+◌, ◌-◌, ◌<◌, ◌≤◌, ◌^◌, ℕ, drop};
    ghost use Rattle.std.specs.Fmt.{decimal};

    ghost Value = { ℕ };

    ghost view = { λ digits. digits.number };

    ghost invariant = { λ digits. (digits.count ≤ 20)
        × (drop (20 - digits.count) digits.block ≡ decimal digits.number) × (digits.number + 1 < 2 ^ 64) };
}

impl Digits {
    /// Returns the digits of 0.
    pub fn new() -> Digits
        ensures { result ≡ 0 }
    {
        Digits {
            block: [b'0'; MOST_DIGITS],
            count: 1,
            number: 0,
        }
    }

    /// Makes these the digits of `number`. If only the last digit grows, only that one is written.
    #[inline(always)]
    pub fn move_to(&mut self, number: u64)
        requires { number + 1 < 2 ^ 64 }
        ensures { self.new ≡ number }
    {
        let last = self.block[MOST_DIGITS - 1];
        if last < b'9' && number == self.number + 1 {
            self.block[MOST_DIGITS - 1] = last + 1;
            self.number = number;
            return;
        }
        self.move_far(number);
    }

    /// Makes these the digits of `number`, if more than the last digit changes. A step such as 19 to 20 writes two digits. Any
    /// other writes all, for example 9 to 10, which adds a digit.
    #[inline(never)]
    fn move_far(&mut self, number: u64)
        requires { number + 1 < 2 ^ 64 }
        ensures { self.new ≡ number }
    {
        let ten = self.block[MOST_DIGITS - 2];
        let last = self.block[MOST_DIGITS - 1];
        if number == self.number + 1 && number > 10 && last == b'9' && ten < b'9' {
            self.block[MOST_DIGITS - 2] = ten + 1;
            self.block[MOST_DIGITS - 1] = b'0';
            self.number = number;
            return;
        }
        let start = write_digits(number, &mut self.block, MOST_DIGITS);
        self.count = MOST_DIGITS - start;
        self.number = number;
    }

    /// Returns how many digits the number has.
    #[inline(always)]
    pub fn count(&self) -> usize
        ensures digits { result ≡ length (decimal self.now) }
        ensures few { result ≤ 20 }
    {
        self.count
    }

    /// Returns the digits, the most significant one first.
    #[inline(always)]
    pub fn as_slice(&self) -> &[u8]
        ensures { result.now ≡ decimal self.now }
    {
        &self.block[MOST_DIGITS - self.count..]
    }

    /// Returns the 20 bytes that end with the digits. What precedes the digits has no meaning.
    #[inline(always)]
    pub fn block(&self) -> [u8; MOST_DIGITS]
        ensures digits { drop (20 - length (decimal self.now)) result ≡ decimal self.now }
        ensures length { length result ≡ 20 }
    {
        self.block
    }
}
