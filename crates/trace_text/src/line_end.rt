// A line that is put together from its end.
ghost use Rattle.std.specs.Prelude.{◌≡◌, ◌+◌, ◌<◌, ◌≤◌, List, ℕ, [], ◌++◌, length, drop};
ghost use Rattle.std.specs.Fmt.{decimal, signed_decimal};

use crate::digits::{Digits, MOST_DIGITS};
use itoa::write_digits;
use std::marker::Model;

/// The most bytes of a line.
const ROOM: usize = 192;

/// The end of a line, in a buffer of fixed size. Words and numbers are put before what is already there, so each number's
/// digits are written at their final place, and no line allocates.
#[derive(Drop)]
pub struct LineEnd {
    bytes: [u8; ROOM],
    start: usize,
}

impl Model for LineEnd {
    ghost use Rattle.std.specs.Prelude.{◌≤◌, List, ℕ, drop};

    ghost Value = { List ℕ };

    ghost view = { λ line. drop line.start line.bytes };

    ghost invariant = { λ line. line.start ≤ 192 };
}

impl LineEnd {
    /// Returns a line with nothing in it yet.
    #[tactic(auto, using(std::proofs::lemmas::List::drop_all))]
    pub fn new() -> LineEnd
        ensures { result ≡ [] }
    {
        LineEnd {
            bytes: [0; ROOM],
            start: ROOM,
        }
    }

    /// Empties the line, so that its buffer can be used for another one.
    pub fn clear(&mut self)
        ensures { self.new ≡ [] }
    {
        self.start = ROOM;
    }

    /// Returns the bytes that the line has so far.
    pub fn as_slice(&self) -> &[u8]
        ensures { result.now ≡ self.now }
    {
        &self.bytes[self.start..]
    }

    /// Puts a word before the line. Its length is known at compile time, so a short one takes a store or two.
    #[inline(always)]
    pub fn put_word<const N: usize>(&mut self, word: &[u8; N])
        requires { length self.old + length word.now ≤ 192 }
        ensures text { self.new ≡ word.now ++ self.old }
        ensures length { length self.new ≡ length word.now + length self.old }
    {
        let word = *word;
        let start = self.start - N;
        self.bytes[start..self.start].copy_from_slice(&word);
        self.start = start;
    }

    /// Puts an unsigned number before the line.
    #[inline(always)]
    pub fn put_count(&mut self, count: u64)
        requires { length self.old + 20 ≤ 192 }
        ensures text { self.new ≡ decimal count ++ self.old }
        ensures length { length self.new ≤ length self.old + 20 }
    {
        self.start = write_digits(count, &mut self.bytes, self.start);
    }

    /// Puts the number of `digits` before the line. For speed it copies their whole block; only the digits belong to the line.
    #[inline(always)]
    pub fn put_digits(&mut self, digits: &Digits)
        requires { length self.old + 20 ≤ 192 }
        ensures text { self.new ≡ decimal digits.now ++ self.old }
        ensures length { length self.new ≤ length self.old + 20 }
    {
        let end = self.start;
        self.bytes[end - MOST_DIGITS..end].copy_from_slice(&digits.block());
        self.start = end - digits.count();
    }

    /// Puts a signed number before the line.
    #[inline(always)]
    pub fn put_value(&mut self, value: i32)
        requires { length self.old + 11 ≤ 192 }
        ensures text { self.new ≡ signed_decimal value ++ self.old }
        ensures length { length self.new ≤ length self.old + 11 }
    {
        self.start = write_digits(u64::from(value.unsigned_abs()), &mut self.bytes, self.start);
        if value >= 0 {
            return;
        }
        self.start -= 1;
        self.bytes[self.start] = b'-';
    }
}
