// The line of a row, before it is appended.
ghost use Rattle.std.specs.Prelude.{◌≡◌, ◌+◌, ◌≤◌, ◌++◌, [], length};
ghost use Rattle.std.specs.Fmt.{signed_decimal};

use itoa::Buffer;
use std::marker::Model;

/// How long a row's line can be: a word, four operands of at most 13 bytes, and the line's end.
const ROOM: usize = 64;

/// The part of a row's line that is ready, in a buffer of fixed size, so that the line is appended in one piece.
#[derive(Drop)]
pub struct RowLine {
    bytes: [u8; ROOM],
    len: usize,
}

impl Model for RowLine {
    ghost use Rattle.std.specs.Prelude.{◌≤◌, List, ℕ, take};

    ghost Value = { List ℕ };

    ghost view = { λ line. take line.len line.bytes };

    ghost invariant = { λ line. line.len ≤ 64 };
}

impl RowLine {
    /// Makes a line that is still empty.
    pub fn new() -> RowLine
        ensures { result ≡ [] }
    {
        RowLine {
            bytes: [0; ROOM],
            len: 0,
        }
    }

    /// Returns the bytes that were put into the line so far.
    pub fn as_slice(&self) -> &[u8]
        ensures { result.now ≡ self.now }
    {
        &self.bytes[..self.len]
    }

    /// Appends a word. The caller has checked that there is room for it.
    #[inline(always)]
    pub fn put_word(&mut self, word: &[u8])
        requires { length self.old + length word.now ≤ 64 }
        ensures text { self.new ≡ self.old ++ word.now }
        ensures length { length self.new ≡ length self.old + length word.now }
    {
        let end = self.len + word.len();
        self.bytes[self.len..end].copy_from_slice(word);
        self.len = end;
    }

    /// Appends `word`, and after it a number. Most numbers have one digit, which needs no buffer.
    #[inline(always)]
    #[tactic(auto, using(crate::proofs::OneDigit::digit_steps))]
    pub fn put_value(&mut self, word: &[u8], value: i32)
        requires { length self.old + length word.now + 11 ≤ 64 }
        ensures text { self.new ≡ self.old ++ (word.now ++ signed_decimal value) }
        ensures length { length self.new ≤ length self.old + length word.now + 11 }
    {
        self.put_word(word);
        if 0 <= value && value < 10 {
            self.put_word(&[b'0' + value as u8]);
            return;
        }
        self.put_word(Buffer::new().format(value).as_bytes());
    }
}
