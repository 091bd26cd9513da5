// Builds a line with one number in a buffer of fixed size, from its end.
ghost use Rattle.std.specs.Prelude.{◌≡◌, ◌+◌, ◌≤◌, ◌++◌, [], length, drop};
ghost use Rattle.std.specs.Fmt.{decimal};

use itoa::write_digits;

/// The most bytes of such a line.
pub const ROOM: usize = 40;

/// Puts a word before index `from` of a buffer, and returns the index of its first byte.
#[inline(always)]
fn put_before(bytes: &mut [u8; ROOM], from: usize, word: &[u8]) -> usize
    requires from { from ≤ 40 }
    requires room { length word.now ≤ from }
    ensures text { drop result bytes.new ≡ word.now ++ drop from bytes.old }
    ensures place { result + length word.now ≡ from }
{
    let start = from - word.len();
    bytes[start..from].copy_from_slice(word);
    start
}

/// Puts `word`, a number and `end` at the end of a buffer, beginning with `end`. Returns the index of their first byte.
#[inline(always)]
pub fn put_number_line(bytes: &mut [u8; ROOM], word: &[u8], number: u64, end: &[u8]) -> usize
    requires { length word.now + length end.now ≤ 20 }
    ensures text { drop result bytes.new ≡ word.now ++ (decimal number ++ end.now) }
    ensures within { result ≤ 40 }
{
    let last = put_before(bytes, ROOM, end);
    let middle = write_digits(number, bytes, last);
    put_before(bytes, middle, word)
}
