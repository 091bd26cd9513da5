// The parts of lines.
ghost use Rattle.std.specs.Prelude.{◌≡◌, ◌≤◌, ◌++◌, OnOk, length};
ghost use Rattle.std.specs.Fmt.{decimal, signed_decimal};

use itoa::Buffer;
use std::alloc::AllocError;

/// Appends an unsigned number. Fails if it is out of memory.
pub(super) fn add_count(text: &mut Vec<u8>, count: u64) -> Result<(), AllocError>
    ensures { OnOk result (text.new.items ≡ text.old.items ++ decimal count) }
{
    text.extend_from_slice(Buffer::new().format(count).as_bytes())
}

/// Appends a word, as `died:` or a blank, and a signed number. Fails if it is out of memory.
pub(super) fn add_with_value(text: &mut Vec<u8>, word: &[u8], value: i32) -> Result<(), AllocError>
    ensures text { OnOk result (text.new.items ≡ text.old.items ++ (word.now ++ signed_decimal value)) }
    ensures few { length (signed_decimal value) ≤ 11 }
{
    text.extend_from_slice(word)?;
    text.extend_from_slice(Buffer::new().format(value).as_bytes())
}

/// Appends a word and an unsigned number. Fails if it is out of memory.
pub(super) fn add_with_count(text: &mut Vec<u8>, word: &[u8], count: u64) -> Result<(), AllocError>
    ensures { OnOk result (text.new.items ≡ text.old.items ++ (word.now ++ decimal count)) }
{
    text.extend_from_slice(word)?;
    add_count(text, count)
}
