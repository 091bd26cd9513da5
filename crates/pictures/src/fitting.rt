// Fits texts into a width, and puts them at a column of a line.
ghost use Rattle.std.specs.Prelude.{◌≡◌, ◌++◌, ◌<◌, ◌-◌, codes, length, take, IfOk, OnOk};
ghost use Rattle.std.specs.Fmt.{decimal, signed_decimal};
ghost use Rattle.pictures.specs.Sheet.{blanks, kept_behind, number_text, put_at, shortened};

use itoa::Buffer;
use std::alloc::{AllocError, Global};

/// Appends `count` blanks.
fn push_blanks(text: &mut Vec<u8>, count: usize) -> Result<(), AllocError>
    ensures { OnOk result (text.new.items ≡ text.old.items ++ blanks count) }
{
    let mut left = count;
    while left > 0 {
        text.push(b' ')?;
        left -= 1;
    }
    Ok(())
}

/// Appends a word and an unsigned number.
pub fn push_count(text: &mut Vec<u8>, word: &[u8], count: u64) -> Result<(), AllocError>
    ensures { OnOk result (text.new.items ≡ text.old.items ++ (word.now ++ decimal count)) }
{
    text.extend_from_slice(word)?;
    text.extend_from_slice(Buffer::new().format(count).as_bytes())
}

/// Appends a word and a signed number.
pub fn push_value(text: &mut Vec<u8>, word: &[u8], value: i32) -> Result<(), AllocError>
    ensures { OnOk result (text.new.items ≡ text.old.items ++ (word.now ++ signed_decimal value)) }
{
    text.extend_from_slice(word)?;
    text.extend_from_slice(Buffer::new().format(value).as_bytes())
}

/// Appends the number of a choice, after blanks that fill it up to six bytes. A longer number gets no blank.
pub fn push_number(text: &mut Vec<u8>, number: u64) -> Result<(), AllocError>
    ensures { OnOk result (text.new.items ≡ text.old.items ++ number_text number) }
{
    let mut buffer = Buffer::new();
    let digits = buffer.format(number).as_bytes();
    push_blanks(text, 6usize.saturating_sub(digits.len()))?;
    text.extend_from_slice(digits)
}

/// Returns the first `room` bytes of a longer text, with `~` as the last of them. If `room` is 0, that is nothing.
fn cut(alloc: Global, room: usize, bytes: &[u8]) -> Result<Vec<u8>, AllocError>
    requires { room < length bytes.now }
    ensures { IfOk result (λ text. text.items ≡ take room (take (room - 1) bytes.now ++ codes "~")) }
{
    let mut text = Vec::from_slice(alloc, &bytes[..room.saturating_sub(1)])?;
    text.push(b'~')?;
    text.truncate(room);
    Ok(text)
}

/// Returns the text if it is at most `room` bytes long, and else its beginning and `~`.
pub fn shortened(alloc: Global, room: usize, bytes: &[u8]) -> Result<Vec<u8>, AllocError>
    ensures { IfOk result (λ text. text.items ≡ shortened room bytes.now) }
{
    if bytes.len() <= room {
        Vec::from_slice(alloc, bytes)
    } else {
        cut(alloc, room, bytes)
    }
}

/// Returns `front` and `back` in at most `room` bytes. If they don't fit, `front` is shortened first.
pub fn kept_behind(
    alloc: Global,
    room: usize,
    front: &[u8],
    back: &[u8],
) -> Result<Vec<u8>, AllocError>
    ensures { IfOk result (λ text. text.items ≡ kept_behind room front.now back.now) }
{
    let mut text = shortened(alloc, room.saturating_sub(back.len()), front)?;
    text.extend_from_slice(back)?;
    shortened(alloc, room, text.as_slice())
}

/// Appends a text at a column of the line, after blanks, or at once if the line is already longer than that. An empty text adds
/// nothing.
pub fn put_at(line: &mut Vec<u8>, column: usize, text: &[u8]) -> Result<(), AllocError>
    ensures { OnOk result (line.new.items ≡ put_at column text.now line.old.items) }
{
    if text.is_empty() {
        return Ok(());
    }
    push_blanks(line, column.saturating_sub(line.len()))?;
    line.extend_from_slice(text)
}
