//! The rows of a text, each with its line.
ghost use Rattle.std.specs.Prelude.{◌≡◌, ◌++◌, ◌∷◌, [], IfOk, OnOk, decimal, map};
ghost use Rattle.std.specs.List.{flat_map, slice_split};
ghost use Rattle.line_reader.specs.{Seen.name_seen, Words.is_line_end, Words.lines_of, Listing.line_text, Listing.numbered};
ghost use Rattle.commands.specs.Rows.{line_at, text_row_words, trimmed};

use itoa::Buffer;
use line_reader::words::is_line_end;
use std::alloc::{AllocError, Global};

/// Returns the lines of a text without their LF. What follows the last LF is one, even if empty.
fn split_lines(alloc: Global, text: &[u8]) -> Result<Vec<&[u8]>, AllocError>
    ensures { IfOk result (λ lines. map name_seen lines.items ≡ slice_split is_line_end text.now) }
{
    let mut lines = Vec::new(alloc);
    lines.extend(text.split(|byte| is_line_end(*byte)))?;
    Ok(lines)
}

/// Returns the line of this number, from 1, or an empty one if there is none.
fn line_at<'a>(lines: &[&'a [u8]], number: u64) -> &'a [u8]
    ensures { result.now ≡ line_at (map name_seen lines.now) number }
{
    match lines.get(number.saturating_sub(1) as usize) {
        Some(line) => *line,
        None => &[],
    }
}

/// Returns a line without the blanks at its ends.
fn trimmed(line: &[u8]) -> &[u8]
    ensures { result.now ≡ trimmed line.now }
{
    line.trim_ascii()
}

/// Appends a line of the listing, as `0 5 main: paaa r0 p`: the row's number, its line's number in the text, and that line.
#[tactic(auto, using(line_reader::proofs::ListedTexts::word_steps))]
fn push_text_row(
    listing: &mut Vec<u8>,
    row: u64,
    number: u64,
    line: &[u8],
) -> Result<(), AllocError>
    ensures { OnOk result (listing.new.items
        ≡ listing.old.items ++ line_text (decimal row ∷ decimal number ∷ trimmed line.now ∷ [])) }
{
    listing.extend_from_slice(Buffer::new().format(row).as_bytes())?;
    listing.extend_from_slice(b" ")?;
    listing.extend_from_slice(Buffer::new().format(number).as_bytes())?;
    listing.extend_from_slice(b" ")?;
    listing.extend_from_slice(trimmed(line))?;
    listing.extend_from_slice(b"\n")
}

/// Appends a line for each row. Row n is in the text's line number `numbers[n]`, counted from 1.
#[tactic(auto, using(line_reader::proofs::ListedTexts::text_steps))]
fn push_text_rows(listing: &mut Vec<u8>, lines: &[&[u8]], numbers: &[u64]) -> Result<(), AllocError>
    ensures { OnOk result (listing.new.items ≡ listing.old.items
        ++ flat_map line_text (numbered (text_row_words (map name_seen lines.now)) 0 numbers.now)) }
{
    for (row, number) in numbers.iter().enumerate() {
        push_text_row(listing, row as u64, *number, line_at(lines, *number))?;
    }
    Ok(())
}

/// Returns the listing of a text. Row n is in the text's line number `numbers[n]`, from 1.
pub fn rows_in_text(alloc: Global, text: &[u8], numbers: &[u64]) -> Result<Vec<u8>, AllocError>
    ensures { IfOk result (λ listing. listing.items
        ≡ flat_map line_text (numbered (text_row_words (lines_of text.now)) 0 numbers.now)) }
{
    let lines = split_lines(alloc, text)?;
    let mut listing = Vec::new(alloc);
    push_text_rows(&mut listing, lines.as_slice(), numbers)?;
    Ok(listing)
}
