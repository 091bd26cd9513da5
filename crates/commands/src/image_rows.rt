//! The rows of an image.
ghost use Rattle.std.specs.Prelude.{◌≡◌, ◌++◌, IfOk, OnOk};
ghost use Rattle.std.specs.List.{flat_map};
ghost use Rattle.line_reader.specs.Listing.{line_text, numbered};
ghost use Rattle.commands.specs.Rows.{image_listing, image_row_words};

use instruction_table::Row;
use itoa::Buffer;
use line_reader::listing::rows::push_row;
use row_code::Image;
use std::alloc::{AllocError, Global};

/// Appends the line of row `n`: its number and its canonical text, as `0 paaa r0 #0`.
#[tactic(auto, using(line_reader::proofs::ListedTexts::word_steps))]
fn push_numbered(listing: &mut Vec<u8>, n: u64, row: Row) -> Result<(), AllocError>
    ensures { OnOk result (listing.new.items
        ≡ listing.old.items ++ line_text (image_row_words n row)) }
{
    listing.extend_from_slice(Buffer::new().format(n).as_bytes())?;
    listing.extend_from_slice(b" ")?;
    push_row(listing, row)
}

/// Appends a line for each of these rows, its number, from 0, and its canonical text.
#[tactic(auto, using(line_reader::proofs::ListedTexts::text_steps))]
fn push_image_rows(listing: &mut Vec<u8>, rows: &[Row]) -> Result<(), AllocError>
    ensures { OnOk result (listing.new.items
        ≡ listing.old.items ++ flat_map line_text (numbered image_row_words 0 rows.now)) }
{
    for (n, row) in rows.iter().enumerate() {
        push_numbered(listing, n as u64, *row)?;
    }
    Ok(())
}

/// Returns the listing of an image: for each row its number and its canonical text.
pub fn listed_image(alloc: Global, image: &Image) -> Result<Vec<u8>, AllocError>
    ensures { IfOk result (λ listing. listing.items ≡ image_listing image.now) }
{
    let mut listing = Vec::new(alloc);
    push_image_rows(&mut listing, image.rows.as_slice())?;
    Ok(listing)
}
