//! The canonical text of an image: what `disassemble` writes.
//!
//! It has a line for each phaser, barrier, thread and row. Laws of `assembler` say that it stands for this image, and for no
//! other.

ghost use Rattle.std.specs.Prelude.{◌≡◌, IfOk, OnOk};
ghost use Rattle.row_code.specs.{declared.image.Image.Image, Image.IsImage};
ghost use Rattle.line_reader.specs.Listing.{canonical};

mod barriers;
mod phasers;
mod pieces;
mod row_line;
pub mod rows;
mod threads;

use crate::listing::barriers::push_barriers;
use crate::listing::phasers::push_phasers;
use crate::listing::rows::push_rows;
use crate::listing::threads::push_threads;
use row_code::Image;
use std::alloc::{AllocError, Global};

/// Returns the canonical text of an image. Phaser `n` is named `pn`, barrier `n` `bn` and thread `n` `tn`. Operands and
/// directives refer to objects by number.
pub fn disassemble(alloc: Global, image: &Image) -> Result<Vec<u8>, AllocError>
    ensures text { IfOk result (λ text. text.items ≡ canonical image.now) }

    // What the laws of canonical texts require of an image.
    ensures fits { OnOk result (IsImage image.now) }
{
    let mut text = Vec::new(alloc);
    push_phasers(&mut text, image.phasers.as_slice())?;
    push_barriers(&mut text, image.barriers.as_slice())?;
    push_threads(&mut text, image.threads.as_slice())?;
    push_rows(&mut text, image.rows.as_slice())?;
    Ok(text)
}
