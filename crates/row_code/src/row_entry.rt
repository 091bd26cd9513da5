//! The 8 bytes of a row. `read` reads row `n` of an image, and `push` writes a row.
ghost use Rattle.std.specs.Prelude.{◌≡◌, length, IfOk, IfSome};
ghost use Rattle.row_code.specs.{RowFields.IsRow, Reading.row_or, Reading.row_at};

use crate::entry::Entry;
use crate::image_fault::ImageFault;
use crate::row_bytes::{decode, encode};
use crate::write_fault::WriteFault;
use byte_ports::Sink;
use instruction_table::{Row, is_timed};

/// Returns row `n`, `found` in its bytes, or its fault: the bytes encode none, or it has a timeout and the image may have none.
fn row_or(timed: bool, n: u16, found: Option<Row>) -> Result<Row, ImageFault>
    requires { IfSome found (λ row. IsRow row) }
    ensures read { result ≡ row_or timed n found }
    ensures fits { IfOk result (λ row. IsRow row) }
{
    match found {
        Some(row) if timed || !is_timed(row) => Ok(row),
        _ => Err(ImageFault::Row(n)),
    }
}

/// Reads row `n` from its 8 bytes. `timed` says whether it may have a timeout.
fn row_at(timed: bool, n: u16, bytes: &[u8]) -> Result<Row, ImageFault>
    requires { length bytes.now ≡ 8 }
    ensures read { result ≡ row_at timed n bytes.now }
    ensures fits { IfOk result (λ row. IsRow row) }
{
    let bytes = [
        bytes[0], bytes[1], bytes[2], bytes[3], bytes[4], bytes[5], bytes[6], bytes[7],
    ];
    row_or(timed, n, decode(bytes))
}

impl Entry for Row {
    ghost use Rattle.row_code.specs.{RowFields.IsRow, RowBytes.bytes_of, Reading.row_at};

    ghost SIZE = { 8 };

    ghost reading = { λ timed start. row_at timed };

    ghost fits = { IsRow };

    ghost spelling = { bytes_of };

    const SIZE: usize = 8;

    /// Reads row `n`. Its fault names the row by `n`, so it doesn't use the place `_start` of the list.
    fn read(timed: bool, _start: usize, n: u16, bytes: &[u8]) -> Result<Row, ImageFault> {
        row_at(timed, n, bytes)
    }

    /// Writes the 8 bytes of the row. Fails if the sink does.
    fn push<W: Sink>(self, sink: &mut W) -> Result<(), WriteFault> {
        sink.push(&encode(self))?;
        Ok(())
    }
}
