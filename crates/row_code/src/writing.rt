//! How an image is written: its head, and then its four lists.
ghost use Rattle.std.specs.Prelude.{◌≡◌, ◌++◌, ◌↔◌, false, IsErr, IsTrue, OnOk};
ghost use Rattle.std.specs.Io.KnownBytes.{Appends};
ghost use Rattle.byte_ports.specs.Port.{FailsForGood};
ghost use Rattle.row_code.specs.Image.{magic, counts_of, count_bytes, list_bytes, image_bytes};

use crate::entry::write_entries;
use crate::image::{Counts, Image, MAGIC, TIMED_MAGIC};
use crate::write_fault::WriteFault;
use byte_ports::Sink;

/// Returns how many phasers, barriers, threads and rows the image has. All fit in a `u16`, because each list has a limit.
fn counts_of(image: &Image) -> Counts
    ensures { result ≡ counts_of image.now }
{
    Counts {
        phasers: image.phasers.as_slice().len() as u16,
        barriers: image.barriers.as_slice().len() as u16,
        threads: image.threads.as_slice().len() as u16,
        rows: image.rows.as_slice().len() as u16,
    }
}

/// Returns the first 12 bytes of an image: its magic, which says whether a row has a timeout (`timed`), and its four counts.
fn head_bytes(timed: bool, counts: Counts) -> [u8; 12]
    ensures { result ≡ magic timed ++ count_bytes counts }
{
    let [m0, m1, m2, m3] = if timed { TIMED_MAGIC } else { MAGIC };
    let [p0, p1] = counts.phasers.to_le_bytes();
    let [b0, b1] = counts.barriers.to_le_bytes();
    let [t0, t1] = counts.threads.to_le_bytes();
    let [r0, r1] = counts.rows.to_le_bytes();
    [m0, m1, m2, m3, p0, p1, b0, b1, t0, t1, r0, r1]
}

/// Writes the entries of the four lists, without the head.
fn write_lists<W: Sink>(sink: &mut W, image: &Image) -> Result<(), WriteFault>
    requires { W.has_failed sink.old ≡ false }
    ensures bytes { OnOk result
        (Appends (W.written sink.old) (W.written sink.new) (list_bytes image.now)) }
    ensures failed { IsErr result ↔ IsTrue (W.has_failed sink.new) }
{
    write_entries(sink, image.phasers.as_slice())?;
    write_entries(sink, image.barriers.as_slice())?;
    write_entries(sink, image.threads.as_slice())?;
    write_entries(sink, image.rows.as_slice())
}

/// Writes the image's bytes: magic, counts, then the lists. If the sink fails, an unknown part of them is written.
pub fn write_image<W: Sink>(image: &Image, sink: &mut W) -> Result<(), WriteFault>
    ensures bytes { OnOk result
        (Appends (W.written sink.old) (W.written sink.new) (image_bytes image.now)) }
    ensures failed { FailsForGood (W.has_failed sink.old) (W.has_failed sink.new) result }
{
    sink.push(&head_bytes(image.rows.has_timed(), counts_of(image)))?;
    write_lists(sink, image)
}
