ghost use Rattle.std.specs.Prelude.{◌≡◌, ◌↔◌, ◌+◌, ◌*◌, ◌^◌, ◌<◌, ◌≤◌, ℕ, Bool, false, List, Result, length, All, IfOk, IsErr, IsTrue, OnOk};
ghost use Rattle.std.specs.{List.flat_map, Io.KnownBytes.Appends};
ghost use Rattle.row_code.specs.{declared.image_fault.ImageFault.ImageFault, Answers.Answers};
ghost use Rattle.row_code.specs.Reading.{is_memory, entries};

use crate::image_fault::ImageFault;
use crate::write_fault::WriteFault;
use byte_ports::Sink;
use std::alloc::Global;

/// An entry of one of an image's lists. Each has a fixed number of bytes, and only one encoding.
pub(crate) trait Entry: Copy {
    // How many bytes it has.
    ghost SIZE: { ℕ };

    // The entry, or what is wrong, by these arguments: whether rows may have a timeout, where the list begins in the file,
    // the number of the entry in the list, and its bytes.
    ghost reading: { Bool → ℕ → ℕ → List ℕ → Result Self ImageFault };

    // Whether its fields are in their ranges. `spelling`: its bytes.
    ghost fits: { Self → Type 0 };

    ghost spelling: { Self → List ℕ };

    const SIZE: usize;

    /// Reads the entry of number `n`, or returns its fault. Its list begins at `start` in the file. `timed` allows a timeout.
    fn read(timed: bool, start: usize, n: u16, bytes: &[u8]) -> Result<Self, ImageFault>
        requires size { length bytes.now ≡ SIZE }
        requires place { start + 12 * n + 12 < 2 ^ 64 }
        ensures read { result ≡ reading timed start n bytes.now }
        ensures fits { IfOk result fits };

    /// Appends the entry's bytes to the sink. Fails if the sink does, and then the sink has failed for good.
    fn push<W: Sink>(self, sink: &mut W) -> Result<(), WriteFault>
        requires { W.has_failed sink.old ≡ false }
        ensures bytes { OnOk result (Appends (W.written sink.old) (W.written sink.new) (spelling self)) }
        ensures failed { IsErr result ↔ IsTrue (W.has_failed sink.new) };
}

/// Reads `count` entries from `bytes`, which begin at the place `start` of the file. `timed` allows rows with a timeout.
/// Returns the first fault if there is one.
pub(crate) fn read_entries<E: Entry>(
    alloc: Global,
    timed: bool,
    count: u16,
    start: usize,
    bytes: &[u8],
) -> Result<Vec<E>, ImageFault>
    requires size { E.SIZE * count ≤ length bytes.now }
    requires place { start + 12 * count < 2 ^ 64 }
    ensures read { Answers is_memory (λ v. v.items) result
        (entries E.SIZE (E.reading timed start) 0 count bytes.now) }
    ensures count { IfOk result (λ v. length v.items ≡ count) }
    ensures fits { IfOk result (λ v. All E.fits v.items) }
{
    let mut list = Vec::with_capacity(alloc, usize::from(count))?;
    let mut rest = bytes;
    for n in 0..count {
        let (first, after) = rest.split_at(E::SIZE);
        list.push(E::read(timed, start, n, first)?)?;
        rest = after;
    }
    Ok(list)
}

/// Writes the bytes of one entry after the other. Fails at the first entry at which the sink fails.
pub(crate) fn write_entries<E: Entry, W: Sink>(sink: &mut W, list: &[E]) -> Result<(), WriteFault>
    requires { W.has_failed sink.old ≡ false }
    ensures bytes { OnOk result
        (Appends (W.written sink.old) (W.written sink.new) (flat_map E.spelling list.now)) }
    ensures failed { IsErr result ↔ IsTrue (W.has_failed sink.new) }
{
    for entry in list {
        entry.push(sink)?;
    }
    Ok(())
}
