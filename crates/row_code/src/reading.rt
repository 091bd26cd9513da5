//! From bytes to an image: 4 bytes of magic, four counts of 2 bytes, then the phasers, barriers, threads and rows.
ghost use Rattle.std.specs.Prelude.{◌≡◌, ◌≤◌, ◌*◌, length, drop, Ok, IfOk, take};
ghost use Rattle.row_code.specs.{declared.image.Image.Image, Image.IsImage, Image.image_bytes, Rows.AreRows, Answers.Answers};
ghost use Rattle.row_code.specs.Reading.{is_memory, is_magic, says_timed, counts_in, counts_at, is_too_many, barriers_start, threads_start, rows_start, file_end, lists_at, image_of, rows_at};

use crate::barriers::Barriers;
use crate::entry::read_entries;
use crate::image::{Counts, Image, MAGIC, TIMED_MAGIC};
use crate::image_fault::ImageFault;
use crate::phasers::Phasers;
use crate::read_fields::u16_at;
use crate::rows::Rows;
use crate::threads::Threads;
use std::alloc::Global;

/// Returns the four counts in the bytes 4 to 11, each in two bytes. It doesn't check them.
fn counts_in(bytes: &[u8]) -> Counts
    requires { 12 ≤ length bytes.now }
    ensures { result ≡ counts_in bytes.now }
{
    Counts {
        phasers: u16_at(bytes, 4),
        barriers: u16_at(bytes, 6),
        threads: u16_at(bytes, 8),
        rows: u16_at(bytes, 10),
    }
}

/// Returns whether there are more than 64 phasers, barriers or threads.
fn is_too_many(counts: Counts) -> bool
    ensures { result ≡ is_too_many counts }
{
    64 < counts.phasers || 64 < counts.barriers || 64 < counts.threads
}

/// Returns the place of the first barrier in the file: after the head of 12 bytes, and the phasers, of 12 bytes each.
fn barriers_start(counts: Counts) -> usize
    ensures { result ≡ barriers_start counts }
{
    12 + 12 * usize::from(counts.phasers)
}

/// Returns the place of the first thread in the file: after the barriers, of 8 bytes each.
fn threads_start(counts: Counts) -> usize
    ensures { result ≡ threads_start counts }
{
    barriers_start(counts) + 8 * usize::from(counts.barriers)
}

/// Returns the place of the first row in the file: after the threads, of 4 bytes each.
fn rows_start(counts: Counts) -> usize
    ensures { result ≡ rows_start counts }
{
    threads_start(counts) + 4 * usize::from(counts.threads)
}

/// Returns how many bytes an image with these counts has. A row has 8.
fn file_end(counts: Counts) -> usize
    ensures { result ≡ file_end counts }
{
    rows_start(counts) + 8 * usize::from(counts.rows)
}

/// Returns whether these are the first four bytes of an image, with or without timed rows.
fn is_magic(four: &[u8]) -> bool
    ensures { result ≡ is_magic four.now }
{
    four == MAGIC.as_slice() || four == TIMED_MAGIC.as_slice()
}

/// Returns whether a file begins like an image. Then it is an image, perhaps a faulty one, and not a text.
pub fn is_image_file(file: &[u8]) -> bool
    ensures { result ≡ is_magic (take 4 file.now) }
{
    is_magic(&file[..file.len().min(4)])
}

/// Returns whether the magic says that a row has a timeout.
fn says_timed(bytes: &[u8]) -> bool
    requires { 4 ≤ length bytes.now }
    ensures { result ≡ says_timed bytes.now }
{
    &bytes[..4] == TIMED_MAGIC.as_slice()
}

/// Returns the counts of an image, or the first fault: fewer than 12 bytes, the magic, the counts, too few or too many bytes.
#[tactic(auto, unfolding(crate::specs::Reading::counts_at))]
fn counts_at(bytes: &[u8]) -> Result<Counts, ImageFault>
    ensures counts { result ≡ counts_at bytes.now }
    ensures size { IfOk result (λ c. length bytes.now ≡ file_end c) }
    ensures phasers { IfOk result (λ c. c.phasers ≤ 64) }
    ensures barriers { IfOk result (λ c. c.barriers ≤ 64) }
    ensures threads { IfOk result (λ c. c.threads ≤ 64) }
{
    if bytes.len() < 12 {
        return Err(ImageFault::Short);
    }
    if !is_magic(&bytes[..4]) {
        return Err(ImageFault::Magic);
    }
    let counts = counts_in(bytes);
    if is_too_many(counts) {
        return Err(ImageFault::Count);
    }
    if bytes.len() < file_end(counts) {
        return Err(ImageFault::Short);
    }
    if file_end(counts) < bytes.len() {
        return Err(ImageFault::Extra);
    }
    Ok(counts)
}

/// Returns the bytes from the place `start` on.
fn bytes_from(bytes: &[u8], start: usize) -> &[u8]
    requires { start ≤ length bytes.now }
    ensures { result.now ≡ drop start bytes.now }
{
    &bytes[start..]
}

/// Reads `count` rows. If the magic says `timed`, one of them has to have a timeout; otherwise none may. A row's fault has the
/// row's number, not its place, so the place given for the list is just 0.
#[tactic(auto, unfolding(crate::specs::Reading::rows_at))]
fn read_rows(alloc: Global, timed: bool, count: u16, bytes: &[u8]) -> Result<Rows, ImageFault>
    requires { 8 * count ≤ length bytes.now }
    ensures read { Answers is_memory (λ r. r) result (rows_at timed count bytes.now) }
    ensures fits { IfOk result (λ r. AreRows r) }
{
    let rows = Rows::new(read_entries(alloc, timed, count, 0, bytes)?).unwrap();
    if timed && !rows.has_timed() {
        return Err(ImageFault::Version);
    }
    Ok(rows)
}

/// Reads the four lists after the head of 12 bytes, or returns their first fault. The counts are checked: no list is too long.
#[tactic(auto, unfolding(crate::specs::Reading::lists_at))]
fn lists_at(alloc: Global, counts: Counts, bytes: &[u8]) -> Result<Image, ImageFault>
    requires size { length bytes.now ≡ file_end counts }
    requires phasers { counts.phasers ≤ 64 }
    requires barriers { counts.barriers ≤ 64 }
    requires threads { counts.threads ≤ 64 }
    ensures read { Answers is_memory (λ i. i) result (lists_at counts bytes.now) }
    ensures fits { IfOk result (λ i. IsImage i) }
{
    let timed = says_timed(bytes);
    let phasers = read_entries(alloc, timed, counts.phasers, 12, bytes_from(bytes, 12))?;
    let start = barriers_start(counts);
    let barriers = read_entries(
        alloc,
        timed,
        counts.barriers,
        start,
        bytes_from(bytes, start),
    )?;
    let start = threads_start(counts);
    let threads = read_entries(
        alloc,
        timed,
        counts.threads,
        start,
        bytes_from(bytes, start),
    )?;
    let rows = read_rows(
        alloc,
        timed,
        counts.rows,
        bytes_from(bytes, rows_start(counts)),
    )?;
    Ok(Image {
        phasers: Phasers::new(phasers).unwrap(),
        barriers: Barriers::new(barriers).unwrap(),
        threads: Threads::new(threads).unwrap(),
        rows,
    })
}

/// Returns the image that the bytes encode. It checks in this order: too few bytes for the counts, wrong first four bytes, a
/// count above its limit, fewer bytes than the counts require, more bytes, then the fields and the rows, from left to right,
/// and last that an image that announces timed rows has one.
#[tactic(auto, unfolding(crate::specs::Reading::image_of))]
pub fn read_image(alloc: Global, bytes: &[u8]) -> Result<Image, ImageFault>
    // The image that is read has this encoding.
    ensures found { IfOk result (λ i. IsImage i × (bytes.now ≡ image_bytes i)) }

    // An image with this encoding is read, unless memory runs out.
    ensures only { (i : Image) → IsImage i → bytes.now ≡ image_bytes i →
        Answers is_memory (λ read. read) result (Ok i) }

    // Which fault it is.
    ensures exact { Answers is_memory (λ read. read) result (image_of bytes.now) }
{
    let counts = counts_at(bytes)?;
    lists_at(alloc, counts, bytes)
}
