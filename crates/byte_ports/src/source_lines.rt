//! The lines of a source, none of which is copied for its reader.
ghost use Rattle.std.specs.Prelude.{◌≡◌, ◌≢◌, ◌≤◌, ◌<◌, ◌+◌, ◌-◌, ◌++◌, ◌⊎◌, [], false, ℕ, List, length, take, drop, get_or, Ok, IsTrue, IfOk, OnErr, OnOk};
ghost use Rattle.std.specs.Io.KnownBytes.{Consumes, IsAtEnd, Keeps, prepend_known};
ghost use Rattle.byte_ports.specs.SourceLines.{EndsInAPiece, Gave, HasCome, IsOneLine, taken};

use crate::failed::Failed;
use crate::source::Source;
use std::alloc::{AllocError, Global};
use std::marker::Model;

/// How many bytes are asked for at a time.
const PIECE: usize = 16_384;

/// How many bytes a line has at most, without its LF.
const MOST_BYTES: usize = 65_536;

/// Room for a line without its LF, and for one more piece.
const ROOM: usize = 81_920;

/// How often a source is read at most.
const MOST_READS: u64 = 1_000_000_000;

/// How a line ends.
#[derive(Clone, Copy, PartialEq, Eq)]
pub enum LineEnded {
    /// By its LF.
    Whole,
    /// By the end of the source.
    AtEnd,
    /// It hasn't ended: it has more than 65,536 bytes, of which the first 65,537 were read.
    TooLong,
}

/// The lines of a source, each returned where it is in a block. A piece that was read may end inside a line. What follows a
/// line in it is kept for the next one.
#[derive(Drop)]
pub struct SourceLines {
    block: Vec<u8>,
    /// Where the last line begins and ends.
    start: usize,
    stop: usize,
    /// Where the bytes that are read and not yet returned begin and end.
    at: usize,
    end: usize,
    reads: u64,
}

impl Model for SourceLines {
    ghost use Rattle.std.specs.Prelude.{◌≡◌, ◌≤◌, length, drop, take};
    ghost use Rattle.byte_ports.specs.SourceLines.{Lines};

    ghost Value = { Lines };

    ghost view = { λ lines. record {
      line = drop lines.start (take lines.stop lines.block.items);
      held = drop lines.at (take lines.end lines.block.items);
      reads = lines.reads;
    } };

    ghost invariant = { λ lines. (length lines.block.items ≡ 81920) × (lines.start ≤ lines.stop)
        × (lines.stop ≤ lines.at) × (lines.at ≤ lines.end) × (lines.end ≤ 81920) × (lines.reads ≤ 1000000000) };
}

/// Returns the place of the first LF, or the length if there is none. The first `seen` bytes are known to have none. It looks
/// at four bytes in a round, because that is faster.
fn place_of_lf(bytes: &[u8], seen: usize) -> usize
    requires seen { seen ≤ length bytes.now }
    requires one { IsOneLine (take seen bytes.now) }
    ensures order { seen ≤ result }
    ensures within { result ≤ length bytes.now }
    ensures one { IsOneLine (take result bytes.now) }
    ensures lf { result < length bytes.now → get_or bytes.now result 0 ≡ 10 }
{
    let mut at = seen;
    while bytes.len() - at >= 4 {
        if bytes[at] == b'\n' {
            return at;
        }
        if bytes[at + 1] == b'\n' {
            return at + 1;
        }
        if bytes[at + 2] == b'\n' {
            return at + 2;
        }
        if bytes[at + 3] == b'\n' {
            return at + 3;
        }
        at += 4;
    }
    while at < bytes.len() && bytes[at] != b'\n' {
        at += 1;
    }
    at
}

/// Moves the bytes from `at` up to `end` to the front of the block.
fn move_front(block: &mut [u8], at: usize, end: usize)
    requires order { at ≤ end }
    requires within { end ≤ length block.old }
    ensures length { length block.new ≡ length block.old }
    ensures front { take (end - at) block.new ≡ drop at (take end block.old) }
{
    block.copy_within(at..end, 0);
}

/// Reads a piece of at most 16,384 bytes to the block, after its first `held` bytes. Returns its length, 0 at the end.
fn pull_behind<S: Source>(source: &mut S, block: &mut [u8], held: usize) -> Result<usize, Failed>
    requires { held + 16384 ≤ length block.old }
    ensures length { length block.new ≡ length block.old }
    ensures front { take held block.new ≡ take held block.old }
    ensures few { IfOk result (λ count. count ≤ 16384) }
    ensures bytes { IfOk result (λ count. Consumes (S.left source.old) (S.left source.new)
        (take count (drop held block.new))) }
    ensures end { result ≡ Ok 0 → IsAtEnd (S.left source.new) }
    ensures failed { OnErr result (IsTrue (S.has_failed source.new) × Keeps (S.left source.old) (S.left source.new)) }
    ensures sound { OnOk result (S.has_failed source.new ≡ false) }
    ensures reads { S.reads source.new ≤ S.reads source.old + 1 }
{
    source.pull(&mut block[held..held + PIECE])
}

impl SourceLines {
    /// Makes a reader that has read no line yet. Only this call allocates.
    pub fn new(alloc: Global) -> Result<SourceLines, AllocError>
        ensures { IfOk result (λ lines. lines ≡ record { line = []; held = []; reads = 0 }) }
    {
        Ok(SourceLines {
            block: Vec::from_elem(alloc, 0u8, ROOM)?,
            start: 0,
            stop: 0,
            at: 0,
            end: 0,
            reads: 0,
        })
    }

    /// Returns the line that was read last, without its LF.
    #[inline(always)]
    pub fn line(&self) -> &[u8]
        ensures { result.now ≡ self.now.line }
    {
        &self.block.as_slice()[..self.stop][self.start..]
    }

    /// Returns the bytes that are read but not yet returned in a line.
    #[inline(always)]
    pub fn held(&self) -> &[u8]
        ensures value { result.now ≡ self.now.held }
        ensures few { length result.now ≤ 81920 }
        ensures reads { self.now.reads ≤ 1000000000 }
    {
        &self.block.as_slice()[..self.end][self.at..]
    }

    /// Makes the next `size` bytes the line that was read last, and goes on after `count` bytes: the line and its LF, if any.
    #[inline(always)]
    fn take_line(&mut self, size: usize, count: usize)
        requires size { size ≤ count }
        requires count { count ≤ length self.old.held }
        ensures line { self.new.line ≡ take size self.old.held }
        ensures held { self.new.held ≡ drop count self.old.held }
        ensures reads { self.new.reads ≡ self.old.reads }
    {
        self.start = self.at;
        self.stop = self.at + size;
        self.at += count;
    }

    /// Skips the next `count` bytes of `held`: lines that the caller has already looked at there.
    #[inline(always)]
    pub fn skip(&mut self, count: usize)
        requires { count ≤ length self.old.held }
        ensures held { self.new.held ≡ drop count self.old.held }
        ensures reads { self.new.reads ≡ self.old.reads }
    {
        self.take_line(count, count);
    }

    /// Moves the bytes not yet returned to the front, and reads a piece after them. Returns its length, 0 at the end. Fails if
    /// the source does, or after `MOST_READS` reads.
    #[inline(never)]
    fn fill<S: Source>(&mut self, source: &mut S) -> Result<usize, Failed>
        requires { length self.old.held ≤ 65536 }
        ensures bytes { Keeps (prepend_known self.old.held (S.left source.old))
            (prepend_known self.new.held (S.left source.new)) }
        ensures got { IfOk result (λ count. (got : List ℕ)
            × ((self.new.held ≡ self.old.held ++ got) × (length got ≡ count) × (count ≤ 16384))) }
        ensures end { result ≡ Ok 0 → IsAtEnd (S.left source.new) }
        ensures failed { OnErr result ((IsTrue (S.has_failed source.new)
            ⊎ ((self.new.reads ≡ 1000000000) × (self.new.reads ≡ self.old.reads))) × (self.new.held ≡ self.old.held)) }
        ensures sound { OnOk result (S.has_failed source.new ≡ false) }
        ensures counted { self.new.reads ≤ self.old.reads + 1 }
        ensures reads { S.reads source.new + self.old.reads ≤ S.reads source.old + self.new.reads }
        ensures within { self.new.reads ≤ 1000000000 }
    {
        let held = self.end - self.at;
        move_front(self.block.as_mut_slice(), self.at, self.end);
        self.start = 0;
        self.stop = 0;
        self.at = 0;
        self.end = held;
        if self.reads == MOST_READS {
            return Err(Failed);
        }
        self.reads += 1;
        let count = pull_behind(source, self.block.as_mut_slice(), held)?;
        self.end = held + count;
        Ok(count)
    }

    /// Reads a line, and returns how it ended: by its LF, by the end of the source, or not at all within the bytes that it may
    /// have. It reads the source only if no whole line is there already. Fails if the source does, or after `MOST_READS` reads.
    pub fn read_line<S: Source>(&mut self, source: &mut S) -> Result<LineEnded, Failed>
        ensures bytes { Consumes (prepend_known self.old.held (S.left source.old))
            (prepend_known self.new.held (S.left source.new)) (taken result self.new.line) }
        ensures came { IfOk result (λ how. HasCome how self.new.line (prepend_known self.new.held (S.left source.new))) }
        ensures one { OnOk result (IsOneLine self.new.line) }
        ensures far { OnOk result ((S.left source.new ≡ S.left source.old)
            ⊎ EndsInAPiece (taken result self.new.line ++ self.new.held)) }
        ensures behind { OnOk result ((got : List ℕ) × (taken result self.new.line ++ self.new.held ≡ self.old.held ++ got)) }
        ensures all { result ≡ Ok LineEnded.AtEnd → self.new.held ≡ [] }
        ensures given { IfOk result (λ how. how ≢ LineEnded.AtEnd
            → Gave self.old self.new (length (taken result self.new.line))) }
        ensures failed { OnErr result (IsTrue (S.has_failed source.new)
            ⊎ ((self.new.reads ≡ 1000000000) × Gave self.old self.new 0)) }
        ensures sound { OnOk result (S.has_failed source.old ≡ false → S.has_failed source.new ≡ false) }
        ensures reads { S.reads source.new + self.old.reads ≤ S.reads source.old + self.new.reads }
        ensures within { self.new.reads ≤ 1000000000 }
    {
        let mut seen = 0;
        loop {
            let held = self.held();
            let place = place_of_lf(held, seen);
            if place > MOST_BYTES {
                self.take_line(MOST_BYTES + 1, MOST_BYTES + 1);
                return Ok(LineEnded::TooLong);
            }
            if place < held.len() {
                self.take_line(place, place + 1);
                return Ok(LineEnded::Whole);
            }
            if self.fill(source)? == 0 {
                self.take_line(place, place);
                return Ok(LineEnded::AtEnd);
            }
            seen = place;
        }
    }
}
