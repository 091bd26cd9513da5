//! A source whose end is kept, so that the place of a fault is known although nothing is read twice.

ghost use Rattle.std.specs.Prelude.{◌≡◌, ◌==◌, ◌≤◌, ◌+◌, IfOk, count_by, length};
ghost use Rattle.std.specs.Io.KnownBytes.{ReadConsumes};
ghost use Rattle.byte_ports.specs.Port.{FailsForGood};

use byte_ports::{Failed, Source};
use std::alloc::Global;

/// How many bytes are kept before older lines are dropped.
const MOST_KEPT: usize = 65_536;

/// How much of the beginning of a line is kept at most when more bytes come.
const LONGEST: usize = 256;

/// A line of which at least the end is known.
#[derive(Clone, Copy)]
pub struct Line<'a> {
    /// Its number, from 1.
    pub number: u64,
    /// How many of its bytes aren't known.
    pub before: u64,
    /// The others, without its LF.
    pub bytes: &'a [u8],
}

/// A source, and the end of what it gave.
#[derive(Drop)]
pub struct Watched<S> {
    source: S,
    /// The last bytes.
    kept: Vec<u8>,
    /// How many bytes were given before these.
    before: u64,
    /// How many lines end before these.
    lines: u64,
    /// How many bytes of the line that goes on with these were given before.
    of_line: u64,
}

/// How many bytes `lines_in_piece` counts at a time: fewer than 256, so that its counter can be a `u8`. With so small a counter
/// the compiler compares many bytes in one instruction.
const PIECE: usize = 128;

/// Returns how many lines end in at most 255 bytes.
fn lines_in_piece(bytes: &[u8]) -> u8
    requires { length bytes.now ≤ 255 }
    ensures { result ≡ count_by (λ byte. byte == 10) bytes.now }
{
    let mut lines = 0u8;
    for byte in bytes {
        lines = lines.wrapping_add(u8::from(*byte == b'\n'));
    }
    lines
}

/// Returns how many lines end in these bytes: how many LFs they have.
pub fn lines_in(bytes: &[u8]) -> u64
    ensures { result ≡ count_by (λ byte. byte == 10) bytes.now }
{
    let mut lines = 0u64;
    let mut left = bytes;
    while left.len() > PIECE {
        let (piece, others) = left.split_at(PIECE);
        lines += u64::from(lines_in_piece(piece));
        left = others;
    }
    lines + u64::from(lines_in_piece(left))
}

/// Returns where the last line of these bytes begins: behind the last LF, or at 0.
fn last_line(bytes: &[u8]) -> usize {
    let end = bytes.iter().rposition(|byte| *byte == b'\n');
    end.map_or(0, |end| end.saturating_add(1))
}

impl<S> Watched<S> {
    /// Watches a source that has given nothing yet. `lines` lines of its file precede what it gives.
    pub fn new(alloc: Global, source: S, lines: u64) -> Watched<S>
        ensures { result.source ≡ source }
    {
        Watched {
            source,
            kept: Vec::new(alloc),
            before: 0,
            lines,
            of_line: 0,
        }
    }

    /// Drops the kept bytes but for the last line, of which at most 256 bytes stay.
    fn drop_lines(&mut self)
        ensures { self.new.source ≡ self.old.source }
    {
        let kept = self.kept.as_slice();
        let lines = lines_in(kept);
        // If no line ends there, `last_line` would look at all bytes in vain.
        let line = if lines == 0 { 0 } else { last_line(kept) };
        let begin = line.max(kept.len().saturating_sub(LONGEST)).min(kept.len());
        self.lines = self.lines.saturating_add(lines);
        let of_line = begin.saturating_sub(line) as u64;
        self.of_line = if line == 0 {
            self.of_line.saturating_add(of_line)
        } else {
            of_line
        };
        self.before = self.before.saturating_add(begin as u64);
        let left = self.kept.len().saturating_sub(begin);
        self.kept.copy_within(begin.., 0);
        self.kept.truncate(left);
    }

    /// Keeps these bytes, if there is memory. If that would be too many, the older lines are dropped first.
    fn keep(&mut self, bytes: &[u8])
        ensures { self.new.source ≡ self.old.source }
    {
        if self.kept.len().saturating_add(bytes.len()) > MOST_KEPT {
            self.drop_lines();
        }
        if self.kept.extend_from_slice(bytes).is_err() {
            // Some bytes are lost: with this number no later question about a place has an answer.
            self.before = u64::MAX;
        }
    }

    /// Returns all bytes that the source gave. None if some were dropped, or couldn't be kept.
    pub fn whole(&self) -> Option<&[u8]> {
        (self.before == 0).then_some(self.kept.as_slice())
    }

    /// Returns the kept part of the line with the byte at this offset, and the byte's index in it. None if the byte isn't kept.
    pub fn line_of(&self, offset: u64) -> Option<(Line<'_>, usize)> {
        let at = usize::try_from(offset.checked_sub(self.before)?).ok()?;
        let front = self.kept.as_slice().get(..at)?;
        let begin = last_line(front);
        let bytes = self
            .kept
            .as_slice()
            .get(begin..)?
            .split(|byte| *byte == b'\n')
            .next()?;
        let line = Line {
            number: self.lines.saturating_add(lines_in(front)).saturating_add(1),
            before: if begin == 0 { self.of_line } else { 0 },
            bytes,
        };
        Some((line, at.checked_sub(begin)?))
    }

    /// Returns the line of this number, from 1. None if it isn't kept any more, or hasn't come.
    pub fn line(&self, number: u64) -> Option<Line<'_>> {
        let at = usize::try_from(number.checked_sub(self.lines)?.checked_sub(1)?).ok()?;
        Some(Line {
            number,
            before: if at == 0 { self.of_line } else { 0 },
            bytes: self.kept.as_slice().split(|byte| *byte == b'\n').nth(at)?,
        })
    }
}

impl<S: Source> Source for Watched<S> {
    ghost left = { λ s. S.left s.source };

    ghost has_failed = { λ s. S.has_failed s.source };

    ghost reads = { λ s. S.reads s.source };

    /// Pulls bytes from the source, and keeps a copy of them, so that a fault's place can be shown.
    fn pull(&mut self, buffer: &mut [u8]) -> Result<usize, Failed>
        ensures failed { FailsForGood (S.has_failed self.old.source) (S.has_failed self.new.source) result }
        ensures bound { IfOk result (λ n. n ≤ length buffer.new) }
        ensures bytes { ReadConsumes (S.left self.old.source) (S.left self.new.source) result buffer.new }
        ensures reads { S.reads self.new.source ≤ S.reads self.old.source + 1 }
    {
        let count = self.source.pull(buffer)?;
        self.keep(&buffer[..count]);
        Ok(count)
    }
}
