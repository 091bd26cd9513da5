ghost use Rattle.std.specs.Prelude.{◌≡◌, ◌≤◌, ◌+◌, Some, false, IfOk, List, ℕ, length};
ghost use Rattle.std.specs.Io.KnownBytes.{ReadConsumes};
ghost use Rattle.byte_ports.specs.Port.{FailsForGood};

use byte_ports::{Failed, Source};
use std::marker::Model;

/// A source of bytes in memory, which never fails.
#[derive(Drop)]
pub struct SliceSource<'a> {
    rest: &'a [u8],
}

impl<'a> Model for SliceSource<'a> {
    ghost Value = { List ℕ };

    ghost view = { λ s. s.rest.now };
}

impl<'a> SliceSource<'a> {
    /// Makes a source that gives these bytes, and then ends.
    pub fn new(bytes: &'a [u8]) -> SliceSource<'a>
        ensures { result ≡ bytes.now }
    {
        SliceSource { rest: bytes }
    }
}

impl<'a> Source for SliceSource<'a> {
    ghost left = { λ s. Some s };

    ghost has_failed = { λ _. false };

    ghost reads = { λ _. 0 };

    /// Copies the next bytes to the buffer, as many as fit, and returns how many.
    fn pull(&mut self, buffer: &mut [u8]) -> Result<usize, Failed>
        ensures failed { FailsForGood false false result }
        ensures bound { IfOk result (λ n. n ≤ length buffer.new) }
        ensures bytes { ReadConsumes (Some self.old) (Some self.new) result buffer.new }
        ensures reads { 0 ≤ 0 + 1 }
    {
        let count = buffer.len().min(self.rest.len());
        buffer[..count].copy_from_slice(&self.rest[..count]);
        self.rest = &self.rest[count..];
        Ok(count)
    }
}
