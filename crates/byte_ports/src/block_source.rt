//! A source that reads in blocks.
ghost use Rattle.std.specs.Prelude.{◌≡◌, ◌≢◌, ◌⊎◌, ◌≤◌, ◌+◌, [], ◌++◌, false, min, length, take, IsTrue, IfOk, OnOk, OnErr};
ghost use Rattle.std.specs.Io.KnownBytes.{IsAtEnd, Keeps, ReadConsumes, prepend_known};
ghost use Rattle.byte_ports.specs.Port.{FailsForGood};

use crate::failed::Failed;
use crate::source::Source;
use std::alloc::{AllocError, Global};
use std::marker::Model;

/// How many bytes a block has.
const BLOCK: usize = 4096;

/// A source that reads from another one, at most a block at a time, and only if it has no bytes left. So it never waits for a
/// byte while it has one to return, and a program can answer each line of a dialogue before the next one exists.
#[derive(Drop)]
pub struct BlockSource<S> {
    source: S,
    block: Vec<u8>,
    next: usize,
    end: usize,
    failed: bool,
}

impl<S> Model for BlockSource<S> {
    ghost use Rattle.std.specs.Prelude.{◌≡◌, ◌≤◌, length, take, drop};
    ghost use Rattle.byte_ports.specs.BlockPort.{Blocks};

    ghost Value = { Blocks S };

    ghost view = { λ s. record {
      inner = s.source;
      held = drop s.next (take s.end s.block.items);
      failed = s.failed;
    } };

    ghost invariant = { λ s. (length s.block.items ≡ 4096) × (s.next ≤ s.end) × (s.end ≤ 4096) };
}

impl<S: Source + Drop> BlockSource<S> {
    /// Makes a source that reads another one in blocks. Only this call allocates.
    pub fn new(alloc: Global, source: S) -> Result<BlockSource<S>, AllocError>
        ensures { IfOk result (λ s. s ≡ record { inner = source; held = []; failed = false }) }
    {
        Ok(BlockSource {
            source,
            block: Vec::from_elem(alloc, 0u8, BLOCK)?,
            next: 0,
            end: 0,
            failed: false,
        })
    }

    /// Reads the source once into the empty block. At the end of the source the block stays empty. Fails if the source does.
    #[inline(never)]
    fn refill(&mut self) -> Result<(), Failed>
        requires held { self.old.held ≡ [] }
        requires failed { self.old.failed ≡ false }
        ensures failed { FailsForGood false self.new.failed result }
        ensures bytes { Keeps (S.left self.old.inner)
            (prepend_known self.new.held (S.left self.new.inner)) }
        ensures end { OnOk result (self.new.held ≡ [] → IsAtEnd (S.left self.new.inner)) }
        ensures err { OnErr result (self.new.held ≡ []) }
        ensures cause { OnErr result (IsTrue (S.has_failed self.new.inner)) }
        ensures reads { S.reads self.new.inner ≤ S.reads self.old.inner + 1 }
    {
        self.next = 0;
        self.end = 0;
        match self.source.pull(self.block.as_mut_slice()) {
            Ok(count) => {
                self.end = count;
                Ok(())
            }
            Err(_) => {
                self.failed = true;
                Err(Failed)
            }
        }
    }

    /// Copies the next bytes of the block to `buffer`, as many as are left and fit. Returns how many: 0 if the block is empty.
    #[inline(always)]
    fn give(&mut self, buffer: &mut [u8]) -> usize
        ensures count { result ≡ min (length buffer.old) (length self.old.held) }
        ensures length { length buffer.new ≡ length buffer.old }
        ensures given { self.old.held ≡ take result buffer.new ++ self.new.held }
        ensures inner { self.new.inner ≡ self.old.inner }
        ensures failed { self.new.failed ≡ self.old.failed }
    {
        let held = self.held();
        let count = buffer.len().min(held.len());
        // A dialogue is read a byte at a time. Inlined, this is a load and a store.
        if count == 1 {
            buffer[0] = held[0];
            self.next += 1;
            return 1;
        }
        buffer[..count].copy_from_slice(&held[..count]);
        self.next += count;
        count
    }

    /// Returns the bytes of the block that no call has returned yet.
    #[inline(always)]
    fn held(&self) -> &[u8]
        ensures { result.now ≡ self.now.held }
    {
        &self.block.as_slice()[..self.end][self.next..]
    }
}

impl<S: Source + Drop> Source for BlockSource<S> {
    ghost left = { λ s. prepend_known s.held (S.left s.inner) };

    ghost has_failed = { λ s. s.failed };

    ghost reads = { λ s. S.reads s.inner };

    /// Copies the next bytes of the block to `buffer`, and returns how many. If none is left, it first reads the source, once.
    /// A result of 0 for a buffer that isn't empty is the end of the source.
    #[inline(always)]
    fn pull(&mut self, buffer: &mut [u8]) -> Result<usize, Failed>
        ensures failed { FailsForGood self.old.failed self.new.failed result }
        ensures bound { IfOk result (λ n. n ≤ length buffer.new) }
        ensures bytes { ReadConsumes (prepend_known self.old.held (S.left self.old.inner))
            (prepend_known self.new.held (S.left self.new.inner)) result buffer.new }
        ensures reads { S.reads self.new.inner ≤ S.reads self.old.inner + 1 }
        ensures waits { self.old.held ≢ [] → (self.new.inner ≡ self.old.inner) }
        ensures cause { OnErr result (IsTrue self.old.failed ⊎ IsTrue (S.has_failed self.new.inner)) }
    {
        if self.failed {
            return Err(Failed);
        }
        if self.next == self.end {
            self.refill()?;
        }
        Ok(self.give(buffer))
    }
}
