//! A sink that writes in blocks.
ghost use Rattle.std.specs.Prelude.{◌≡◌, ◌⊎◌, ◌+◌, ◌≤◌, [], ◌++◌, length, false, IsTrue, IfOk, OnErr, OnOk};
ghost use Rattle.std.specs.Io.KnownBytes.{Appends, Keeps, append_known};
ghost use Rattle.byte_ports.specs.Port.{FailsForGood};

use crate::failed::Failed;
use crate::short_copy::copy_short;
use crate::sink::Sink;
use crate::write_port::WritePort;
use std::alloc::{AllocError, Global};
use std::io::Write;
use std::marker::Model;

/// How many bytes a block has: few, since `new` sets them all to 0 even for a run of a few choices.
const BLOCK: usize = 16_384;

/// A sink that collects bytes in a block, and passes whole blocks on to another sink, so that most calls only copy their bytes.
/// Only `finish` passes on what is left in the block. If you drop the port instead, those bytes are lost.
#[derive(Drop)]
pub struct BlockPort<K> {
    port: K,
    block: Vec<u8>,
    held: usize,
    failed: bool,
}

impl<K> Model for BlockPort<K> {
    ghost use Rattle.std.specs.Prelude.{◌≡◌, ◌≤◌, length, take};
    ghost use Rattle.byte_ports.specs.BlockPort.{Blocks};

    ghost Value = { Blocks K };

    ghost view = { λ p. record {
      inner = p.port;
      held = take p.held p.block.items;
      failed = p.failed;
    } };

    ghost invariant = { λ p. (length p.block.items ≡ 16384) × (p.held ≤ 16384) };
}

impl<K: Sink + Drop> BlockPort<K> {
    /// Makes a sink that writes to another one in blocks. Only this call allocates.
    pub fn new(alloc: Global, port: K) -> Result<BlockPort<K>, AllocError>
        ensures { IfOk result (λ p. p ≡ record { inner = port; held = []; failed = false }) }
    {
        Ok(BlockPort {
            port,
            block: Vec::from_elem(alloc, 0u8, BLOCK)?,
            held: 0,
            failed: false,
        })
    }

    /// Writes the bytes in the block to the sink, and empties the block. If the sink fails, this port has failed for good.
    fn hand_on(&mut self) -> Result<(), Failed>
        requires { self.old.failed ≡ false }
        ensures bytes { OnOk result
            (Keeps (append_known (K.written self.old.inner) self.old.held) (K.written self.new.inner)) }
        ensures held { OnOk result (self.new.held ≡ []) }
        ensures failed { FailsForGood false self.new.failed result }
        ensures cause { OnErr result (IsTrue (K.has_failed self.new.inner)) }
    {
        if self.port.push(&self.block.as_slice()[..self.held]).is_err() {
            self.failed = true;
            return Err(Failed);
        }
        self.held = 0;
        Ok(())
    }

    /// Does the rare cases of `push`, which is inlined: the port has failed, or `bytes` don't fit. Then the block is passed on,
    /// and `bytes` begin the next block. If they are longer than a block, they are passed on, too.
    #[inline(never)]
    fn push_far(&mut self, bytes: &[u8]) -> Result<(), Failed>
        ensures failed { FailsForGood self.old.failed self.new.failed result }
        ensures bytes { OnOk result (Appends (append_known (K.written self.old.inner) self.old.held)
            (append_known (K.written self.new.inner) self.new.held) bytes.now) }
        ensures idle { IsTrue self.old.failed → self.new ≡ self.old }
        ensures cause { OnErr result (IsTrue self.old.failed ⊎ IsTrue (K.has_failed self.new.inner)) }
    {
        if self.failed {
            return Err(Failed);
        }
        self.hand_on()?;
        if bytes.len() <= BLOCK {
            self.hold(bytes);
            return Ok(());
        }
        if self.port.push(bytes).is_err() {
            self.failed = true;
            return Err(Failed);
        }
        Ok(())
    }

    /// Appends `bytes` to the block, which has room for them.
    #[inline(always)]
    fn hold(&mut self, bytes: &[u8])
        requires { length self.old.held + length bytes.now ≤ 16384 }
        ensures { self.new ≡ record self.old { held = self.old.held ++ bytes.now } }
    {
        let end = self.held + bytes.len();
        copy_short(bytes, &mut self.block.as_mut_slice()[self.held..end]);
        self.held = end;
    }
}

impl<W: Write + Drop> BlockPort<WritePort<W>> {
    /// Passes on what is left in the block, and flushes the writer. A program calls it once, after its last `push`. Fails if
    /// this or an earlier call failed.
    pub fn finish(&mut self) -> Result<(), Failed>
        ensures failed { FailsForGood self.old.failed self.new.failed result }
        ensures bytes { OnOk result
            (Keeps (append_known (W.contents self.old.inner.inner) self.old.held) (W.contents self.new.inner.inner)) }
        ensures cause { OnErr result (IsTrue self.old.failed ⊎ IsTrue self.new.inner.failed) }
    {
        if self.failed {
            return Err(Failed);
        }
        self.hand_on()?;
        if self.port.finish().is_err() {
            self.failed = true;
            return Err(Failed);
        }
        Ok(())
    }
}

impl<K: Sink + Drop> Sink for BlockPort<K> {
    ghost written = { λ p. append_known (K.written p.inner) p.held };

    ghost has_failed = { λ p. p.failed };

    /// Copies `bytes` into the block. If they don't fit, it passes the block on first. Once failed, it uses the sink no more.
    #[inline(always)]
    fn push(&mut self, bytes: &[u8]) -> Result<(), Failed>
        ensures failed { FailsForGood self.old.failed self.new.failed result }
        ensures bytes { OnOk result (Appends (append_known (K.written self.old.inner) self.old.held)
            (append_known (K.written self.new.inner) self.new.held) bytes.now) }
        ensures idle { IsTrue self.old.failed → self.new ≡ self.old }
        ensures cause { OnErr result (IsTrue self.old.failed ⊎ IsTrue (K.has_failed self.new.inner)) }
    {
        if self.failed || BLOCK - self.held < bytes.len() {
            return self.push_far(bytes);
        }
        self.hold(bytes);
        Ok(())
    }
}
