ghost use Rattle.std.specs.Prelude.{◌≡◌, ◌≤◌, [], Some, true, false, IfOk, OnOk, OnErr, vec_len, vec_capacity};
ghost use Rattle.std.specs.Io.KnownBytes.{Appends};
ghost use Rattle.byte_ports.specs.{Port.FailsForGood, FailAt.one_nearer, MemorySink.Store, MemorySink.push_fails};

use crate::fail_at::{after_a_call, is_next_call};
use crate::failed::Failed;
use crate::sink::Sink;
use std::alloc::{AllocError, Global};
use std::marker::Model;

/// A sink in memory with a fixed capacity, like `ByteArrayOutputStream`. A test can choose a call that fails.
#[derive(Drop)]
pub struct MemorySink {
    written: Vec<u8>,
    room: usize,
    fail_at: Option<u32>,
    failed: bool,
}

impl Model for MemorySink {
    ghost Value = { Store };

    ghost view = { λ s. record {
      written = s.written.items;
      room = s.room;
      fail_at = s.fail_at;
      failed = s.failed;
    } };

    ghost invariant = { λ s. (vec_len s.written ≤ s.room) × (s.room ≤ vec_capacity s.written) };
}

impl MemorySink {
    /// Makes a sink for `room` bytes, all allocated now. `fail_at` is the number of the call that fails, from 0 (`None`: none).
    pub fn new(alloc: Global, room: usize, fail_at: Option<u32>) -> Result<MemorySink, AllocError>
        ensures { IfOk result (λ sink. sink ≡
            record { written = []; room = room; fail_at = fail_at; failed = false }) }
    {
        Ok(MemorySink {
            written: Vec::with_capacity(alloc, room)?,
            room,
            fail_at,
            failed: false,
        })
    }

    /// Returns the bytes written so far.
    pub fn bytes(&self) -> &[u8]
        ensures { result.now ≡ self.now.written }
    {
        self.written.as_slice()
    }
}

impl Sink for MemorySink {
    ghost written = { λ s. Some s.written };

    ghost has_failed = { λ s. s.failed };

    /// Writes the bytes. Fails if they don't fit, at the chosen call, and after a failure. A call that fails writes nothing.
    fn push(&mut self, bytes: &[u8]) -> Result<(), Failed>
        ensures failed { FailsForGood self.old.failed self.new.failed result }
        ensures bytes { OnOk result
            (Appends (Some self.old.written) (Some self.new.written) bytes.now) }
        ensures due { self.new.failed ≡ push_fails self.old bytes.now }
        ensures nearer { OnOk result (self.new.fail_at ≡ one_nearer self.old.fail_at) }
        ensures room { OnOk result (self.new.room ≡ self.old.room) }
        ensures err { OnErr result (self.new ≡ record self.old { failed = true }) }
    {
        let is_too_long = self.room - self.written.len() < bytes.len();
        if self.failed || is_next_call(self.fail_at) || is_too_long {
            self.failed = true;
            return Err(Failed);
        }
        // This can't fail: the capacity for `room` bytes is allocated.
        self.written.extend_from_slice(bytes).unwrap();
        self.fail_at = after_a_call(self.fail_at);
        Ok(())
    }
}
