ghost use Rattle.std.specs.Prelude.{◌≡◌, ◌≤◌, ◌+◌, Some, true, false, IfOk, OnOk, OnErr, length, min, drop};
ghost use Rattle.std.specs.Io.KnownBytes.{ReadConsumes};
ghost use Rattle.byte_ports.specs.{Port.FailsForGood, FailAt.one_nearer, MemorySource.Feed, MemorySource.pull_fails};

use crate::fail_at::{after_a_call, is_next_call};
use crate::failed::Failed;
use crate::source::Source;
use std::marker::Model;

/// A source of bytes in memory, like `ByteArrayInputStream`. A test can choose a call that fails.
#[derive(Drop)]
pub struct MemorySource<'a> {
    rest: &'a [u8],
    fail_at: Option<u32>,
    failed: bool,
}

impl<'a> Model for MemorySource<'a> {
    ghost Value = { Feed };

    ghost view = { λ s. record {
      left = s.rest.now;
      fail_at = s.fail_at;
      failed = s.failed;
    } };
}

impl<'a> MemorySource<'a> {
    /// Makes a source of `bytes`. `fail_at` is the number of the call that fails, from 0. `None`: no call fails.
    pub fn new(bytes: &'a [u8], fail_at: Option<u32>) -> MemorySource<'a>
        ensures { result ≡ record { left = bytes.now; fail_at = fail_at; failed = false } }
    {
        MemorySource {
            rest: bytes,
            fail_at,
            failed: false,
        }
    }
}

impl<'a> Source for MemorySource<'a> {
    ghost left = { λ s. Some s.left };

    ghost has_failed = { λ s. s.failed };

    ghost reads = { λ _. 0 };

    /// Copies as many bytes as are left and fit to `buffer`, and returns how many: 0 at the end. Fails at the chosen call and
    /// after a failure, and then copies none. The clause `reads` is the trait's: this source counts no reads, so they are 0.
    fn pull(&mut self, buffer: &mut [u8]) -> Result<usize, Failed>
        ensures failed { FailsForGood self.old.failed self.new.failed result }
        ensures bound { IfOk result (λ n. n ≤ length buffer.new) }
        ensures bytes { ReadConsumes (Some self.old.left) (Some self.new.left) result buffer.new }
        ensures reads { 0 ≤ 0 + 1 }
        ensures due { self.new.failed ≡ pull_fails self.old }
        ensures count { IfOk result (λ n. n ≡ min (length buffer.old) (length self.old.left)) }
        ensures buffer { IfOk result (λ n. drop n buffer.new ≡ drop n buffer.old) }
        ensures nearer { OnOk result (self.new.fail_at ≡ one_nearer self.old.fail_at) }
        ensures err { OnErr result (self.new ≡ record self.old { failed = true }) }
        ensures err_buffer { OnErr result (buffer.new ≡ buffer.old) }
    {
        if self.failed || is_next_call(self.fail_at) {
            self.failed = true;
            return Err(Failed);
        }
        let count = buffer.len().min(self.rest.len());
        buffer[..count].copy_from_slice(&self.rest[..count]);
        self.rest = &self.rest[count..];
        self.fail_at = after_a_call(self.fail_at);
        Ok(count)
    }
}
