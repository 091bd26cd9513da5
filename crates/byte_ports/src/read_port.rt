ghost use Rattle.std.specs.Prelude.{◌≡◌, ◌≤◌, ◌+◌, true, false, IsTrue, IfOk, length};
ghost use Rattle.std.specs.Io.KnownBytes.{ReadConsumes};
ghost use Rattle.byte_ports.specs.Port.{Port, FailsForGood};

use crate::failed::Failed;
use crate::interruption::{MOST_TRIES, is_interruption};
use crate::source::Source;
use std::io::Read;
use std::marker::Model;

/// A source over any reader of std, such as a file or standard input. It tells its contract the bytes that are left if the
/// reader does. A file and standard input don't.
#[derive(Drop)]
pub struct ReadPort<R> {
    reader: R,
    failed: bool,
}

impl<R> Model for ReadPort<R> {
    ghost Value = { Port R };

    ghost view = { λ p. record { inner = p.reader; failed = p.failed } };
}

impl<R: Read> ReadPort<R> {
    /// Makes a port over a reader. No call has failed yet.
    pub fn new(reader: R) -> ReadPort<R>
        ensures { result ≡ record { inner = reader; failed = false } }
    {
        ReadPort {
            reader,
            failed: false,
        }
    }
}

impl<R: Read> Source for ReadPort<R> {
    ghost left = { λ p. R.remaining p.inner };

    ghost has_failed = { λ p. p.failed };

    ghost reads = { λ _. 0 };

    /// Reads once into `buffer`, or again if a signal interrupts it. Returns how many bytes came. Any other error is a failure,
    /// and so are `MOST_TRIES` signals. The clause `reads` is the trait's: this source counts no reads, so they are 0.
    fn pull(&mut self, buffer: &mut [u8]) -> Result<usize, Failed>
        ensures failed { FailsForGood self.old.failed self.new.failed result }
        ensures bound { IfOk result (λ n. n ≤ length buffer.new) }
        ensures bytes { ReadConsumes (R.remaining self.old.inner) (R.remaining self.new.inner)
            result buffer.new }
        ensures reads { 0 ≤ 0 + 1 }
        ensures idle { IsTrue self.old.failed → self.new ≡ self.old }
    {
        if self.failed {
            return Err(Failed);
        }
        let outcome = read_through_interruptions(&mut self.reader, buffer);
        self.failed = outcome.is_err();
        outcome
    }
}

/// Reads once, or again after a signal, and returns how many bytes came. Fails by another error, or after `MOST_TRIES` tries.
fn read_through_interruptions<R: Read>(reader: &mut R, buffer: &mut [u8]) -> Result<usize, Failed>
    ensures bound { IfOk result (λ n. n ≤ length buffer.new) }
    ensures bytes { ReadConsumes (R.remaining reader.old) (R.remaining reader.new)
        result buffer.new }
{
    for _ in 0..MOST_TRIES {
        match reader.read(buffer) {
            Ok(count) => return Ok(count),
            Err(error) => {
                if !is_interruption(&error) {
                    return Err(Failed);
                }
            }
        }
    }
    Err(Failed)
}
