ghost use Rattle.std.specs.Prelude.{◌≡◌, true, false, IsTrue, OnOk};
ghost use Rattle.std.specs.Io.KnownBytes.{Appends, Keeps};
ghost use Rattle.byte_ports.specs.Port.{Port, FailsForGood};

use crate::failed::Failed;
use crate::interruption::{MOST_TRIES, is_interruption};
use crate::sink::Sink;
use std::io::Write;
use std::marker::Model;

/// A sink over any writer of std, such as a file or standard output. It tells its contract the bytes written if the writer
/// does. A file and standard output don't. It keeps no bytes, and flushes only in `finish`. So the program chooses the
/// buffering with the writer: for example a `BufWriter` for long output, or a `LineWriter` for a dialogue.
#[derive(Drop)]
pub struct WritePort<W> {
    writer: W,
    failed: bool,
}

impl<W> Model for WritePort<W> {
    ghost Value = { Port W };

    ghost view = { λ p. record { inner = p.writer; failed = p.failed } };
}

impl<W: Write> WritePort<W> {
    /// Makes a port over a writer. No call has failed yet.
    pub fn new(writer: W) -> WritePort<W>
        ensures { result ≡ record { inner = writer; failed = false } }
    {
        WritePort {
            writer,
            failed: false,
        }
    }

    /// Flushes the writer, like `OutputStream.flush`, or again if a signal interrupts it, up to `MOST_TRIES` times in all. A
    /// program calls it once, after its last `push`. If it fails, bytes of an earlier `push` may not be written. That it
    /// flushes is only tested, not proved: the standard library's contracts can't tell a flush from nothing.
    pub fn finish(&mut self) -> Result<(), Failed>
        ensures failed { FailsForGood self.old.failed self.new.failed result }
        ensures bytes { Keeps (W.contents self.old.inner) (W.contents self.new.inner) }
        ensures idle { IsTrue self.old.failed → self.new ≡ self.old }
    {
        if self.failed {
            return Err(Failed);
        }
        let outcome = flush_through_interruptions(&mut self.writer);
        self.failed = outcome.is_err();
        outcome
    }
}

impl<W: Write> Sink for WritePort<W> {
    ghost written = { λ p. W.contents p.inner };

    ghost has_failed = { λ p. p.failed };

    /// Writes all bytes to the writer, and doesn't flush. Once it has failed, it doesn't use the writer any more.
    fn push(&mut self, bytes: &[u8]) -> Result<(), Failed>
        ensures failed { FailsForGood self.old.failed self.new.failed result }
        ensures bytes { OnOk result
            (Appends (W.contents self.old.inner) (W.contents self.new.inner) bytes.now) }
        ensures idle { IsTrue self.old.failed → self.new ≡ self.old }
    {
        if self.failed || self.writer.write_all(bytes).is_err() {
            self.failed = true;
            return Err(Failed);
        }
        Ok(())
    }
}

/// Flushes once, or again if a signal interrupts it. Fails by another error, or after `MOST_TRIES` tries.
fn flush_through_interruptions<W: Write>(writer: &mut W) -> Result<(), Failed>
    ensures { Keeps (W.contents writer.old) (W.contents writer.new) }
{
    for _ in 0..MOST_TRIES {
        match writer.flush() {
            Ok(()) => return Ok(()),
            Err(error) => {
                if !is_interruption(&error) {
                    return Err(Failed);
                }
            }
        }
    }
    Err(Failed)
}
