//! Readers and writers that keep the system's reason if a call fails.

ghost use Rattle.std.specs.Io.{ReadsAtMost, WritesAtMost, KnownBytes.ReadConsumes, KnownBytes.WriteAppends};

use std::io;
use std::io::{Read, Write};
use std::sync::atomic::{AtomicI32, Ordering};

/// The system's reason of the last call that failed, 0 if none has.
#[derive(Drop)]
pub struct Reason {
    code: AtomicI32,
}

impl Reason {
    /// Returns a place for a reason, in which none is kept: no call has failed yet.
    pub fn none() -> Reason {
        Reason {
            code: AtomicI32::new(0),
        }
    }

    /// Keeps the system's number of this error, to report it later. If the error has no number, none is kept.
    pub fn keep(&self, error: &io::Error) {
        self.code
            .store(error.raw_os_error().unwrap_or(0), Ordering::SeqCst);
    }

    /// Returns the error that was kept last. None if no call has failed, or the error had no number.
    pub fn error(&self) -> Option<io::Error> {
        match self.code.load(Ordering::SeqCst) {
            0 => None,
            code => Some(io::Error::from_raw_os_error(code)),
        }
    }
}

/// A reader or a writer whose errors are kept.
#[derive(Drop)]
pub struct Reasoned<'a, T> {
    inner: T,
    reason: &'a Reason,
}

impl<'a, T> Reasoned<'a, T> {
    /// Keeps the errors of this reader or writer in `reason`.
    pub fn new(inner: T, reason: &'a Reason) -> Reasoned<'a, T> {
        Reasoned { inner, reason }
    }
}

impl<'a, R: Read> Read for Reasoned<'a, R> {
    ghost remaining = { λ r. R.remaining r.inner };

    /// Reads as the inner reader does. If that fails, its reason is kept.
    fn read(&mut self, buffer: &mut [u8]) -> io::Result<usize>
        ensures bound { ReadsAtMost result buffer.new }
        ensures bytes { ReadConsumes (R.remaining self.old.inner) (R.remaining self.new.inner) result buffer.new }
    {
        let answer = self.inner.read(buffer);
        if let Err(error) = &answer {
            self.reason.keep(error);
        }
        answer
    }
}

impl<'a, W: Write> Write for Reasoned<'a, W> {
    ghost contents = { λ w. W.contents w.inner };

    /// Writes as the inner writer does. If that fails, its reason is kept.
    fn write(&mut self, bytes: &[u8]) -> io::Result<usize>
        ensures bound { WritesAtMost result bytes.now }
        ensures bytes { WriteAppends (W.contents self.old.inner) (W.contents self.new.inner) result bytes.now }
    {
        let answer = self.inner.write(bytes);
        if let Err(error) = &answer {
            self.reason.keep(error);
        }
        answer
    }

    /// Flushes the inner writer. If that fails, its reason is kept.
    fn flush(&mut self) -> io::Result<()> {
        let answer = self.inner.flush();
        if let Err(error) = &answer {
            self.reason.keep(error);
        }
        answer
    }
}
