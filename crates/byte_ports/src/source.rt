ghost use Rattle.std.specs.Prelude.{ℕ, ◌≤◌, ◌+◌, List, Option, Bool, IfOk, length};
ghost use Rattle.std.specs.Io.KnownBytes.{ReadConsumes};
ghost use Rattle.byte_ports.specs.Port.{FailsForGood};

use crate::failed::Failed;

/// Gives bytes a piece at a time, as `java.io.InputStream` does.
pub trait Source {
    // The bytes that calls will return from here on. `None` if the port doesn't tell.
    ghost left: { Self → Option (List ℕ) };

    // Whether a call has failed.
    ghost has_failed: { Self → Bool };

    // How often the source was read, if it counts its reads, and otherwise 0.
    ghost reads: { Self → ℕ };

    /// Puts the next bytes at the start of `buffer`, and returns how many, like `InputStream.read(byte[])`. At the end it
    /// returns 0, not -1: a buffer that isn't empty gets 0 bytes only if none is left. The rest of the buffer may change.
    fn pull(&mut self, buffer: &mut [u8]) -> Result<usize, Failed>
        ensures failed { FailsForGood (has_failed self.old) (has_failed self.new) result }
        ensures bound { IfOk result (λ n. n ≤ length buffer.new) }

        // The returned bytes are no longer left. A call that fails changes nothing.
        ensures bytes { ReadConsumes (left self.old) (left self.new) result buffer.new }

        // It is one read more at most. So whoever reads any source in a loop can say how often.
        ensures reads { reads self.new ≤ reads self.old + 1 };
}
