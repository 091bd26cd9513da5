ghost use Rattle.std.specs.Prelude.{ℕ, List, Option, Bool, OnOk};
ghost use Rattle.std.specs.Io.KnownBytes.{Appends};
ghost use Rattle.byte_ports.specs.Port.{FailsForGood};

use crate::failed::Failed;

/// Takes bytes, as `java.io.OutputStream` does.
pub trait Sink {
    // The bytes that calls have written. `None` if the port doesn't tell.
    ghost written: { Self → Option (List ℕ) };

    // Whether a call has failed.
    ghost has_failed: { Self → Bool };

    /// Writes all of `bytes`, like `OutputStream.write(byte[])`. A call that fails may have written a part of them.
    fn push(&mut self, bytes: &[u8]) -> Result<(), Failed>
        ensures failed { FailsForGood (has_failed self.old) (has_failed self.new) result }
        ensures bytes { OnOk result (Appends (written self.old) (written self.new) bytes.now) };
}
