//! Which errors of a reader or a writer only say that a signal came, and how often such a call is made again.
ghost use Rattle.std.specs.Prelude.{◌≡◌, ◌↔◌, IsTrue};
ghost use Rattle.std.specs.IoError.{error_kind};

use std::io;
use std::io::ErrorKind;

/// How often a read or a flush is tried if a signal interrupts it, before the port fails.
pub const MOST_TRIES: u32 = 1000;

/// Returns whether a signal interrupted the call (`ErrorKind::Interrupted`), so that it is made again.
pub(crate) fn is_interruption(error: &io::Error) -> bool
    ensures { IsTrue result ↔ (error_kind error.now ≡ ErrorKind.Interrupted) }
{
    error.kind() == ErrorKind::Interrupted
}
