//! The result of a command after everything that it wrote is passed on.

ghost use Rattle.std.specs.Prelude.{◌≡◌, ◌⊎◌, true, false, Err};
ghost use Rattle.std.specs.Io.KnownBytes.{Keeps, append_known};
ghost use Rattle.workbench.specs.declared.fault.Fault.{Fault};

use crate::fault::Fault;
use byte_ports::{BlockPort, WritePort};
use std::io::Write;

/// Returns a command's result, or `Write` if its output wasn't flushed: what the command wrote may then be lost.
fn unless_lost<T: Drop>(answer: Result<T, Fault>, is_flushed: bool) -> Result<T, Fault>
    ensures kept { is_flushed ≡ true → result ≡ answer }
    ensures lost { is_flushed ≡ false → result ≡ Err Fault.Write }
{
    if is_flushed {
        answer
    } else {
        Err(Fault::Write)
    }
}

/// Flushes a command's output. Returns the command's result, or `Write` if this or an earlier call of the output failed.
pub fn flushed<T: Drop, W: Write>(
    answer: Result<T, Fault>,
    output: &mut WritePort<W>,
) -> Result<T, Fault>
    ensures kept { output.new.failed ≡ false → result ≡ answer }
    ensures lost { output.new.failed ≡ true → result ≡ Err Fault.Write }
{
    unless_lost(answer, output.finish().is_ok())
}

/// Writes the last block and flushes. Returns the command's result, or `Write` if this or an earlier call failed.
pub fn passed_on<T: Drop, W: Write + Drop>(
    answer: Result<T, Fault>,
    output: &mut BlockPort<WritePort<W>>,
) -> Result<T, Fault>
    ensures kept { output.new.failed ≡ false → result ≡ answer }
    ensures lost { output.new.failed ≡ true → result ≡ Err Fault.Write }
    ensures bytes { output.new.failed ≡ false
        → Keeps (append_known (W.contents output.old.inner.inner) output.old.held) (W.contents output.new.inner.inner) }
    ensures cause { output.new.failed ≡ true → (output.old.failed ≡ true) ⊎ (output.new.inner.failed ≡ true) }
    ensures earlier { output.old.failed ≡ true → output.new.failed ≡ true }
{
    unless_lost(answer, output.finish().is_ok())
}
