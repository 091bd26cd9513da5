ghost use Rattle.std.specs.Prelude.{◌≡◌, ◌⊎◌, Err, IsTrue, IfErr, IfOk, is_none};
ghost use Rattle.trace_compare.specs.{Naming.Naming, Writing.HasWrittenPart};
ghost use Rattle.trace_text.specs.RunText.{GivesOnAndOn};
ghost use Rattle.workbench.specs.declared.fault.Fault.{Fault};
ghost use Rattle.commands.specs.Choices.{HasWrittenChoices};

use byte_ports::{Sink, Source};
use std::alloc::Global;
use trace_compare::writing::{WritingFault, write_choices};
use workbench::fault::{Fault, push_counted_line};

/// Writes the schedule of the trace in `trace` to `output`, as one line: its choices up to its state, with repeated choices
/// joined. Returns whether `trace` is a trace. If it isn't, the choices before the first wrong line are written, and after them
/// the line `not a trace LINE`. With `Memory` nothing is read. After `Read` and `Write` a part of the schedule may be written.
pub fn choices<S: Source, K: Sink>(
    alloc: Global,
    trace: &mut S,
    output: &mut K,
) -> Result<bool, Fault>
    ensures done { IfOk result (λ is_trace. (naming : Naming) × ((is_trace ≡ is_none naming.no_line)
        × HasWrittenChoices naming (S.left trace.old) (S.left trace.new) (K.written output.old) (K.written output.new))) }
    ensures fault { IfErr result (λ fault. (fault ≡ Fault.Memory) ⊎ ((fault ≡ Fault.Read) ⊎ (fault ≡ Fault.Write))) }
    ensures unchanged { result ≡ Err Fault.Memory
        → (S.left trace.new ≡ S.left trace.old) × (K.written output.new ≡ K.written output.old) }
    ensures part { result ≡ Err Fault.Read → HasWrittenPart (S.left trace.old) (S.left trace.new)
        (K.written output.old) (K.written output.new) }
    ensures read { result ≡ Err Fault.Read → IsTrue (S.has_failed trace.new)
        ⊎ GivesOnAndOn (S.left trace.old) (S.left trace.new) }
    ensures write { result ≡ Err Fault.Write → IsTrue (K.has_failed output.new) }
{
    let line = match write_choices(alloc, trace, output) {
        Ok(None) => return Ok(true),
        Ok(Some(line)) => line,
        Err(WritingFault::Memory) => return Err(Fault::Memory),
        Err(WritingFault::Read) => return Err(Fault::Read),
        Err(WritingFault::Write) => return Err(Fault::Write),
    };
    match push_counted_line(output, b"not a trace ", line) {
        Ok(()) => Ok(false),
        Err(_) => Err(Fault::Write),
    }
}
