ghost use Rattle.std.specs.Prelude.{◌≡◌, IsTrue, IfErr, OnOk, Result, false};
ghost use Rattle.std.specs.Io.KnownBytes.{Appends};
ghost use Rattle.trace_compare.specs.declared.comparison.Verdict.{Verdict};
ghost use Rattle.trace_text.specs.Outcome.{IsUntouched};
ghost use Rattle.workbench.specs.{declared.fault.Fault.Fault, Compare.WritesVerdict, Compare.done_by, Compare.verdict_line};
ghost use Rattle.workbench.specs.{Done.IsSettledBy, Outcome.ComesOfProgram};

use crate::done::{Done, settled};
use crate::fault::{Fault, push_counted_line};
use crate::program::image_from;
use byte_ports::{Failed, Sink, Source};
use row_code::Image;
use std::alloc::Global;
use trace_compare::{CompareFault, Verdict, compare};

/// Compares the trace in `trace` with the run of the program in `file`, and writes `same`, `differs LINE` or `not a trace LINE`
/// to `output`. Returns the exit status: 0 for `same`, 1 for the other two, and 3 to 5 with a fault's line on `errors`.
pub fn compare_cmd<F: Source, S: Source, K: Sink, E: Sink>(
    alloc: Global,
    file: &mut F,
    trace: &mut S,
    output: &mut K,
    errors: &mut E,
) -> u8
    ensures { (answer : Result Verdict Fault)
        × (ComesOfProgram (λ image came. WritesVerdict image came (S.left trace.old) (S.left trace.new) (S.has_failed trace.new)
        (K.written output.old) (K.written output.new) (K.has_failed output.new))
        (IsUntouched (S.left trace.old) (S.left trace.new) (K.written output.old) (K.written output.new))
        answer (F.left file.old) (F.left file.new) (F.has_failed file.new)
        × IsSettledBy done_by answer result (E.has_failed errors.new) (E.written errors.old) (E.written errors.new)) }
{
    let image = match image_from(alloc, file) {
        Ok(image) => image,
        Err(fault) => return settled(Err(fault), errors),
    };
    match compared(alloc, image, trace, output) {
        Ok(verdict) => settled(Ok(done_by(verdict)), errors),
        Err(fault) => settled(Err(fault), errors),
    }
}

/// Returns `AsAsked` for the verdict `Same`, and `Unlike` for any other.
pub fn done_by(verdict: Verdict) -> Done
    ensures { result ≡ done_by verdict }
{
    match verdict {
        Verdict::Same => Done::AsAsked,
        Verdict::Differs { .. } | Verdict::NotATrace { .. } => Done::Unlike,
    }
}

/// Compares a trace with the run of an image's program, and writes the line of the verdict.
pub fn compared<S: Source, K: Sink>(
    alloc: Global,
    image: Image,
    trace: &mut S,
    output: &mut K,
) -> Result<Verdict, Fault>
    ensures outcome { WritesVerdict image result (S.left trace.old) (S.left trace.new) (S.has_failed trace.new)
        (K.written output.old) (K.written output.new) (K.has_failed output.new) }
    ensures sound { result ≡ Err Fault.Memory → S.has_failed trace.old ≡ false → S.has_failed trace.new ≡ false }
{
    let verdict = match compare(alloc, image, trace) {
        Ok(verdict) => verdict,
        Err(CompareFault::Load(fault)) => return Err(Fault::Load(fault)),
        Err(CompareFault::Memory) => return Err(Fault::Memory),
        Err(CompareFault::Read) => return Err(Fault::Read),
    };
    match push_verdict(output, verdict) {
        Ok(()) => Ok(verdict),
        Err(_) => Err(Fault::Write),
    }
}

/// Writes the line of a verdict: `same`, `differs LINE` or `not a trace LINE`.
pub fn push_verdict<K: Sink>(output: &mut K, verdict: Verdict) -> Result<(), Failed>
    ensures bytes { OnOk result (Appends (K.written output.old) (K.written output.new)
        (verdict_line verdict)) }
    ensures failed { IfErr result (λ _. IsTrue (K.has_failed output.new)) }
{
    match verdict {
        Verdict::Same => output.push(b"same\n"),
        Verdict::Differs { line } => push_counted_line(output, b"differs ", line),
        Verdict::NotATrace { line } => push_counted_line(output, b"not a trace ", line),
    }
}
