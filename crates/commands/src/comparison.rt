//! Writes the verdict of a trace, and the lines that differ after it.
ghost use Rattle.std.specs.Prelude.{◌≡◌, ◌⊎◌, ◌++◌, ℕ, Err, IsTrue, IfErr, List, OnOk};
ghost use Rattle.std.specs.Io.KnownBytes.{Appends};
ghost use Rattle.workbench.specs.{declared.fault.Fault.Fault, Compare.verdict_line};
ghost use Rattle.commands.specs.Showing.{ShowsComparison, StandsBehind};

use crate::verdict_lines::shown;
use byte_ports::{Sink, Source};
use row_code::Image;
use std::alloc::Global;
use trace_compare::{CompareFault, Judged, Verdict, judge};
use workbench::compare::push_verdict;
use workbench::fault::Fault;

/// Compares a trace with an image's run, and writes the line of the verdict. After `differs LINE` it also writes the lines
/// `trace ..` and `run ..`. After `not a trace LINE` it writes the line `trace ..`, and what a trace's line has to be. If there
/// is no such line, only the word `trace` or `run` is written.
pub fn show_comparison<S: Source, K: Sink>(
    alloc: Global,
    image: Image,
    trace: &mut S,
    output: &mut K,
) -> Result<Judged, Fault>
    ensures { ShowsComparison image result (S.left trace.old) (S.left trace.new) (S.has_failed trace.new)
        (K.written output.old) (K.written output.new) (K.has_failed output.new) }
{
    match judge(alloc, image, trace) {
        Ok(judged) => match push_judged(alloc, &judged, output) {
            Ok(()) => Ok(judged),
            Err(fault) => Err(fault),
        },
        Err(CompareFault::Load(fault)) => Err(Fault::Load(fault)),
        Err(CompareFault::Memory) => Err(Fault::Memory),
        Err(CompareFault::Read) => Err(Fault::Read),
    }
}

/// Writes the line of the verdict and the lines that follow it. Those are made first, so nothing is written if there is no
/// memory for them.
fn push_judged<K: Sink>(alloc: Global, judged: &Judged, output: &mut K) -> Result<(), Fault>
    ensures bytes { OnOk result ((shown : List ℕ) × (StandsBehind judged.now.told.verdict judged.now.trace judged.now.told.line shown
        × Appends (K.written output.old) (K.written output.new) (verdict_line judged.now.told.verdict ++ shown))) }
    ensures fault { IfErr result (λ fault. (fault ≡ Fault.Memory) ⊎ (fault ≡ Fault.Write)) }
    ensures memory { result ≡ Err Fault.Memory → K.written output.new ≡ K.written output.old }
    ensures write { result ≡ Err Fault.Write → IsTrue (K.has_failed output.new) }
{
    match shown(alloc, judged) {
        Ok(shown) => push_shown(output, judged.verdict(), shown.as_slice()),
        Err(_) => Err(Fault::Memory),
    }
}

/// Writes the line of a verdict, and `shown` after it.
fn push_shown<K: Sink>(output: &mut K, verdict: Verdict, shown: &[u8]) -> Result<(), Fault>
    ensures bytes { OnOk result (Appends (K.written output.old) (K.written output.new)
        (verdict_line verdict ++ shown.now)) }
    ensures write { IfErr result (λ fault. (fault ≡ Fault.Write) × IsTrue (K.has_failed output.new)) }
{
    if push_verdict(output, verdict).is_err() || output.push(shown).is_err() {
        return Err(Fault::Write);
    }
    Ok(())
}
