// What a comparison has found: the verdict, and the lines of the trace and of the run.
ghost use Rattle.std.specs.Prelude.{◌≡◌, ◌≢◌, ◌+◌, ◌≤◌, Err, IfOk, List, false, option_map, ℕ};
ghost use Rattle.std.specs.Borrow.{Bor};
ghost use Rattle.trace_compare.specs.Compare.{Compares, Judges};

use crate::comparison::{CompareFault, Comparison, Verdict, compare_lines};
use byte_ports::{Source, SourceLines};
use row_code::Image;
use std::alloc::{AllocError, Global};
use std::marker::Model;
use trace_text::start::{StartFault, first_machine};

/// The result of a comparison: the verdict, and the lines of the trace and of the run that it names.
#[derive(Drop)]
pub struct Judged {
    verdict: Verdict,
    run: Comparison,
    lines: SourceLines,
    /// Whether `lines` holds the trace's line that the verdict names.
    is_read: bool,
}

impl Model for Judged {
    ghost use Rattle.std.specs.Prelude.{◌≤◌, None, Some, if◌then◌else◌, length};
    ghost use Rattle.trace_compare.specs.{Compare.Judgement, Comparing.reported_by};

    ghost Value = { Judgement };

    ghost view = { λ judged. record {
      told = reported_by judged.verdict judged.run;
      trace = if judged.is_read then Some judged.lines.line else None;
    } };

    ghost invariant = { λ judged. judged.run.at ≤ length judged.run.text.items };
}

impl Judged {
    /// Returns whether the trace is the run's, and if it isn't, at which line.
    pub fn verdict(&self) -> Verdict
        ensures { result ≡ self.now.told.verdict }
    {
        self.verdict
    }

    /// Returns the run's line, without its LF, at the number that the verdict `Differs` names. `None`: the run has no such
    /// line, or the verdict is another.
    pub fn run_line(&self, alloc: Global) -> Result<Option<Vec<u8>>, AllocError>
        ensures { IfOk result (λ line. option_map (λ l. l.items) line ≡ self.now.told.line) }
    {
        match self.verdict {
            Verdict::Differs { .. } => self.run.run_line(alloc),
            _ => Ok(None),
        }
    }

    /// Returns the trace's line that the verdict names, or its first 65,537 bytes. `None`: the trace has no such line, or the
    /// verdict names none.
    pub fn trace_line(&self) -> Option<&[u8]>
        ensures { option_map (λ (line : Bor (List ℕ)). line.now) result ≡ self.now.trace }
    {
        if self.is_read {
            Some(self.lines.line())
        } else {
            None
        }
    }
}

/// Compares a trace, byte for byte, with the run of the image's program that its lines name. The verdict names the first line
/// that isn't a line of a trace, or isn't the run's. `judge` reads no further than the piece of input that has this line.
pub fn judge<S: Source>(alloc: Global, image: Image, trace: &mut S) -> Result<Judged, CompareFault>
    ensures outcome { Judges image result (S.left trace.old) (S.left trace.new) (S.has_failed trace.new) }
    ensures reads { S.reads trace.new ≤ S.reads trace.old + 1000000000 }
    ensures sound { result ≢ Err CompareFault.Read → S.has_failed trace.old ≡ false → S.has_failed trace.new ≡ false }
{
    let machine = match first_machine(alloc, image) {
        Ok(machine) => machine,
        Err(StartFault::Load(fault)) => return Err(CompareFault::Load(fault)),
        Err(StartFault::Memory) => return Err(CompareFault::Memory),
    };
    let mut run = Comparison::new(alloc, machine);
    let Ok(mut lines) = SourceLines::new(alloc) else {
        return Err(CompareFault::Memory);
    };
    match compare_lines(alloc, &mut run, &mut lines, trace) {
        Ok((verdict, is_read)) => Ok(Judged {
            verdict,
            run,
            lines,
            is_read,
        }),
        Err(fault) => Err(fault),
    }
}

/// Returns the verdict of `judge` alone, for callers that need no line.
pub fn compare<S: Source>(
    alloc: Global,
    image: Image,
    trace: &mut S,
) -> Result<Verdict, CompareFault>
    ensures outcome { Compares image result (S.left trace.old) (S.left trace.new) (S.has_failed trace.new) }
    ensures reads { S.reads trace.new ≤ S.reads trace.old + 1000000000 }
    ensures sound { result ≢ Err CompareFault.Read → S.has_failed trace.old ≡ false → S.has_failed trace.new ≡ false }
{
    match judge(alloc, image, trace) {
        Ok(judged) => Ok(judged.verdict()),
        Err(fault) => Err(fault),
    }
}
