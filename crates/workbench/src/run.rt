ghost use Rattle.std.specs.Prelude.{Result};
ghost use Rattle.trace_text.specs.{declared.run_end.RunEnd.RunEnd, Outcome.IsUntouched};
ghost use Rattle.workbench.specs.{declared.fault.Fault.Fault, Done.IsSettledBy, Done.as_asked};
ghost use Rattle.workbench.specs.Outcome.{ComesOfProgram, Plays};

use crate::done::{settled, settled_as_asked};
use crate::fault::Fault;
use crate::program::image_from;
use byte_ports::{Sink, Source};
use row_code::Image;
use std::alloc::Global;
use trace_text::{RunEnd, run_to_end};

/// Plays the program in `file` under the schedule in `schedule`, read piece by piece, and writes the trace to `output`. Returns
/// the exit status: 0 if it was played, even if a choice was refused or threads wait for ever. Otherwise `errors` gets one
/// line: `refused ..` (3) for a fault of the program or the schedule, `memory` (4), or `read` or `write` (5).
pub fn run_cmd<F: Source, S: Source, K: Sink, E: Sink>(
    alloc: Global,
    file: &mut F,
    schedule: &mut S,
    output: &mut K,
    errors: &mut E,
) -> u8
    ensures { (answer : Result RunEnd Fault)
        × (ComesOfProgram (λ image came. Plays image came (S.left schedule.old) (S.left schedule.new) (S.has_failed schedule.new)
        (K.written output.old) (K.written output.new) (K.has_failed output.new))
        (IsUntouched (S.left schedule.old) (S.left schedule.new) (K.written output.old) (K.written output.new))
        answer (F.left file.old) (F.left file.new) (F.has_failed file.new)
        × IsSettledBy as_asked answer result (E.has_failed errors.new) (E.written errors.old) (E.written errors.new)) }
{
    match image_from(alloc, file) {
        Ok(image) => settled_as_asked(run(alloc, image, schedule, output), errors),
        Err(fault) => settled(Err(fault), errors),
    }
}

/// Plays an image's program under a schedule, and writes the trace. Returns how the run ended, or a command's fault.
pub(crate) fn run<S: Source, K: Sink>(
    alloc: Global,
    image: Image,
    schedule: &mut S,
    output: &mut K,
) -> Result<RunEnd, Fault>
    ensures { Plays image result (S.left schedule.old) (S.left schedule.new) (S.has_failed schedule.new)
        (K.written output.old) (K.written output.new) (K.has_failed output.new) }
{
    match run_to_end(alloc, image, schedule, output) {
        Ok(end) => Ok(end),
        Err(fault) => Err(Fault::of_run(fault)),
    }
}
