ghost use Rattle.std.specs.Prelude.{◌≡◌, Result};
ghost use Rattle.trace_text.specs.declared.run_end.RunEnd.{RunEnd};
ghost use Rattle.workbench.specs.{declared.fault.Fault.Fault, Done.IsSettledBy, Done.as_asked};
ghost use Rattle.workbench.specs.Outcome.{ComesOf, PlaysText};

use crate::done::{settled, settled_as_asked};
use crate::fault::Fault;
use crate::input::read_all;
use crate::run::run;
use crate::run_line::split_at_run;
use crate::slice_source::SliceSource;
use assembler::assemble_placed;
use byte_ports::{Sink, Source};
use std::alloc::Global;
use trace_text::RunEnd;

/// Reads a program text, a line `.run` and a schedule from `input`, and writes the trace of the run to `output`. Returns the
/// exit status. If that isn't 0, `errors` gets one line: `refused ..` (3), `memory` (4), or `read` or `write` (5).
pub fn both_cmd<S: Source, K: Sink, E: Sink>(
    alloc: Global,
    input: &mut S,
    output: &mut K,
    errors: &mut E,
) -> u8
    ensures { (answer : Result RunEnd Fault)
        × (ComesOf (λ text came. PlaysText text came (K.written output.old) (K.written output.new) (K.has_failed output.new))
        (K.written output.new ≡ K.written output.old) answer (S.left input.old) (S.left input.new) (S.has_failed input.new)
        × IsSettledBy as_asked answer result (E.has_failed errors.new) (E.written errors.old) (E.written errors.new)) }
{
    match read_all(alloc, input) {
        Ok(text) => settled_as_asked(both(alloc, text.as_slice(), output), errors),
        Err(fault) => settled(Err(fault), errors),
    }
}

/// Plays the program of a text under the schedule after its line `.run`, and writes the trace.
fn both<K: Sink>(alloc: Global, text: &[u8], output: &mut K) -> Result<RunEnd, Fault>
    ensures { PlaysText text.now result (K.written output.old) (K.written output.new) (K.has_failed output.new) }
{
    let (program, schedule) = split_at_run(text);
    match assemble_placed(alloc, program) {
        Ok(image) => {
            let mut schedule = SliceSource::new(schedule);
            run(alloc, image, &mut schedule, output)
        }
        Err(fault) => Err(Fault::Asm(fault)),
    }
}
