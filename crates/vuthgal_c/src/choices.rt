//! The schedules of traces.
ghost use Rattle.std.specs.Prelude.{◌≡◌};
ghost use Rattle.vuthgal_c.specs.{Beyond.NamesChoices, Beyond.done_by_trace, Shows.Shows};
ghost use Rattle.workbench.specs.Done.{IsSettledBy};

use crate::reply::Reply;
use byte_ports::Sink;
use commands::choices::choices;
use std::alloc::Global;
use workbench::done::{self, Done};
use workbench::fault::Fault;
use workbench::slice_source::SliceSource;

/// Returns the exit status: 0 for a trace (`Ok(true)`), 1 if the input is none, or a fault's. Writes a fault's line to `line`.
fn settled<E: Sink>(answer: Result<bool, Fault>, line: &mut E) -> u8
    ensures { IsSettledBy done_by_trace answer result (E.has_failed line.new) (E.written line.old) (E.written line.new) }
{
    match answer {
        Ok(true) => done::settled(Ok(Done::AsAsked), line),
        Ok(false) => done::settled(Ok(Done::Unlike), line),
        Err(fault) => done::settled(Err(fault), line),
    }
}

/// Writes the schedule of `trace` and a fault's line, as far as they fit, and their lengths. Returns 0, 1 if `trace` is no
/// trace, or 4 or 5 for a fault.
#[unsafe(no_mangle)]
pub extern "C" fn vuthgal_choices(
    alloc: Global,
    trace: &[u8],
    output: &mut [u8],
    output_length: &mut usize,
    line: &mut [u8],
    line_length: &mut usize,
) -> u8
    ensures { Shows (NamesChoices trace.now) result output.old output.new output_length.new line.old line.new line_length.new }
{
    let mut trace = SliceSource::new(trace);
    let mut reply = Reply::new(alloc, output.len(), line.len());
    let answer = choices(alloc, &mut trace, &mut reply.shown);
    let status = settled(answer, &mut reply.told);
    reply.hand(status, output, output_length, line, line_length)
}
