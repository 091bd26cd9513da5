//! Runs.
ghost use Rattle.vuthgal_c.specs.{Calls.Runs, Calls.RunsText, Shows.Shows};

use crate::reply::Reply;
use std::alloc::Global;
use workbench::slice_source::SliceSource;
use workbench::{both_cmd, run_cmd};

/// Writes the trace of a run and a fault's line, as far as they fit, and their lengths. Returns 0, or 3 to 5 for a fault.
#[unsafe(no_mangle)]
pub extern "C" fn vuthgal_run(
    alloc: Global,
    program: &[u8],
    schedule: &[u8],
    output: &mut [u8],
    output_length: &mut usize,
    line: &mut [u8],
    line_length: &mut usize,
) -> u8
    ensures { Shows (Runs program.now schedule.now) result output.old output.new output_length.new line.old line.new line_length.new }
{
    let mut program = SliceSource::new(program);
    let mut schedule = SliceSource::new(schedule);
    let mut reply = Reply::new(alloc, output.len(), line.len());
    let Reply { shown, told } = &mut reply;
    let status = run_cmd(alloc, &mut program, &mut schedule, shown, told);
    reply.hand(status, output, output_length, line, line_length)
}

/// Plays `text` under the schedule after its line `.run`, and writes the trace to `output` and a fault's line to `line`, as far
/// as they fit, and their lengths. Returns 0, or 3 to 5 for a fault.
#[unsafe(no_mangle)]
pub extern "C" fn vuthgal_both(
    alloc: Global,
    text: &[u8],
    output: &mut [u8],
    output_length: &mut usize,
    line: &mut [u8],
    line_length: &mut usize,
) -> u8
    ensures { Shows (RunsText text.now) result output.old output.new output_length.new line.old line.new line_length.new }
{
    let mut text = SliceSource::new(text);
    let mut reply = Reply::new(alloc, output.len(), line.len());
    let status = both_cmd(alloc, &mut text, &mut reply.shown, &mut reply.told);
    reply.hand(status, output, output_length, line, line_length)
}
