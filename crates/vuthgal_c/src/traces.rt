//! Traces that are read.
ghost use Rattle.vuthgal_c.specs.{Calls.Compares, Shows.Shows};

use crate::reply::Reply;
use std::alloc::Global;
use workbench::compare_cmd;
use workbench::slice_source::SliceSource;

/// Compares `trace` with the run of `program`: writes the verdict to `output` and a fault's line to `line`, as far as they fit,
/// and their lengths. Returns 0 if it is that run's trace, 1 if it isn't, or 3 to 5 for a fault.
#[unsafe(no_mangle)]
pub extern "C" fn vuthgal_compare(
    alloc: Global,
    program: &[u8],
    trace: &[u8],
    output: &mut [u8],
    output_length: &mut usize,
    line: &mut [u8],
    line_length: &mut usize,
) -> u8
    ensures { Shows (Compares program.now trace.now) result output.old output.new output_length.new line.old line.new line_length.new }
{
    let mut program = SliceSource::new(program);
    let mut trace = SliceSource::new(trace);
    let mut reply = Reply::new(alloc, output.len(), line.len());
    let Reply { shown, told } = &mut reply;
    let status = compare_cmd(alloc, &mut program, &mut trace, shown, told);
    reply.hand(status, output, output_length, line, line_length)
}
