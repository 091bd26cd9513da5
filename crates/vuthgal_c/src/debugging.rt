//! Sessions of the debugger.
ghost use Rattle.vuthgal_c.specs.{Calls.DebugsProgram, Shows.Shows};

use crate::reply::Reply;
use std::alloc::Global;
use workbench::debug_cmd;
use workbench::slice_source::SliceSource;

/// Writes the replies to `commands` and a fault's line, as far as they fit, and their lengths. Returns 0, or 3 to 5.
#[unsafe(no_mangle)]
pub extern "C" fn vuthgal_debug(
    alloc: Global,
    program: &[u8],
    commands: &[u8],
    output: &mut [u8],
    output_length: &mut usize,
    line: &mut [u8],
    line_length: &mut usize,
) -> u8
    ensures { Shows (DebugsProgram program.now commands.now) result output.old output.new output_length.new line.old line.new line_length.new }
{
    let mut program = SliceSource::new(program);
    let mut commands = SliceSource::new(commands);
    let mut reply = Reply::new(alloc, output.len(), line.len());
    let Reply { shown, told } = &mut reply;
    let status = debug_cmd(alloc, &mut program, &mut commands, shown, told);
    reply.hand(status, output, output_length, line, line_length)
}
