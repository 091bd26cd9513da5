//! Texts and images.
ghost use Rattle.vuthgal_c.specs.{Calls.AssemblesText, Calls.ListsProgram, Shows.Shows};

use crate::reply::Reply;
use std::alloc::Global;
use workbench::slice_source::SliceSource;
use workbench::{asm_cmd, list_cmd};

/// Writes the image of `text` and a fault's line, as far as they fit, and their lengths. Returns 0, or 3 to 5 for a fault.
#[unsafe(no_mangle)]
pub extern "C" fn vuthgal_asm(
    alloc: Global,
    text: &[u8],
    output: &mut [u8],
    output_length: &mut usize,
    line: &mut [u8],
    line_length: &mut usize,
) -> u8
    ensures { Shows (AssemblesText text.now) result output.old output.new output_length.new line.old line.new line_length.new }
{
    let mut text = SliceSource::new(text);
    let mut reply = Reply::new(alloc, output.len(), line.len());
    let status = asm_cmd(alloc, &mut text, &mut reply.shown, &mut reply.told);
    reply.hand(status, output, output_length, line, line_length)
}

/// Writes the canonical text of `program` and a fault's line, as far as they fit, and their lengths. Returns 0, or 3 to 5.
#[unsafe(no_mangle)]
pub extern "C" fn vuthgal_list(
    alloc: Global,
    program: &[u8],
    output: &mut [u8],
    output_length: &mut usize,
    line: &mut [u8],
    line_length: &mut usize,
) -> u8
    ensures { Shows (ListsProgram program.now) result output.old output.new output_length.new line.old line.new line_length.new }
{
    let mut program = SliceSource::new(program);
    let mut reply = Reply::new(alloc, output.len(), line.len());
    let status = list_cmd(alloc, &mut program, &mut reply.shown, &mut reply.told);
    reply.hand(status, output, output_length, line, line_length)
}
