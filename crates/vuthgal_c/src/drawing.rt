//! Drawings of a run.
ghost use Rattle.std.specs.Prelude.{◌≡◌, [], Err, Some, false};
ghost use Rattle.vuthgal_c.specs.{Beyond.Draws, Beyond.DrawsRun, Beyond.IsTooMuch, Shows.Shows};
ghost use Rattle.workbench.specs.declared.fault.Fault.{Fault};

use crate::files::{is_within, whole_program};
use crate::reply::Reply;
use byte_ports::Sink;
use commands::drawing::Drawing;
use commands::write_picture::write;
use std::alloc::Global;
use workbench::done::settled_as_asked;
use workbench::fault::Fault;

/// Writes the drawing of `file`'s program under `schedule`. Fails with `Read` if one of the two has more than 16,777,216 bytes.
fn drawn<K: Sink>(
    alloc: Global,
    width: u16,
    file: &[u8],
    schedule: &[u8],
    output: &mut K,
) -> Result<(), Fault>
    ensures drawn { DrawsRun width file.now schedule.now result
        (K.written output.old) (K.written output.new) (K.has_failed output.new) }
    ensures limit { IsTooMuch file.now schedule.now → result ≡ Err Fault.Read }
{
    if !is_within(file) || !is_within(schedule) {
        return Err(Fault::Read);
    }
    let program = match whole_program(alloc, file) {
        Ok(program) => program,
        Err(fault) => return Err(fault),
    };
    let drawing = Drawing { width };
    match write(alloc, &drawing, program, schedule, output) {
        Ok(_) => Ok(()),
        Err(fault) => Err(fault),
    }
}

/// Writes a drawing within `width` columns and a fault's line, as far as they fit, and their lengths. Returns 0, or 3 to 5.
#[unsafe(no_mangle)]
pub extern "C" fn vuthgal_draw(
    alloc: Global,
    program: &[u8],
    schedule: &[u8],
    width: u16,
    output: &mut [u8],
    output_length: &mut usize,
    line: &mut [u8],
    line_length: &mut usize,
) -> u8
    ensures { Shows (Draws width program.now schedule.now) result output.old output.new output_length.new line.old line.new line_length.new }
{
    let mut reply = Reply::new(alloc, output.len(), line.len());
    let answer = drawn(alloc, width, program, schedule, &mut reply.shown);
    let status = settled_as_asked(answer, &mut reply.told);
    reply.hand(status, output, output_length, line, line_length)
}
