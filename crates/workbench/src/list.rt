ghost use Rattle.std.specs.Prelude.{◌≡◌, Result};
ghost use Rattle.workbench.specs.{declared.fault.Fault.Fault, Done.IsSettledBy, Done.as_asked, List.Lists};
ghost use Rattle.workbench.specs.Outcome.{ComesOfProgram};

use crate::done::{settled, settled_as_asked};
use crate::fault::Fault;
use crate::program::image_from;
use assembler::disassemble;
use byte_ports::{Sink, Source};
use row_code::Image;
use std::alloc::Global;

/// Writes the canonical text of the program in `file` to `output`. It doesn't check whether the program can be loaded. Returns
/// the exit status. If it isn't 0, `errors` gets one line: `refused ..` (3), `memory` (4), `read` or `write` (5).
pub fn list_cmd<S: Source, K: Sink, E: Sink>(
    alloc: Global,
    file: &mut S,
    output: &mut K,
    errors: &mut E,
) -> u8
    ensures { (answer : Result (Unit {0}) Fault)
        × (ComesOfProgram (λ image came. Lists image came (K.written output.old) (K.written output.new) (K.has_failed output.new))
        (K.written output.new ≡ K.written output.old) answer (S.left file.old) (S.left file.new) (S.has_failed file.new)
        × IsSettledBy as_asked answer result (E.has_failed errors.new) (E.written errors.old) (E.written errors.new)) }
{
    match image_from(alloc, file) {
        Ok(image) => settled_as_asked(list(alloc, &image, output), errors),
        Err(fault) => settled(Err(fault), errors),
    }
}

/// Writes the canonical text of an image.
pub fn list<K: Sink>(alloc: Global, image: &Image, output: &mut K) -> Result<(), Fault>
    ensures { Lists image.now result (K.written output.old) (K.written output.new) (K.has_failed output.new) }
{
    let text = match disassemble(alloc, image) {
        Ok(text) => text,
        Err(_) => return Err(Fault::Memory),
    };
    match output.push(text.as_slice()) {
        Ok(()) => Ok(()),
        Err(_) => Err(Fault::Write),
    }
}
