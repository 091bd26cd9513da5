ghost use Rattle.std.specs.Prelude.{◌≡◌, IsTrue, IfErr, OnOk, Result};
ghost use Rattle.std.specs.Io.KnownBytes.{Appends};
ghost use Rattle.row_code.specs.Image.{image_bytes};
ghost use Rattle.workbench.specs.{declared.fault.Fault.Fault, Asm.Assembles, Done.IsSettledBy, Done.as_asked, Outcome.ComesOf};

use crate::done::{settled, settled_as_asked};
use crate::fault::Fault;
use crate::input::read_all;
use assembler::assemble_placed;
use byte_ports::{Sink, Source};
use row_code::{Image, write_image};
use std::alloc::Global;

/// Assembles the text in `input`, and writes its image to `output`. It doesn't check whether the program can be loaded. Returns
/// the exit status. If that isn't 0, `errors` gets one line: `refused asm LINE KIND` (3), `memory` (4), `read` or `write` (5).
pub fn asm_cmd<S: Source, K: Sink, E: Sink>(
    alloc: Global,
    input: &mut S,
    output: &mut K,
    errors: &mut E,
) -> u8
    ensures { (answer : Result (Unit {0}) Fault)
        × (ComesOf (λ text came. Assembles text came (K.written output.old) (K.written output.new) (K.has_failed output.new))
        (K.written output.new ≡ K.written output.old) answer (S.left input.old) (S.left input.new) (S.has_failed input.new)
        × IsSettledBy as_asked answer result (E.has_failed errors.new) (E.written errors.old) (E.written errors.new)) }
{
    match read_all(alloc, input) {
        Ok(text) => settled_as_asked(asm(alloc, text.as_slice(), output), errors),
        Err(fault) => settled(Err(fault), errors),
    }
}

/// Assembles a text, and writes the bytes of its image. A text with a fault writes nothing.
pub fn asm<K: Sink>(alloc: Global, text: &[u8], output: &mut K) -> Result<(), Fault>
    ensures { Assembles text.now result (K.written output.old) (K.written output.new) (K.has_failed output.new) }
{
    match assemble_placed(alloc, text) {
        Ok(image) => push_image(&image, output),
        Err(fault) => Err(Fault::Asm(fault)),
    }
}

/// Writes the bytes of an image. Fails with `Write` if the output failed.
fn push_image<K: Sink>(image: &Image, output: &mut K) -> Result<(), Fault>
    ensures bytes { OnOk result (Appends (K.written output.old) (K.written output.new) (image_bytes image.now)) }
    ensures write { IfErr result (λ fault. (fault ≡ Fault.Write) × IsTrue (K.has_failed output.new)) }
{
    match write_image(image, output) {
        Ok(()) => Ok(()),
        Err(_) => Err(Fault::Write),
    }
}
