//! A program is a value. Its bytes are read and assembled once, and whatever plays it takes what they stand for.
ghost use Rattle.std.specs.Prelude.{◌≡◌, ℕ, List, IfOk, IfErr, Ok};
ghost use Rattle.assembler.specs.{Meaning.StandsFor, Symbols.symbols_in};
ghost use Rattle.row_code.specs.declared.image.Image.{Image};
ghost use Rattle.workbench.specs.Outcome.{ReadsProgram};
ghost use Rattle.workbench.specs.ProgramFile.{IsNamedProgram, IsNoProgramFor, IsNoTextFor, IsProgramFile};

use crate::fault::Fault;
use crate::input::read_all;
use assembler::{Symbols, assemble_named};
use byte_ports::Source;
use row_code::{Image, is_image_file, read_image};
use std::alloc::Global;

/// A program: its bytes, which are an image or a text; the image that they are or stand for; and the names that a text gives.
#[derive(Drop)]
pub struct Program<'a> {
    pub bytes: &'a [u8],
    pub image: Image,
    /// An image has none.
    pub names: Symbols<'a>,
}

/// Assembles a text. Returns it as a program, with its image and its names.
pub fn program_of_text(alloc: Global, text: &[u8]) -> Result<Program<'_>, Fault>
    ensures image { IfOk result (λ program. StandsFor text.now program.image) }
    ensures names { IfOk result (λ program. symbols_in text.now ≡ Ok program.names) }
    ensures bytes { IfOk result (λ program. program.bytes.now ≡ text.now) }
    ensures none { IfErr result (λ fault. IsNoTextFor fault text.now) }
{
    match assemble_named(alloc, text) {
        Ok((image, names)) => Ok(Program {
            bytes: text,
            image,
            names,
        }),
        Err(fault) => Err(Fault::Asm(fault)),
    }
}

/// Returns the program in a file: the image that its bytes are, or the one that its text stands for.
pub fn program_in(alloc: Global, file: &[u8]) -> Result<Program<'_>, Fault>
    ensures image { IfOk result (λ program. IsProgramFile file.now program.image) }
    ensures names { IfOk result (λ program. IsNamedProgram program.bytes.now program.image program.names) }
    ensures bytes { IfOk result (λ program. program.bytes.now ≡ file.now) }
    ensures none { IfErr result (λ fault. IsNoProgramFor fault file.now) }
{
    if !is_image_file(file) {
        return program_of_text(alloc, file);
    }
    match read_image(alloc, file) {
        Ok(image) => Ok(Program {
            bytes: file,
            image,
            names: Symbols::none(alloc),
        }),
        Err(fault) => Err(Fault::Image(fault)),
    }
}

/// Returns the image of the program in a source, an image or a text, which is read to its end.
pub fn image_from<F: Source>(alloc: Global, file: &mut F) -> Result<Image, Fault>
    ensures { ReadsProgram result (F.left file.old) (F.left file.new) (F.has_failed file.new) }
{
    let bytes = match read_all(alloc, file) {
        Ok(bytes) => bytes,
        Err(fault) => return Err(fault),
    };
    match program_in(alloc, bytes.as_slice()) {
        Ok(program) => Ok(program.image),
        Err(fault) => Err(fault),
    }
}

/// A law: a file has only one program. If two images are the program of the same file, they are equal.
pub fn a_file_is_one_program()
    ensures { (file : List ℕ) (a b : Image) → IsProgramFile file a → IsProgramFile file b → a ≡ b }
{}
