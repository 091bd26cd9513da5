//! The assembler's calls: from the text of a program to its image.
ghost use Rattle.std.specs.Prelude.{◌≡◌, ◌≤◌, IfErr, IfOk, Ok, length, max};
ghost use Rattle.row_code.specs.declared.image.Image.{Image};
ghost use Rattle.assembler.specs.{Answers.AnswersAt, Answers.AnswersPlaced, Meaning.StandsFor, Passes.assembled};
ghost use Rattle.assembler.specs.{Placed.IsPlacedIn, Symbols.symbols_in};
ghost use Rattle.line_reader.specs.Words.{lines_of};
ghost use Rattle.line_reader.specs.declared.asm_fault.AsmFaultKind.TheVariants as fault;

use crate::first_pass::lines_read;
use crate::placed::PlacedFault;
use crate::resolution::image_of;
use crate::symbols::{Symbols, symbols_of};
use line_reader::asm_fault::AsmFault;
use row_code::Image;
use std::alloc::Global;

/// Returns the image of a program's text.
///
/// It reads the text line by line and stops at the first line with a fault. Then it looks up every name. The first line that
/// refers to an unknown one has the fault `UnknownName`. The expected time is linear in the length of the text, whatever its
/// names are. An object that the text names by its number need not exist. `Memory` has the line that was being read, or the
/// last line if names were being looked up.
pub fn assemble(alloc: Global, text: &[u8]) -> Result<Image, AsmFault>
    // The returned image is the one that the text stands for.
    ensures found { IfOk result (λ image. StandsFor text.now image) }

    // The image that a text stands for is returned, unless memory runs out.
    ensures only { (image : Image) → StandsFor text.now image →
        AnswersAt (λ answered. answered) result (Ok image) }

    // Which fault it is, and at which line.
    ensures exact { AnswersAt (λ image. image) result (assembled text.now) }

    // Out of memory is also reported with a line of the text, or with the first if the text has none.
    ensures memory { IfErr result (λ e. e.kind ≡ fault.Memory
        → (1 ≤ e.line) × (e.line ≤ max (length (lines_of text.now)) 1)) }
{
    match assemble_placed(alloc, text) {
        Ok(image) => Ok(image),
        Err(placed) => Err(placed.fault),
    }
}

/// Returns the image of a program's text, as `assemble` does, or its fault with the place in its line (clause `place`).
#[tactic(auto, unfolding(crate::specs::Passes::assembled))]
pub fn assemble_placed(alloc: Global, text: &[u8]) -> Result<Image, PlacedFault>
    ensures found { IfOk result (λ image. StandsFor text.now image) }
    ensures only { (image : Image) → StandsFor text.now image →
        AnswersPlaced (λ answered. answered) result (Ok image) }
    ensures exact { AnswersPlaced (λ image. image) result (assembled text.now) }

    // Where the fault is: at the word that is wrong.
    ensures place { IfErr result (IsPlacedIn text.now) }

    ensures memory { IfErr result (λ e. e.fault.kind ≡ fault.Memory
        → (1 ≤ e.fault.line) × (e.fault.line ≤ max (length (lines_of text.now)) 1)) }
{
    let (draft, lines) = match lines_read(alloc, text) {
        Ok(read) => read,
        Err(fault) => return Err(fault),
    };
    // The line to report if memory runs out from here on: the last, or 1 if the text is empty.
    image_of(alloc, &draft, text, lines.max(1))
}

/// Returns the image of a text, as `assemble_placed` does, and its names: what each one names, and the line of each row.
#[tactic(auto, unfolding(crate::specs::Passes::assembled, crate::specs::Symbols::symbols_in))]
pub fn assemble_named(alloc: Global, text: &[u8]) -> Result<(Image, Symbols<'_>), PlacedFault>
    ensures found { IfOk result (λ both. StandsFor text.now both.0) }
    ensures symbols { IfOk result (λ both. symbols_in text.now ≡ Ok both.1) }
    ensures exact { AnswersPlaced (λ both. both.0) result (assembled text.now) }
    ensures place { IfErr result (IsPlacedIn text.now) }
    ensures memory { IfErr result (λ e. e.fault.kind ≡ fault.Memory
        → (1 ≤ e.fault.line) × (e.fault.line ≤ max (length (lines_of text.now)) 1)) }
{
    let (draft, lines) = match lines_read(alloc, text) {
        Ok(read) => read,
        Err(fault) => return Err(fault),
    };
    let last = lines.max(1);
    let image = match image_of(alloc, &draft, text, last) {
        Ok(image) => image,
        Err(fault) => return Err(fault),
    };
    match symbols_of(alloc, draft) {
        Ok(symbols) => Ok((image, symbols)),
        Err(_) => Err(PlacedFault::memory(last)),
    }
}
