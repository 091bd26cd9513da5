ghost use Rattle.std.specs.Prelude.{◌≡◌, ◌⊎◌, map, IfErr};
ghost use Rattle.row_code.specs.Image.{IsImage};
ghost use Rattle.line_reader.specs.declared.asm_fault.AsmFaultKind.TheVariants as fault;
ghost use Rattle.assembler.specs.{Answers.AnswersPlaced, Meaning.image_of, Passes.first_unknown, Passes.looked_up};
ghost use Rattle.assembler.specs.{KeptLine.line_kept, Placed.IsMemory, Placed.IsUnknownPlaced};

use crate::draft::Draft;
use crate::kept_line::KeptLine;
use crate::placed::{PlacedFault, unknown};
use parts::Parts;
use row_code::Image;
use std::alloc::Global;

mod lookups;
mod parts;

/// Makes the lists of an image, line by line, or returns the fault of the first line that refers to an unknown name. `last` is
/// the line that is reported if it is out of memory.
fn parts_of<'a>(
    alloc: Global,
    draft: &Draft<'a>,
    lines: &[KeptLine<'a>],
    text: &[u8],
    last: u64,
) -> Result<Parts, PlacedFault>
    requires fits { IsImage (image_of draft.now) }
    requires all { map line_kept lines.now ≡ draft.now }
    ensures found { AnswersPlaced (λ parts. parts) result
        (looked_up draft.now (first_unknown draft.now)) }
    ensures memory { IfErr result (λ e. e.fault.kind ≡ fault.Memory → e.fault.line ≡ last) }
    ensures place { IfErr result (λ e. IsMemory e ⊎ IsUnknownPlaced draft.now text.now e) }
{
    let mut parts = Parts::new(alloc);
    for line in lines {
        match parts.add(draft, line) {
            Ok(true) => {}
            Ok(false) => {
                return Err(unknown(draft, line, text));
            }
            Err(_) => {
                return Err(PlacedFault::memory(last));
            }
        }
    }
    Ok(parts)
}

/// Looks up every name, and returns the image of all lines. `last` is the line that is reported if it is out of memory.
pub fn image_of(alloc: Global, draft: &Draft, text: &[u8], last: u64) -> Result<Image, PlacedFault>
    requires fits { IsImage (image_of draft.now) }
    ensures found { AnswersPlaced (λ image. image) result
        (looked_up draft.now (first_unknown draft.now)) }
    ensures memory { IfErr result (λ e. e.fault.kind ≡ fault.Memory → e.fault.line ≡ last) }
    ensures place { IfErr result (λ e. IsMemory e ⊎ IsUnknownPlaced draft.now text.now e) }
{
    let parts = parts_of(alloc, draft, draft.lines(), text, last)?;
    Ok(parts.into_image())
}
