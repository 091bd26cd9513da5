// The listing of a program's rows.
ghost use Rattle.std.specs.Prelude.{IfOk};
ghost use Rattle.commands.specs.Rows.{IsRowListing, ListsRows};
ghost use Rattle.workbench.specs.ProgramFile.{IsNamedProgram};

use crate::image_rows::listed_image;
use crate::text_rows::rows_in_text;
use byte_ports::Sink;
use row_code::is_image_file;
use std::alloc::{AllocError, Global};
use workbench::Program;
use workbench::fault::Fault;

/// Writes a line for each row of a program. The line begins with the row's number. For a text, the number of the row's line and
/// that line follow. For an image, the row's canonical text follows. This doesn't check whether the program can be loaded.
pub fn list_rows<K: Sink>(alloc: Global, program: &Program<'_>, output: &mut K) -> Result<(), Fault>
    requires { IsNamedProgram program.now.bytes.now program.now.image program.now.names }
    ensures { ListsRows program.now.bytes.now result (K.written output.old) (K.written output.new) (K.has_failed output.new) }
{
    let Ok(listing) = listed(alloc, program) else {
        return Err(Fault::Memory);
    };
    match output.push(listing.as_slice()) {
        Ok(()) => Ok(()),
        Err(_) => Err(Fault::Write),
    }
}

/// Returns the listing of a program's rows: for a text with the lines that have the rows, for an image with canonical text.
fn listed(alloc: Global, program: &Program<'_>) -> Result<Vec<u8>, AllocError>
    requires { IsNamedProgram program.now.bytes.now program.now.image program.now.names }
    ensures { IfOk result (λ listing. IsRowListing program.now.bytes.now listing.items) }
{
    if is_image_file(program.bytes) {
        listed_image(alloc, &program.image)
    } else {
        rows_in_text(alloc, program.bytes, program.names.rows())
    }
}
