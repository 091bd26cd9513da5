//! Why the program in a file is refused: by a word of its text, or by what can't be loaded of it.

use crate::place::Place;
use crate::report::{Report, Reported};
use assembler::PlacedFault;
use commands::unplanned::Unplanned;
use loader::LoadFault;
use suggestions::load_fault::{hint_at_load, place_of_load};
use suggestions::program_fault::hint_in_program;
use workbench::fault::Fault;

/// A file that holds a program, and the part of it that is one.
#[derive(Clone, Copy)]
pub struct ProgramFile<'a> {
    pub name: &'a str,
    pub bytes: &'a [u8],
    pub text: &'a [u8],
}

impl<'a> ProgramFile<'a> {
    /// Returns a file of which all bytes are read as the program: a line `.run` doesn't end it.
    pub fn whole(name: &'a str, bytes: &'a [u8]) -> ProgramFile<'a> {
        ProgramFile {
            name,
            bytes,
            text: bytes,
        }
    }
}

/// Reports a fault of a program's text at the word that makes it, with what helps there.
fn fail_in_text(report: &Report<'_>, file: ProgramFile<'_>, placed: PlacedFault) -> Reported {
    let PlacedFault { fault, at, .. } = placed;
    report.fail(
        Unplanned::Fault(Fault::Asm(placed)),
        file.name,
        Place::in_text(file.bytes, fault.line, at),
        hint_in_program(report.alloc(), file.bytes, file.text, placed),
    )
}

/// Reports why a file has no program: a fault of its text (status 3) or image, or too little memory.
pub fn fail_to_read(report: &Report<'_>, file: ProgramFile<'_>, fault: Fault) -> Reported {
    match fault {
        Fault::Asm(placed) if fault.status() == 3 => fail_in_text(report, file, placed),
        _ => report.fail(Unplanned::Fault(fault), file.name, None, Ok(None)),
    }
}

/// Reports why a file's program isn't loaded: the place and advice, or that memory has run out (status 4).
pub fn fail_to_load(report: &Report<'_>, file: ProgramFile<'_>, fault: LoadFault) -> Reported {
    let why = Unplanned::Fault(Fault::Load(fault));
    if why.status() == 4 {
        return report.fail(why, "", None, Ok(None));
    }
    let place = match place_of_load(report.alloc(), file.text, fault) {
        Some((number, part)) => Place::in_text(file.text, number, part),
        None => None,
    };
    report.fail(
        why,
        file.name,
        place,
        hint_at_load(report.alloc(), file.bytes, file.text, fault),
    )
}
