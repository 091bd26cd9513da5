//! A picture as text.
ghost use Rattle.std.specs.Prelude.{◌≡◌, Err, IfErr, IfOk};
ghost use Rattle.commands.specs.Drawing.{IsDrawingIn};
ghost use Rattle.workbench.specs.declared.fault.PictureKind.TheVariants as picture;
ghost use Rattle.workbench.specs.declared.fault.Fault.{Fault};
ghost use Rattle.pictures.specs.{Missing.missing_in, Picture.picture as text_of};
ghost use Rattle.thread_machine.specs.World.{world_of};

use crate::picture::{Picture, fault_of, start_fault};
use assembler::Symbols;
use pictures::choices::choices_in;
use pictures::missing::{Shown, missing};
use pictures::picture::picture;
use std::alloc::Global;
use thread_machine::{Choice, Machine};
use trace_text::start::first_machine;
use workbench::Program;
use workbench::fault::{Fault, PictureKind};

/// A drawing whose lines have at most `width` columns: a column for each thread, and a line for each choice.
#[derive(Clone, Copy)]
pub struct Drawing {
    pub width: u16,
}

/// Returns the drawing of these choices from a machine's present state on.
fn drawn(
    alloc: Global,
    width: u16,
    machine: &mut Machine,
    names: &Symbols<'_>,
    choices: &[Choice],
) -> Result<Shown, Fault>
    ensures drawing { IfOk result (λ shown. shown.bytes.items ≡ text_of width names.now (world_of machine.old) choices.now) }
    ensures missing { IfOk result (λ shown. shown.missing ≡ missing_in (world_of machine.old) choices.now) }
    ensures memory { IfErr result (λ fault. fault ≡ Fault.Memory) }
{
    match picture(alloc, machine, names, width, choices) {
        Ok(bytes) => Ok(Shown {
            bytes,
            missing: missing(machine, choices),
        }),
        Err(_) => Err(Fault::Memory),
    }
}

impl Picture for Drawing {
    ghost use Rattle.workbench.specs.declared.fault.PictureKind.TheVariants as picture;
    ghost use Rattle.commands.specs.Drawing.{IsDrawingIn};

    ghost is_picture = { λ self program schedule text. IsDrawingIn self.width program.image program.names schedule text };

    ghost kind = { picture.Drawing };

    /// Returns that this picture is a drawing, not a page.
    fn kind(&self) -> PictureKind {
        PictureKind::Drawing
    }

    /// Returns the drawing of a program's run under a schedule, or why there is none.
    fn of(&self, alloc: Global, program: Program<'_>, schedule: &[u8]) -> Result<Shown, Fault> {
        let Program { image, names, .. } = program;
        let mut machine = match first_machine(alloc, image) {
            Ok(machine) => machine,
            Err(fault) => return Err(start_fault(fault)),
        };
        match choices_in(alloc, schedule) {
            Ok(choices) => drawn(alloc, self.width, &mut machine, &names, choices.as_slice()),
            Err(fault) => Err(fault_of(fault, PictureKind::Drawing)),
        }
    }
}
