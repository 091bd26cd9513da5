//! A picture as a page.
ghost use Rattle.std.specs.Prelude.{◌≡◌, Err};
ghost use Rattle.commands.specs.Page.{IsPageIn, source_of};
ghost use Rattle.pictures.specs.Page.{parts_of};
ghost use Rattle.workbench.specs.declared.fault.PictureKind.TheVariants as picture;

use crate::picture::{Picture, fault_of};
use pictures::frame::Frame;
use pictures::missing::Shown;
use pictures::page::page;
use row_code::is_image_file;
use std::alloc::Global;
use workbench::Program;
use workbench::fault::{Fault, PictureKind};

/// A page for a browser, with these fixed parts: the program, its text, the schedule and the trace.
#[derive(Clone, Copy)]
pub struct Page<'a> {
    pub frame: Frame<'a>,
}

/// Returns the text of a program as it was written, or nothing if it is an image.
fn source_of(program: &[u8]) -> &[u8]
    ensures { result.now ≡ source_of program.now }
{
    if is_image_file(program) { &[] } else { program }
}

impl<'a> Picture for Page<'a> {
    ghost use Rattle.workbench.specs.declared.fault.PictureKind.TheVariants as picture;
    ghost use Rattle.commands.specs.Page.{IsPageIn};
    ghost use Rattle.pictures.specs.Page.{parts_of};

    ghost is_picture = { λ self program schedule page. IsPageIn (parts_of self.frame) program.image program.bytes.now schedule page };

    ghost kind = { picture.Page };

    /// Returns that this picture is a page, not a drawing.
    fn kind(&self) -> PictureKind {
        PictureKind::Page
    }

    /// Returns the page of a program's run under a schedule, or why there is none.
    fn of(&self, alloc: Global, program: Program<'_>, schedule: &[u8]) -> Result<Shown, Fault> {
        match page(
            alloc,
            self.frame,
            program.image,
            source_of(program.bytes),
            schedule,
        ) {
            Ok(shown) => Ok(shown),
            Err(fault) => Err(fault_of(fault, PictureKind::Page)),
        }
    }
}
