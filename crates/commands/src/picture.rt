//! What a picture of a run can be made as, and why there is none.
ghost use Rattle.std.specs.Prelude.{◌≡◌, ◌≢◌, ◌≤◌, ℕ, List, Err, IfErr, IfOk, length};
ghost use Rattle.commands.specs.{Picture.HaveNoPicture, Picture.most_of, PictureFault.fault_of, PictureFault.start_fault};
ghost use Rattle.pictures.specs.Missing.{IsMissingIn};
ghost use Rattle.workbench.specs.{declared.fault.PictureKind.PictureKind, declared.program.Program.Program, Fault.status_of};
ghost use Rattle.workbench.specs.Input.{most_bytes};

use pictures::choices::{MOST_CHOICES, MOST_PAGE_CHOICES};
use pictures::missing::Shown;
use pictures::page::PageFault;
use std::alloc::Global;
use trace_text::start::StartFault;
use workbench::Program;
use workbench::fault::{Fault, PictureKind};

/// How a picture is made of a program and a schedule.
pub trait Picture {
    // A program, a schedule's bytes, and those of their picture.
    ghost is_picture: { Self → Program → List ℕ → List ℕ → Type 0 };

    // Which picture it is.
    ghost kind: { PictureKind };

    /// Returns which picture it is: a page or a drawing.
    fn kind(&self) -> PictureKind
        ensures { result ≡ kind };

    /// Returns the whole picture of a program's run under a schedule, and the choice of a thread that doesn't exist, if one
    /// ended the run. Fails if the program or the schedule is refused, or if out of memory.
    fn of(&self, alloc: Global, program: Program<'_>, schedule: &[u8]) -> Result<Shown, Fault>
        requires { length schedule.now ≤ most_bytes }
        ensures picture { IfOk result (λ shown. is_picture self.now program.entry schedule.now shown.bytes.items) }
        ensures missing { IfOk result (λ shown. IsMissingIn program.entry.image schedule.now shown.missing) }
        ensures refused { IfErr result (λ fault. status_of fault ≡ 3 → HaveNoPicture kind fault program.entry.image schedule.now) }
        ensures other { (result ≢ Err Fault.Read) × (result ≢ Err Fault.Write) × (result ≢ Err Fault.Spawn) };
}

/// Returns how many choices a picture of this kind has room for.
pub(crate) fn most_of(kind: PictureKind) -> u64
    ensures { result ≡ most_of kind }
{
    match kind {
        PictureKind::Page => MOST_PAGE_CHOICES,
        PictureKind::Drawing => MOST_CHOICES,
    }
}

/// Returns a page's fault as a command's fault for a picture of this kind.
pub fn fault_of(fault: PageFault, kind: PictureKind) -> Fault
    ensures { result ≡ fault_of fault kind }
{
    match fault {
        PageFault::Load(fault) => Fault::Load(fault),
        PageFault::Schedule(fault) => Fault::Schedule(fault),
        PageFault::Choices => Fault::TooLong(kind),
        PageFault::Trace => Fault::LongTrace,
        PageFault::Memory => Fault::Memory,
    }
}

/// Returns the fault of a program that can't be loaded, as a command's fault.
pub(crate) fn start_fault(fault: StartFault) -> Fault
    ensures { result ≡ start_fault fault }
{
    match fault {
        StartFault::Load(fault) => Fault::Load(fault),
        StartFault::Memory => Fault::Memory,
    }
}
