//! Writes a picture of a run, once it is whole.
ghost use Rattle.std.specs.Prelude.{◌≡◌, ◌≢◌, ◌⊎◌, ◌≤◌, ℕ, List, Err, IfErr, IfOk, IsTrue, OnOk, false, length};
ghost use Rattle.commands.specs.Picture.{HaveNoPicture, HaveNoPictureSoFar, ShowsNone};
ghost use Rattle.commands.specs.Pictures.{HasMade, HasMissing, HasWritten, HaveNone, program_of, schedule_behind};
ghost use Rattle.pictures.specs.Missing.{IsMissingIn};
ghost use Rattle.workbench.specs.{declared.fault.PictureKind.PictureKind, Fault.status_of};
ghost use Rattle.workbench.specs.Input.{GivesTooMuch, most_bytes};

use crate::enough::read_enough;
use crate::picture::{Picture, most_of, start_fault};
use byte_ports::{Sink, Source};
use row_code::{Image, is_image_file};
use std::alloc::Global;
use thread_machine::Choice;
use trace_text::start::first_machine;
use workbench::Program;
use workbench::fault::Fault;
use workbench::run_line::split_at_run;

/// Writes the picture of a program under the schedule in `schedule` to `output`, once it is whole. Returns the choice of a
/// thread that doesn't exist, with its number from 1, if one ended the run. It doesn't read past a fault, or past the first
/// choice too many. With `to_end` it reads on after too many choices, and reports a fault after them, if there is one.
pub fn make<P: Picture, S: Source, K: Sink>(
    alloc: Global,
    picture: &P,
    program: Program<'_>,
    schedule: &mut S,
    to_end: bool,
    output: &mut K,
) -> Result<Option<(u64, Choice)>, Fault>
    ensures done { OnOk result (HasMade (P.is_picture picture.now program.entry)
        (S.left schedule.old) (S.left schedule.new) (K.written output.old) (K.written output.new)) }
    ensures missing { IfOk result (HasMissing program.entry.image (S.left schedule.old) (S.left schedule.new)) }
    ensures refused { IfErr result (λ fault. status_of fault ≡ 3
        → HaveNone P.kind fault program.entry.image (S.left schedule.old) (S.left schedule.new)) }
    ensures unwritten { IfErr result (λ fault. fault ≢ Fault.Write → K.written output.new ≡ K.written output.old) }
    ensures read { result ≡ Err Fault.Read → IsTrue (S.has_failed schedule.new)
        ⊎ GivesTooMuch (S.left schedule.old) (S.left schedule.new) }
    ensures memory { result ≡ Err Fault.Memory → S.has_failed schedule.new ≡ false }
    ensures spawn { result ≢ Err Fault.Spawn }
    ensures write { result ≡ Err Fault.Write → IsTrue (K.has_failed output.new) }
{
    let kind = picture.kind();
    // With `u64::MAX`, reading never ends at a choice too many. `write` still refuses too many choices.
    let most = if to_end { u64::MAX } else { most_of(kind) };
    match read_enough(alloc, schedule, kind, most) {
        Ok(choices) => write(alloc, picture, program, choices.as_slice(), output),
        Err(fault) => Err(first_fault(alloc, program.image, fault)),
    }
}

/// Returns why a program has no picture, if reading its schedule failed with `fault`. If the program can't be loaded, that is
/// the reason, as it has no schedule that could be refused.
fn first_fault(alloc: Global, image: Image, fault: Fault) -> Fault
    ensures refused { (kind : PictureKind) (front : List ℕ) → ShowsNone kind fault front
        → status_of result ≡ 3 → HaveNoPictureSoFar kind result image front }
    ensures status { status_of result ≡ 3 → status_of fault ≡ 3 }
    ensures other { (result ≡ fault) ⊎ ((fault ≢ Fault.Read) × (result ≢ Fault.Read) × (result ≢ Fault.Write) × (result ≢ Fault.Spawn)) }
{
    // 3 is the status of a refusal. Any other fault, such as out of memory, is reported as it is.
    if fault.status() != 3 {
        return fault;
    }
    match first_machine(alloc, image) {
        Ok(_) => fault,
        Err(why) => start_fault(why),
    }
}

/// Returns a file's program and schedule: in a text, what precedes and follows the line `.run`. Otherwise the schedule is
/// empty.
pub fn parts_of(file: &[u8]) -> (&[u8], &[u8])
    ensures program { result.0.now ≡ program_of file.now }
    ensures schedule { result.1.now ≡ schedule_behind file.now }
    ensures within { length result.1.now ≤ length file.now }
{
    if is_image_file(file) {
        (file, &[])
    } else {
        split_at_run(file)
    }
}

/// Makes the picture of a program's run under `schedule`, and then writes it. If it can't be made, nothing is written. A choice
/// of a thread that doesn't exist ends the run, and is returned with its number in the schedule, from 1.
pub fn write<P: Picture, K: Sink>(
    alloc: Global,
    picture: &P,
    program: Program<'_>,
    schedule: &[u8],
    output: &mut K,
) -> Result<Option<(u64, Choice)>, Fault>
    requires { length schedule.now ≤ most_bytes }
    ensures done { OnOk result (HasWritten (P.is_picture picture.now program.entry schedule.now)
        (K.written output.old) (K.written output.new)) }
    ensures missing { IfOk result (λ missing. IsMissingIn program.entry.image schedule.now missing) }
    ensures refused { IfErr result (λ fault. status_of fault ≡ 3 → HaveNoPicture P.kind fault program.entry.image schedule.now) }
    ensures unwritten { IfErr result (λ fault. fault ≢ Fault.Write → K.written output.new ≡ K.written output.old) }
    ensures read { result ≢ Err Fault.Read }
    ensures spawn { result ≢ Err Fault.Spawn }
    ensures write { result ≡ Err Fault.Write → IsTrue (K.has_failed output.new) }
{
    let shown = picture.of(alloc, program, schedule)?;
    match output.push(shown.bytes.as_slice()) {
        Ok(()) => Ok(shown.missing),
        Err(_) => Err(Fault::Write),
    }
}
