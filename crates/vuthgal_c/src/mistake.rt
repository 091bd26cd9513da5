//! Where a program, a plan or a schedule is refused, and what helps.
ghost use Rattle.std.specs.Prelude.{◌≡◌, ◌≢◌, ◌≤◌, ◌⊎◌, Err, IfErr, IfOk, None, OnOk, length, map};
ghost use Rattle.commands.specs.Unplanned.{unplanned_status};
ghost use Rattle.commands.specs.declared.unplanned.Unplanned.TheVariants as why;
ghost use Rattle.line_reader.specs.Seen.{name_seen};
ghost use Rattle.schedule_reader.specs.Schedule.{finished_schedule};
ghost use Rattle.workbench.specs.declared.fault.Fault.{Fault};
ghost use Rattle.vuthgal_c.specs.{Beyond.IsTooMuch, Places.no_place, Shows.Shows, declared.mistake.Mistake.Mistake};
ghost use Rattle.vuthgal_c.specs.Mistakes.{HasNames, IsNotLoaded, IsPlaced, IsPlacedLoad, IsProgramOf, IsRight, IsRightPlan, IsWrongPlan, IsWrongSchedule, LacksProgram, Mistakes, Refuses, is_text, kind_of, offset_of, text_in, text_place};

use crate::files::is_within;
use crate::place::PlaceLook;
use crate::planning::settled_unplanned;
use crate::reply::Reply;
use assembler::word_place::line_at;
use byte_ports::{MemorySink, Sink};
use commands::plan::loaded_program;
use commands::unplanned::Unplanned;
use commands::write_picture::parts_of;
use plans::read_plan;
use refusals::entry::push_pieces;
use refusals::question::question_in_line;
use schedule_reader::{ScheduleFault, read_schedule};
use std::alloc::Global;
use suggestions::hint::{Hint, help_if_any};
use suggestions::load_fault::{hint_at_load, place_of_load};
use suggestions::plan_fault::{hint_in_plan, place_in_plan};
use suggestions::program_fault::hint_in_program;
use suggestions::schedule_fault::{Origin, helps_in_schedule};
use workbench::Program;
use workbench::fault::Fault;
use workbench::program::{program_in, program_of_text};
use workbench::run_line::split_at_run;

/// Room for the line of a refusal.
const LONGEST_LINE: usize = 64;

/// The numbers of a plan, here, and of a schedule, below, as kinds of input. The program has 0.
const PLAN: u8 = 1;

const SCHEDULE: u8 = 2;

/// What is looked at: a program alone, a plan or a schedule of it, or a text with its schedule.
#[derive(Clone, Copy, PartialEq, Eq)]
enum Kind {
    Program,
    Plan,
    Schedule,
    Text,
}

/// Returns what a caller asks to have looked at, from its number: 1 a plan, 2 a schedule, 3 a text, any other a program.
fn kind_of(number: u8) -> Kind
    ensures { result ≡ kind_of number }
{
    match number {
        PLAN => Kind::Plan,
        SCHEDULE => Kind::Schedule,
        3 => Kind::Text,
        _ => Kind::Program,
    }
}

/// Why something is refused, where, and the line that helps.
#[derive(Drop)]
struct Mistake {
    why: Unplanned,
    place: PlaceLook,
    hint: Hint,
}

impl Mistake {
    /// Returns the mistake for a fault that is at no place of an input, such as out of memory. It has no line that helps.
    fn nowhere(fault: Fault) -> Mistake
        ensures why { result.why ≡ why.Fault fault }
        ensures place { result.place ≡ no_place }
    {
        Mistake {
            why: Unplanned::Fault(fault),
            place: PlaceLook::none(),
            hint: Ok(None),
        }
    }
}

/// Returns the part of a file that is read as its program. For a plan and a text this ends at the line `.run`, which a schedule
/// follows. Any other file is all program.
fn text_in(kind: Kind, file: &[u8]) -> &[u8]
    ensures { result.now ≡ text_in kind file.now }
{
    match kind {
        Kind::Program | Kind::Schedule => file,
        Kind::Plan => parts_of(file).0,
        Kind::Text => split_at_run(file).0,
    }
}

/// Returns the mistake of a file that is no program, because of this fault: its place, and the line that helps.
fn no_program(alloc: Global, file: &[u8], text: &[u8], fault: Fault) -> Mistake
    ensures why { result.why ≡ why.Fault fault }
    ensures place { result.place ≡ text_place fault }
{
    match fault {
        Fault::Asm(placed) => Mistake {
            why: Unplanned::Fault(fault),
            place: PlaceLook::of_word(placed.fault.line, placed.at, 0),
            hint: hint_in_program(alloc, file, text, placed),
        },
        _ => Mistake::nowhere(fault),
    }
}

/// Returns the mistake of a program that the loader refuses with this fault: its place, and the line that helps.
fn not_loaded(alloc: Global, file: &[u8], text: &[u8], fault: Fault) -> Mistake
    ensures why { result.why ≡ why.Fault fault }
    ensures place { IsPlacedLoad fault result.place }
{
    let Fault::Load(load) = fault else {
        return Mistake::nowhere(fault);
    };
    let place = match place_of_load(alloc, text, load) {
        Some((line, part)) => PlaceLook::of_word(line, part, 0),
        None => PlaceLook::none(),
    };
    Mistake {
        why: Unplanned::Fault(fault),
        place,
        hint: hint_at_load(alloc, file, text, load),
    }
}

/// Returns whether the file is always read as a text. Otherwise it may also be an image.
fn is_text(kind: Kind) -> bool
    ensures { result ≡ is_text kind }
{
    matches!(kind, Kind::Text)
}

/// Returns the program in a file, without the schedule that may follow it, or the mistake if the file has no program.
fn program_of(alloc: Global, kind: Kind, file: &[u8]) -> Result<Program<'_>, Mistake>
    ensures program { IfOk result (λ program. IsProgramOf kind file.now program) }
    ensures none { IfErr result (λ mistake. LacksProgram kind file.now mistake.why mistake.place) }
{
    let text = text_in(kind, file);
    let program = if is_text(kind) {
        program_of_text(alloc, text)
    } else {
        program_in(alloc, text)
    };
    match program {
        Ok(program) => Ok(program),
        Err(fault) => Err(no_program(alloc, file, text, fault)),
    }
}

/// Loads a file's program, and returns the names of its threads, or the mistake if the program is refused.
fn names_of(alloc: Global, kind: Kind, file: &[u8]) -> Result<Vec<&[u8]>, Mistake>
    ensures names { IfOk result (λ names. HasNames kind file.now (map name_seen names.items)) }
    ensures few { IfOk result (λ names. length names.items ≤ 64) }
    ensures none { IfErr result (λ mistake. unplanned_status mistake.why ≡ 3
        → LacksProgram kind file.now mistake.why mistake.place ⊎ IsNotLoaded kind file.now mistake.why mistake.place) }
{
    let Program { image, names, .. } = match program_of(alloc, kind, file) {
        Ok(program) => program,
        Err(mistake) => return Err(mistake),
    };
    match loaded_program(alloc, image, &names) {
        Ok((_, names)) => Ok(names),
        Err(fault) => Err(not_loaded(alloc, file, text_in(kind, file), fault)),
    }
}

/// Reads a plan for threads of these names. Fails with its mistake if it has one.
fn plan_read(alloc: Global, plan: &[u8], names: &[&[u8]]) -> Result<(), Mistake>
    requires { length names.now ≤ 64 }
    ensures read { OnOk result (IsRightPlan (map name_seen names.now) plan.now) }
    ensures mistake { IfErr result (λ mistake. IsWrongPlan (map name_seen names.now) plan.now mistake.why mistake.place) }
{
    let fault = match read_plan(alloc, plan, names) {
        Ok(_) => return Ok(()),
        Err(fault) => fault,
    };
    let part = place_in_plan(alloc, plan, names, fault).unwrap_or(None);
    Err(Mistake {
        why: Unplanned::Plan(fault),
        place: PlaceLook::of_word(fault.line, part, PLAN),
        hint: hint_in_plan(alloc, plan, names, fault, part),
    })
}

/// Returns how many bytes of the schedule precede its fault. A lack of memory has no place, and gets 0.
fn offset_of(fault: ScheduleFault) -> u64
    ensures { result ≡ offset_of fault }
{
    match fault {
        ScheduleFault::Byte(at) | ScheduleFault::Number(at) | ScheduleFault::Repeat(at) => at,
        ScheduleFault::Memory => 0,
    }
}

/// Reads a schedule, which is the end of `file`. If it has a mistake, fails with that: the place is counted in `file`, of which
/// `input` is the kind. `origin` says where the schedule is from, on which the advice depends.
fn schedule_read(
    alloc: Global,
    file: &[u8],
    schedule: &[u8],
    input: u8,
    origin: Origin,
) -> Result<(), Mistake>
    requires part { length schedule.now ≤ length file.now }
    requires few { length file.now ≤ 16777216 }
    ensures read { OnOk result ((finished_schedule schedule.now).fault ≡ None) }
    ensures mistake { IfErr result (λ mistake. IsWrongSchedule file.now schedule.now input mistake.why mistake.place) }
{
    let fault = match read_schedule(alloc, schedule) {
        Ok(_) => return Ok(()),
        Err(fault) => fault,
    };
    let before = file.len() - schedule.len();
    let at = before.saturating_add(offset_of(fault) as usize);
    let place = PlaceLook::behind(file.get(..at).unwrap_or(file), input);
    let line = line_at(file, place.line).unwrap_or(&[]);
    let column = place.column.saturating_sub(1) as usize;
    let helps = helps_in_schedule(schedule, line, column, origin);
    Err(Mistake {
        why: Unplanned::Fault(Fault::Schedule(fault)),
        place,
        hint: help_if_any(alloc, helps),
    })
}

/// Reads the program in `file`, and for a plan or a schedule also `input`. Fails with the first mistake, if there is one.
fn looked_at(alloc: Global, kind: Kind, file: &[u8], input: &[u8]) -> Result<(), Mistake>
    ensures right { OnOk result (IsRight kind file.now input.now) }
    ensures mistake { IfErr result (λ mistake. unplanned_status mistake.why ≡ 3
        → Refuses kind file.now input.now mistake.why mistake.place) }
    ensures limit { IsTooMuch file.now input.now
        → (mistake : Mistake) × ((result ≡ Err mistake) × (mistake.why ≡ why.Fault Fault.Read)) }
{
    if !is_within(file) || !is_within(input) {
        return Err(Mistake::nowhere(Fault::Read));
    }
    let names = match names_of(alloc, kind, file) {
        Ok(names) => names,
        Err(mistake) => return Err(mistake),
    };
    match kind {
        Kind::Program => Ok(()),
        Kind::Plan => plan_read(alloc, input, names.as_slice()),
        Kind::Schedule => schedule_read(alloc, input, input, SCHEDULE, Origin::File),
        Kind::Text => schedule_read(alloc, file, split_at_run(file).1, 0, Origin::Beside),
    }
}

/// Returns the general line of help for this kind of refusal, as `vuthgal explain` has it, or `None` if it has none.
fn entry_hint(alloc: Global, why: Unplanned) -> Hint {
    // None: no write fails before the room is used up.
    let mut line = MemorySink::new(alloc, LONGEST_LINE, None)?;
    if why.tell(&mut line).is_err() {
        return Ok(None);
    }
    let helps = question_in_line(alloc, line.bytes())?.map_or("", |question| question.entry.helps);
    help_if_any(alloc, (!helps.is_empty()).then_some(helps))
}

/// Writes the line that helps with the wrong word, or else with the refusal. `let _`: a line that fails is left out.
fn push_hint<K: Sink>(alloc: Global, mistake: &Mistake, output: &mut K) {
    let hint = match &mistake.hint {
        Ok(Some(line)) => {
            let _ = push_pieces(output, &[line.as_slice(), b"\n"]);
            return;
        }
        _ => entry_hint(alloc, mistake.why),
    };
    if let Ok(Some(line)) = hint {
        let _ = push_pieces(output, &[line.as_slice(), b"\n"]);
    }
}

/// Looks for the first mistake in the program in `file`, or in its plan or schedule in `input`, as `kind` says. If it finds one
/// (the reason's status is 3), it writes the line that helps to `output`, sets `place`, and fails with the reason. It also
/// fails if it is out of memory (4) or a text is too long (5). In these two cases, and if there is no mistake, it writes
/// nothing, and `place` is no place.
fn find_mistake<K: Sink>(
    alloc: Global,
    kind: Kind,
    file: &[u8],
    input: &[u8],
    output: &mut K,
    place: &mut PlaceLook,
) -> Result<(), Unplanned>
    ensures right { OnOk result (IsRight kind file.now input.now) }
    ensures mistake { IfErr result (λ reason. unplanned_status reason ≡ 3 → Refuses kind file.now input.now reason place.new) }
    ensures none { IfErr result (λ reason. unplanned_status reason ≢ 3 → place.new ≡ no_place) }
    ensures nothing { OnOk result (place.new ≡ no_place) }
    ensures limit { IsTooMuch file.now input.now → result ≡ Err (why.Fault Fault.Read) }
    ensures unwritten { OnOk result (K.written output.new ≡ K.written output.old) }
    ensures silent { IfErr result (λ reason. unplanned_status reason ≢ 3 → K.written output.new ≡ K.written output.old) }
{
    *place = PlaceLook::none();
    match looked_at(alloc, kind, file, input) {
        Ok(()) => Ok(()),
        Err(mistake) => {
            if mistake.why.status() == 3 {
                push_hint(alloc, &mistake, output);
                *place = mistake.place;
            }
            Err(mistake.why)
        }
    }
}

/// Looks for the first mistake in `program`, or in `input`, a plan or a schedule of it by `kind`. Writes the wrong word's place
/// to `place`, what helps to `output`, and the refusal's line to `line`, as far as they fit, and their lengths. Returns 0 if
/// there is no mistake, 3 if there is one, or 4 or 5 for another fault.
#[unsafe(no_mangle)]
pub extern "C" fn vuthgal_mistake(
    alloc: Global,
    program: &[u8],
    kind: u8,
    input: &[u8],
    place: &mut PlaceLook,
    output: &mut [u8],
    output_length: &mut usize,
    line: &mut [u8],
    line_length: &mut usize,
) -> u8
    ensures shown { Shows (Mistakes (kind_of kind) program.now input.now) result output.old output.new output_length.new line.old line.new line_length.new }
    ensures place { IsPlaced (kind_of kind) program.now input.now result place.new }
{
    let mut reply = Reply::new(alloc, output.len(), line.len());
    let answer = find_mistake(
        alloc,
        kind_of(kind),
        program,
        input,
        &mut reply.shown,
        place,
    );
    let status = settled_unplanned(answer, &mut reply.told);
    let status = reply.hand(status, output, output_length, line, line_length);
    // The place is already set if `hand` had no memory for the reply, and returned 4.
    if status != 3 {
        *place = PlaceLook::none();
    }
    status
}
