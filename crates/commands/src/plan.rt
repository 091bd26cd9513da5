//! The schedule of a plan.
ghost use Rattle.std.specs.Prelude.{◌≡◌, ◌≢◌, ◌⊎◌, ◌≤◌, Err, IfErr, IfOk, IfSome, IsTrue, Ok, length, map};
ghost use Rattle.std.specs.Io.KnownBytes.{Appends};
ghost use Rattle.commands.specs.{Named.line_by, Named.names_seen, Unplanned.unplanned_status};
ghost use Rattle.commands.specs.Planning.{ComesOfPlan, HasNamedPlanned, HasNoSchedule, HasPlanned, HasThreads, IsUnloadedFor, Plays, thread_name, thread_names};
ghost use Rattle.commands.specs.declared.unplanned.Unplanned.TheVariants as why;
ghost use Rattle.line_reader.specs.Seen.{name_seen};
ghost use Rattle.loader.specs.Program.{IsProgramOf};
ghost use Rattle.plans.specs.{Plan.is_memory, Plan.words_in_plan, Tree.IsPlan, declared.fault.PlanFault.PlanFault};
ghost use Rattle.plans.specs.{Planned.AreRuns, Planned.Shows, Progress.Progress};
ghost use Rattle.workbench.specs.{Fault.status_of, declared.fault.Fault.Fault};

use crate::named::text_by;
use crate::unplanned::Unplanned;
use assembler::Symbols;
use byte_ports::Sink;
use instruction_table::OperandKind;
use loader::{Loaded, load};
use plans::fault::{PlanFault, PlanFaultKind};
use plans::plan_runs::plan_runs;
use plans::planned::Planned;
use plans::read_plan;
use plans::words::Words;
use row_code::Image;
use std::alloc::{AllocError, Global};
use workbench::Program;
use workbench::fault::Fault;

/// The most choices that a plan makes.
pub const MOST_CHOICES: u32 = 1_000_000;

/// Returns the name of a thread, or an empty one if it has none.
fn thread_name<'a>(symbols: &Symbols<'a>, thread: u32) -> &'a [u8]
    ensures { result.now ≡ thread_name symbols.now thread }
{
    match symbols.name_of(OperandKind::Thread, thread) {
        Some(name) => name,
        None => &[],
    }
}

/// Returns the names of the first `count` threads, each empty if the thread has none.
pub fn thread_names<'a>(
    alloc: Global,
    symbols: &Symbols<'a>,
    count: usize,
) -> Result<Vec<&'a [u8]>, AllocError>
    requires { count ≤ 64 }
    ensures { IfOk result (λ names. map name_seen names.items ≡ thread_names symbols.now count) }
{
    let mut names = Vec::new(alloc);
    for thread in 0..count {
        names.push(thread_name(symbols, thread as u32))?;
    }
    Ok(names)
}

/// Loads an image's program, and returns it with the names of its threads, in order. A thread without a name has an empty one.
/// `each_program_is_whole` does nothing but state that there are at most 64 threads.
pub fn loaded_program<'a>(
    alloc: Global,
    image: Image,
    names: &Symbols<'a>,
) -> Result<(Loaded, Vec<&'a [u8]>), Fault>
    ensures program { IfOk result (λ both. IsProgramOf image both.0) }
    ensures names { IfOk result (λ both. HasThreads image names.now (map name_seen both.1.items)) }
    ensures few { IfOk result (λ both. length both.1.items ≤ 64) }
    ensures refused { IfErr result (λ fault. status_of fault ≡ 3 → IsUnloadedFor fault image) }
    ensures other { (result ≢ Err Fault.Read) × (result ≢ Err Fault.Write) × (result ≢ Err Fault.Spawn) }
{
    let loaded = match load(alloc, image) {
        Ok(loaded) => loaded,
        Err(fault) => return Err(Fault::Load(fault)),
    };
    loaded.each_program_is_whole();
    match thread_names(alloc, names, loaded.threads().len()) {
        Ok(names) => Ok((loaded, names)),
        Err(_) => Err(Fault::Memory),
    }
}

/// Returns the words of a plan for threads of these names, or what is wrong with them.
fn plan_words(alloc: Global, plan: &[u8], names: &[&[u8]]) -> Result<Words, Unplanned>
    requires { length names.now ≤ 64 }
    ensures words { IfOk result (λ words. words_in_plan (map name_seen names.now) plan.now ≡ Ok words) }
    ensures whole { IfOk result (λ words. IsPlan words) }
    ensures refused { (f : PlanFault) → result ≡ Err (Unplanned.Plan f)
        → words_in_plan (map name_seen names.now) plan.now ≡ Err f }
    ensures other { (f : Fault) → result ≡ Err (Unplanned.Fault f) → f ≡ Fault.Memory }
{
    match read_plan(alloc, plan, names) {
        Ok(words) => Ok(words),
        Err(
            PlanFault {
                kind: PlanFaultKind::Memory,
                ..
            },
        ) => Err(Unplanned::Fault(Fault::Memory)),
        Err(fault) => Err(Unplanned::Plan(fault)),
    }
}

/// Plays a plan, up to `most` choices, on a loaded program whose threads have these names. Returns its runs of choices, and the
/// machine after them. Fails only for a fault of the plan, or if out of memory.
pub(crate) fn planned_on(
    alloc: Global,
    program: Loaded,
    names: &[&[u8]],
    plan: &[u8],
    most: u32,
) -> Result<Planned, Unplanned>
    requires names { length names.now ≤ 64 }
    requires most { most ≤ 1000000 }
    ensures planned { IfOk result (λ planned. (progress : Progress) × (Plays program most (map name_seen names.now) plan.now progress
        × Shows planned progress)) }
    ensures runs { IfOk result (λ planned. AreRuns planned.runs.items) }
    ensures refused { (f : PlanFault) → result ≡ Err (Unplanned.Plan f)
        → words_in_plan (map name_seen names.now) plan.now ≡ Err f }
    ensures other { (f : Fault) → result ≡ Err (Unplanned.Fault f) → f ≡ Fault.Memory }
{
    let words = match plan_words(alloc, plan, names) {
        Ok(words) => words,
        Err(reason) => return Err(reason),
    };
    match plan_runs(alloc, program, &words.all(), most) {
        Ok(planned) => Ok(planned),
        Err(_) => Err(Unplanned::Fault(Fault::Memory)),
    }
}

/// Plays a plan, up to 1,000,000 choices, on a copy of a program. Returns its runs of choices, and the machine after them.
pub fn planned_in(alloc: Global, program: &Program<'_>, plan: &[u8]) -> Result<Planned, Unplanned>
    ensures planned { IfOk result (λ planned. (progress : Progress) × (ComesOfPlan program.now 1000000 plan.now progress
        × Shows planned progress)) }
    ensures runs { IfOk result (λ planned. AreRuns planned.runs.items) }
    ensures refused { IfErr result (λ reason. unplanned_status reason ≡ 3 → HasNoSchedule reason program.now plan.now) }
    ensures other { (result ≢ Err (why.Fault Fault.Read)) × (result ≢ Err (why.Fault Fault.Write))
        × (result ≢ Err (why.Fault Fault.Spawn)) }
{
    let Ok(image) = program.image.copy(alloc) else {
        return Err(Unplanned::Fault(Fault::Memory));
    };
    let (loaded, names) = loaded_program(alloc, image, &program.names)?;
    planned_on(alloc, loaded, names.as_slice(), plan, MOST_CHOICES)
}

/// Writes a plan's choices as a line, with `names` if given. If out of memory, it writes nothing. Returns whether the plan was
/// cut off at its limit of choices.
fn push_planned<K: Sink>(
    alloc: Global,
    planned: &Planned,
    names: Option<&[&[u8]]>,
    output: &mut K,
) -> Result<bool, Unplanned>
    requires runs { AreRuns planned.now.runs.items }
    requires names { IfSome names (λ names. length names.now ≤ 64) }
    ensures stopped { IfOk result (λ stopped. stopped ≡ planned.now.stopped) }
    ensures bytes { IfOk result (λ stopped. Appends (K.written output.old) (K.written output.new)
        (line_by (names_seen names.entry) planned.now.runs.items)) }
    ensures unwritten { IfErr result (λ reason. reason ≢ why.Fault Fault.Write → K.written output.new ≡ K.written output.old) }
    ensures fault { IfErr result (λ reason. (reason ≡ why.Fault Fault.Memory) ⊎ (reason ≡ why.Fault Fault.Write)) }
    ensures write { result ≡ Err (why.Fault Fault.Write) → IsTrue (K.has_failed output.new) }
{
    let Ok(text) = text_by(alloc, names, planned.runs.as_slice()) else {
        return Err(Unplanned::Fault(Fault::Memory));
    };
    if output.push(text.as_slice()).is_err() || output.push(b"\n").is_err() {
        return Err(Unplanned::Fault(Fault::Write));
    }
    Ok(planned.stopped)
}

/// Plays a plan, up to `most` choices, on a program, which it consumes. Returns its runs of choices, and the threads' names.
fn planned_of<'a>(
    alloc: Global,
    program: Program<'a>,
    plan: &[u8],
    most: u32,
) -> Result<(Planned, Vec<&'a [u8]>), Unplanned>
    requires { most ≤ 1000000 }
    ensures planned { IfOk result (λ both. (progress : Progress) × (ComesOfPlan program.entry most plan.now progress
        × Shows both.0 progress)) }
    ensures runs { IfOk result (λ both. AreRuns both.0.runs.items) }
    ensures names { IfOk result (λ both. HasThreads program.entry.image program.entry.names (map name_seen both.1.items)) }
    ensures few { IfOk result (λ both. length both.1.items ≤ 64) }
    ensures refused { IfErr result (λ reason. unplanned_status reason ≡ 3 → HasNoSchedule reason program.entry plan.now) }
    ensures other { (result ≢ Err (why.Fault Fault.Read)) × (result ≢ Err (why.Fault Fault.Write))
        × (result ≢ Err (why.Fault Fault.Spawn)) }
{
    let (loaded, names) = loaded_program(alloc, program.image, &program.names)?;
    match planned_on(alloc, loaded, names.as_slice(), plan, most) {
        Ok(planned) => Ok((planned, names)),
        Err(reason) => Err(reason),
    }
}

/// Writes the schedule that a plan stands for on a program, as one line. The line is complete before anything is written.
/// Returns whether the plan needed more than `most` choices. Then the choices so far are written.
pub fn plan<K: Sink>(
    alloc: Global,
    program: Program<'_>,
    plan: &[u8],
    most: u32,
    output: &mut K,
) -> Result<bool, Unplanned>
    requires { most ≤ 1000000 }
    ensures done { IfOk result (λ stopped. HasPlanned stopped program.entry most plan.now (K.written output.old) (K.written output.new)) }
    ensures refused { IfErr result (λ reason. unplanned_status reason ≡ 3 → HasNoSchedule reason program.entry plan.now) }
    ensures unwritten { IfErr result (λ reason. reason ≢ why.Fault Fault.Write
        → K.written output.new ≡ K.written output.old) }
    ensures other { (result ≢ Err (why.Fault Fault.Read)) × (result ≢ Err (why.Fault Fault.Spawn)) }
    ensures write { result ≡ Err (why.Fault Fault.Write) → IsTrue (K.has_failed output.new) }
{
    let (planned, _names) = planned_of(alloc, program, plan, most)?;
    // `None`: with numbers, not names.
    push_planned(alloc, &planned, None, output)
}

/// Writes the schedule that a plan stands for as one line with names for numbers, which is a plan, too. Returns whether the
/// plan needed more than `most` choices. Then the choices so far are written.
pub fn plan_with_names<K: Sink>(
    alloc: Global,
    program: Program<'_>,
    plan: &[u8],
    most: u32,
    output: &mut K,
) -> Result<bool, Unplanned>
    requires { most ≤ 1000000 }
    ensures done { IfOk result (λ stopped. HasNamedPlanned stopped program.entry most plan.now (K.written output.old) (K.written output.new)) }
    ensures refused { IfErr result (λ reason. unplanned_status reason ≡ 3 → HasNoSchedule reason program.entry plan.now) }
    ensures unwritten { IfErr result (λ reason. reason ≢ why.Fault Fault.Write
        → K.written output.new ≡ K.written output.old) }
    ensures other { (result ≢ Err (why.Fault Fault.Read)) × (result ≢ Err (why.Fault Fault.Spawn)) }
    ensures write { result ≡ Err (why.Fault Fault.Write) → IsTrue (K.has_failed output.new) }
{
    let (planned, names) = planned_of(alloc, program, plan, most)?;
    push_planned(alloc, &planned, Some(names.as_slice()), output)
}
