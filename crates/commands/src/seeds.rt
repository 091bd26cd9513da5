//! What the orders of several seeds lead to.
ghost use Rattle.std.specs.Prelude.{◌≡◌, ◌≢◌, ◌<◌, ◌≤◌, ◌+◌, ◌++◌, ◌∷◌, [], List, Some, ℕ, Err, IfErr, IfOk, IfSome, OnOk, IsTrue, length, map};
ghost use Rattle.std.specs.Io.KnownBytes.{Appends};
ghost use Rattle.line_reader.specs.Seen.{name_seen};
ghost use Rattle.indexmap.specs.IndexMap.{get};
ghost use Rattle.thread_machine.specs.{Standing.standing_of, World.world_of};
ghost use Rattle.thread_runner.specs.Endings.{standing_at};
ghost use Rattle.workbench.specs.declared.fault.Fault.{Fault};
ghost use Rattle.commands.specs.Outcomes.{AreOutcomes, Ended, IsMostFrequentFirst, is_state};
ghost use Rattle.commands.specs.{Unplanned.unplanned_status, Planning.HasThreads, Planning.Plays};
ghost use Rattle.commands.specs.Seeds.{AreOutcomesBy, HasReportedSeeds, HaveNoReport, IsEndBy, IsEndOf, IsFirstUnlike, IsSeedOf, limit_mark, plan_by};
ghost use Rattle.loader.specs.Program.{IsProgramOf, Program as Loaded};
ghost use Rattle.plans.specs.{Plan.words_in_plan, Planned.AreRuns, Planned.Shows, Progress.Progress};
ghost use Rattle.plans.specs.declared.fault.PlanFault.{PlanFault};
ghost use Rattle.commands.specs.declared.unplanned.Unplanned.TheVariants as why;

use crate::end_state::EndState;
use crate::outcomes::{Outcomes, add, sort};
use crate::plan::{MOST_CHOICES, loaded_program, planned_on};
use crate::report::push_report;
use crate::unplanned::Unplanned;
use byte_ports::Sink;
use itoa::Buffer;
use loader::Loaded;
use plans::planned::Planned;
use schedule_reader::write_schedule;
use std::alloc::{AllocError, Global};
use thread_machine::{Machine, Standing};
use thread_runner::Ending;
use trace_text::expectation::are_met;
use workbench::Program;
use workbench::fault::Fault;

/// Which orders are asked for, and how they are written.
#[derive(Clone, Copy)]
pub struct Seeds<'a> {
    /// The first seed.
    pub first: u32,
    /// How many seeds there are, 1 to 100,000. Each is one more than the seed before it.
    pub count: u32,
    /// The most choices of the order of a seed, 1 to 1,000,000, if that is given.
    pub limit: Option<u32>,
    /// What is expected of the state that each run ends in: texts such as `ended` or `t0 ended` (`trace_text`).
    pub expected: &'a [Vec<u8>],
    /// Whether schedules have the names of the threads in place of numbers.
    pub has_names: bool,
}

/// A run that ended otherwise than it was expected to.
#[derive(Drop)]
pub struct Unlike {
    /// The seed of its order.
    pub seed: u64,
    pub ending: Ending,
    /// The text of the state that it ended in, without the counts of choices and steps.
    pub state: Vec<u8>,
}

/// Appends `*` and the most choices of an order, as `*100`, or nothing if no limit is given.
#[tactic(auto, using(crate::proofs::Reports::text_steps))]
fn push_limit(text: &mut Vec<u8>, limit: Option<u32>) -> Result<(), AllocError>
    ensures { OnOk result (text.new.items ≡ text.old.items ++ limit_mark limit) }
{
    if let Some(most) = limit {
        text.extend_from_slice(b"*")?;
        text.extend_from_slice(Buffer::new().format(most).as_bytes())?;
    }
    Ok(())
}

/// Returns a plan that does what `plan` says and then makes choices by the seed, up to the limit, as `ann` LF `?7*100`. The
/// LF ends a comment in `plan`.
#[tactic(auto, using(crate::proofs::Reports::text_steps))]
fn plan_by(alloc: Global, plan: &[u8], limit: Option<u32>, seed: u64) -> Result<Vec<u8>, AllocError>
    ensures { IfOk result (λ text. text.items ≡ plan_by plan.now limit seed) }
{
    let mut text = Vec::from_slice(alloc, plan)?;
    text.extend_from_slice(b"\n?")?;
    text.extend_from_slice(Buffer::new().format(seed).as_bytes())?;
    push_limit(&mut text, limit)?;
    Ok(text)
}

/// Returns how a machine's run ended if nothing more is played. `Limit` means that the machine could go on.
fn ending_of(machine: &Machine) -> Ending
    ensures { standing_at result ≡ standing_of (world_of machine.now) }
{
    match machine.standing() {
        Standing::All => Ending::AllEnded,
        Standing::Stuck => Ending::Stuck,
        Standing::Live => Ending::Limit,
    }
}

/// Returns the run of this seed if the state in which it ended doesn't meet all of `expected`, or else `None`.
#[tactic(auto, using(crate::proofs::Seeded::judged))]
fn judged(
    alloc: Global,
    expected: &[Vec<u8>],
    seed: u64,
    ending: Ending,
    state: &EndState,
) -> Result<Option<Unlike>, AllocError>
    ensures { IfOk result (λ unlike. (run : Ended) → run.seed ≡ Some seed → run.ending ≡ ending
        → run.state ≡ state.now.text.items → IsFirstUnlike expected.now (run ∷ []) unlike) }
{
    if are_met(state.text.as_slice(), expected) {
        return Ok(None);
    }
    let state = Vec::from_slice(alloc, state.text.as_slice())?;
    Ok(Some(Unlike {
        seed,
        ending,
        state,
    }))
}

/// Plays `plan`, and then choices by `seed`, at most `limit` if that is given, on a copy of a program.
fn planned_by_seed(
    alloc: Global,
    program: &Loaded,
    names: &[&[u8]],
    plan: &[u8],
    limit: Option<u32>,
    seed: u64,
) -> Result<Planned, Unplanned>
    requires { length names.now ≤ 64 }
    ensures planned { IfOk result (λ planned. (progress : Progress) × (Plays program.now 1000000 (map name_seen names.now)
        (plan_by plan.now limit seed) progress × Shows planned progress)) }
    ensures runs { IfOk result (λ planned. AreRuns planned.runs.items) }
    ensures refused { (f : PlanFault) → result ≡ Err (Unplanned.Plan f)
        → words_in_plan (map name_seen names.now) (plan_by plan.now limit seed) ≡ Err f }
    ensures other { (f : Fault) → result ≡ Err (Unplanned.Fault f) → f ≡ Fault.Memory }
{
    let Ok(text) = plan_by(alloc, plan, limit, seed) else {
        return Err(Unplanned::Fault(Fault::Memory));
    };
    let Ok(program) = program.copy(alloc) else {
        return Err(Unplanned::Fault(Fault::Memory));
    };
    planned_on(alloc, program, names, text.as_slice(), MOST_CHOICES)
}

/// Counts the state in which a seed's run ended. Returns the run if that isn't as expected, or else `None`.
fn add_planned(
    alloc: Global,
    planned: &Planned,
    expected: &[Vec<u8>],
    seed: u64,
    outcomes: &mut Outcomes,
) -> Result<Option<Unlike>, AllocError>
    requires runs { AreRuns planned.now.runs.items }
    requires few { (other : EndState) → IfSome (get is_state outcomes.old other) (λ outcome. outcome.times < 4294967295) }
    ensures { (runs : List Ended) → AreOutcomes runs outcomes.old.entries → IfOk result (λ unlike.
        (ended : Ended) × (IsEndOf planned.now seed ended × AreOutcomes (runs ++ ended ∷ []) outcomes.new.entries
        × IsFirstUnlike expected.now (ended ∷ []) unlike)) }
{
    let ending = ending_of(&planned.machine);
    let state = EndState::of(alloc, ending, &planned.machine)?;
    let unlike = judged(alloc, expected, seed, ending, &state)?;
    let schedule = write_schedule(alloc, planned.runs.as_slice())?;
    add(outcomes, state, ending, Some(seed), schedule)?;
    Ok(unlike)
}

/// Plays a seed's run and counts the state in which it ended. Returns the run if that isn't as expected, or else `None`.
fn add_order(
    alloc: Global,
    program: &Loaded,
    names: &[&[u8]],
    plan: &[u8],
    seeds: &Seeds<'_>,
    seed: u64,
    outcomes: &mut Outcomes,
) -> Result<Option<Unlike>, Unplanned>
    requires names { length names.now ≤ 64 }
    requires few { (other : EndState) → IfSome (get is_state outcomes.old other) (λ outcome. outcome.times < 4294967295) }
    ensures added { (runs : List Ended) → AreOutcomes runs outcomes.old.entries → IfOk result (λ unlike.
        (ended : Ended) × (IsEndBy program.now (map name_seen names.now) plan.now seeds.now.limit seed ended
        × AreOutcomes (runs ++ ended ∷ []) outcomes.new.entries
        × IsFirstUnlike seeds.now.expected.now (ended ∷ []) unlike)) }
    ensures refused { (f : PlanFault) → result ≡ Err (Unplanned.Plan f)
        → words_in_plan (map name_seen names.now) (plan_by plan.now seeds.now.limit seed) ≡ Err f }
    ensures other { (f : Fault) → result ≡ Err (Unplanned.Fault f) → f ≡ Fault.Memory }
{
    let planned = match planned_by_seed(alloc, program, names, plan, seeds.limit, seed) {
        Ok(planned) => planned,
        Err(reason) => return Err(reason),
    };
    match add_planned(alloc, &planned, seeds.expected, seed, outcomes) {
        Ok(unlike) => Ok(unlike),
        Err(_) => Err(Unplanned::Fault(Fault::Memory)),
    }
}

/// What the orders of seeds came to, the most frequent first, and the first run that ended otherwise than expected.
#[derive(Drop)]
pub struct Tally {
    pub outcomes: Outcomes,
    pub unlike: Option<Unlike>,
}

/// Plays each seed's run. Returns how many ended in each state, and the first run that didn't end as expected, if any.
fn counted(
    alloc: Global,
    program: &Loaded,
    names: &[&[u8]],
    plan: &[u8],
    seeds: &Seeds<'_>,
) -> Result<Tally, Unplanned>
    requires names { length names.now ≤ 64 }
    requires few { seeds.now.count ≤ 100000 }
    ensures outcomes { IfOk result (λ tally. AreOutcomesBy program.now (map name_seen names.now) plan.now seeds.now
        tally.outcomes.entries tally.unlike) }
    ensures refused { (f : PlanFault) → result ≡ Err (Unplanned.Plan f)
        → (seed : ℕ) × (IsSeedOf seeds.now seed
        × (words_in_plan (map name_seen names.now) (plan_by plan.now seeds.now.limit seed) ≡ Err f)) }
    ensures other { (f : Fault) → result ≡ Err (Unplanned.Fault f) → f ≡ Fault.Memory }
{
    let mut outcomes = Outcomes::new(alloc);
    let mut unlike = None;
    for number in 0..seeds.count {
        let seed = u64::from(seeds.first) + u64::from(number);
        match add_order(alloc, program, names, plan, seeds, seed, &mut outcomes) {
            Ok(found) => unlike = unlike.or(found),
            Err(reason) => return Err(reason),
        }
    }
    Ok(Tally { outcomes, unlike })
}

/// Plays each seed's run. Returns how many ended in each state, the most frequent first, and the first run not as expected.
fn tally_of(
    alloc: Global,
    program: Loaded,
    names: &[&[u8]],
    plan: &[u8],
    seeds: &Seeds<'_>,
) -> Result<Tally, Unplanned>
    requires names { length names.now ≤ 64 }
    requires few { seeds.now.count ≤ 100000 }
    ensures outcomes { IfOk result (λ tally. AreOutcomesBy program (map name_seen names.now) plan.now seeds.now
        tally.outcomes.entries tally.unlike) }
    ensures sorted { IfOk result (λ tally. IsMostFrequentFirst tally.outcomes.entries) }
    ensures refused { (f : PlanFault) → result ≡ Err (Unplanned.Plan f)
        → (seed : ℕ) × (IsSeedOf seeds.now seed
        × (words_in_plan (map name_seen names.now) (plan_by plan.now seeds.now.limit seed) ≡ Err f)) }
    ensures other { (f : Fault) → result ≡ Err (Unplanned.Fault f) → f ≡ Fault.Memory }
{
    let mut tally = match counted(alloc, &program, names, plan, seeds) {
        Ok(tally) => tally,
        Err(reason) => return Err(reason),
    };
    match sort(&mut tally.outcomes) {
        Ok(()) => Ok(tally),
        Err(_) => Err(Unplanned::Fault(Fault::Memory)),
    }
}

/// Loads a program and plays each seed's run. Returns how many ended in each state, the most frequent first, and the first run
/// not as expected. Also returns the names of the threads.
fn tally_in<'a>(
    alloc: Global,
    program: Program<'a>,
    plan: &[u8],
    seeds: &Seeds<'_>,
) -> Result<(Tally, Vec<&'a [u8]>), Unplanned>
    requires { seeds.now.count ≤ 100000 }
    ensures outcomes { IfOk result (λ both. (loaded : Loaded) × (IsProgramOf program.entry.image loaded
        × AreOutcomesBy loaded (map name_seen both.1.items) plan.now seeds.now both.0.outcomes.entries both.0.unlike)) }
    ensures sorted { IfOk result (λ both. IsMostFrequentFirst both.0.outcomes.entries) }
    ensures names { IfOk result (λ both. HasThreads program.entry.image program.entry.names (map name_seen both.1.items)) }
    ensures few { IfOk result (λ both. length both.1.items ≤ 64) }
    ensures refused { IfErr result (λ reason. unplanned_status reason ≡ 3 → HaveNoReport reason program.entry plan.now seeds.now) }
    ensures other { (result ≢ Err (why.Fault Fault.Read)) × (result ≢ Err (why.Fault Fault.Write))
        × (result ≢ Err (why.Fault Fault.Spawn)) }
{
    let (loaded, names) = loaded_program(alloc, program.image, &program.names)?;
    match tally_of(alloc, loaded, names.as_slice(), plan, seeds) {
        Ok(tally) => Ok((tally, names)),
        Err(reason) => Err(reason),
    }
}

/// Plays, for each seed, a plan and then choices by the seed on a program. Writes a line for each state that a run ended in,
/// the most frequent first. The line has the number of such runs, `all`, `stuck` or `live`, with `+died` if a thread died, and
/// the first such run's seed and schedule. Returns these states, and the first run that ended differently than expected, if
/// any.
pub fn report_seeds<K: Sink>(
    alloc: Global,
    program: Program<'_>,
    plan: &[u8],
    seeds: &Seeds<'_>,
    output: &mut K,
) -> Result<Tally, Unplanned>
    requires { seeds.now.count ≤ 100000 }
    ensures done { IfOk result (λ tally. HasReportedSeeds program.entry plan.now seeds.now tally.unlike
        (K.written output.old) (K.written output.new)) }
    ensures refused { IfErr result (λ reason. unplanned_status reason ≡ 3 → HaveNoReport reason program.entry plan.now seeds.now) }
    ensures unwritten { IfErr result (λ reason. reason ≢ why.Fault Fault.Write → K.written output.new ≡ K.written output.old) }
    ensures write { result ≡ Err (why.Fault Fault.Write) → IsTrue (K.has_failed output.new) }
    ensures other { (result ≢ Err (why.Fault Fault.Read)) × (result ≢ Err (why.Fault Fault.Spawn)) }
{
    let (tally, names) = tally_in(alloc, program, plan, seeds)?;
    let told = seeds.has_names.then_some(names.as_slice());
    match push_report(alloc, told, &tally.outcomes, output) {
        Ok(()) => Ok(tally),
        Err(fault) => Err(Unplanned::Fault(fault)),
    }
}
