//! The schedules of plans, and what the orders of seeds lead to.
ghost use Rattle.std.specs.Prelude.{◌≡◌, ◌≢◌, ◌==◌, ◌≤◌, ◌++◌, [], Err, IfErr, IfOk, IsTrue, OnErr, OnOk, Option, Some, codes, false, min, not};
ghost use Rattle.std.specs.{Fmt.decimal, Io.KnownBytes.Appends};
ghost use Rattle.vuthgal_c.specs.Beyond.{AreAsked, HasPlannedBy, IsTooMuch, Plans, PlansSteps, Reports, ReportsSeeds, SettlesPlan, SettlesUnplanned, stopped_line};
ghost use Rattle.vuthgal_c.specs.Shows.{Shows};
ghost use Rattle.commands.specs.{Planning.HasNoSchedule, Seeds.HasReportedSeeds, Seeds.HaveNoReport};
ghost use Rattle.commands.specs.{Unplanned.unplanned_status, declared.seeds.Unlike.Unlike};
ghost use Rattle.commands.specs.declared.unplanned.Unplanned.{Unplanned};
ghost use Rattle.workbench.specs.declared.fault.Fault.{Fault};

use crate::files::{is_within, whole_program};
use crate::reply::Reply;
use byte_ports::{Failed, Sink};
use commands::plan::{MOST_CHOICES, plan, plan_with_names};
use commands::seeds::{Seeds, report_seeds};
use commands::unplanned::Unplanned;
use commands::write_picture::parts_of;
use itoa::Buffer;
use std::alloc::Global;
use workbench::Program;
use workbench::fault::Fault;

/// The most seeds in one call.
const MOST_SEEDS: u32 = 100_000;

/// Writes the schedule that a plan makes for a program, of at most `most` choices, with the threads' names if `has_names`.
/// Returns whether the plan was cut off at `most`. If it fails other than by `Write`, nothing is written.
fn push_plan<K: Sink>(
    alloc: Global,
    program: Program<'_>,
    steps: &[u8],
    most: u32,
    has_names: bool,
    output: &mut K,
) -> Result<bool, Unplanned>
    requires { most ≤ 1000000 }
    ensures done { IfOk result (λ stopped. HasPlannedBy has_names stopped program.entry most steps.now (K.written output.old) (K.written output.new)) }
    ensures refused { IfErr result (λ reason. unplanned_status reason ≡ 3 → HasNoSchedule reason program.entry steps.now) }
    ensures unwritten { IfErr result (λ reason. reason ≢ Unplanned.Fault Fault.Write → K.written output.new ≡ K.written output.old) }
    ensures other { (result ≢ Err (Unplanned.Fault Fault.Read)) × (result ≢ Err (Unplanned.Fault Fault.Spawn)) }
    ensures write { result ≡ Err (Unplanned.Fault Fault.Write) → IsTrue (K.has_failed output.new) }
{
    if has_names {
        plan_with_names(alloc, program, steps, most, output)
    } else {
        plan(alloc, program, steps, most, output)
    }
}

/// Writes the schedule that the plan `steps` makes for `file`'s program, of at most `most` choices. Returns whether the plan
/// was cut off at `most`. Fails with `Read` if an input is too long.
fn planned<K: Sink>(
    alloc: Global,
    file: &[u8],
    steps: &[u8],
    most: u32,
    has_names: bool,
    output: &mut K,
) -> Result<bool, Unplanned>
    requires { most ≤ 1000000 }
    ensures plans { PlansSteps file.now steps.now most has_names result (K.written output.old) (K.written output.new) (K.has_failed output.new) }
    ensures limit { IsTooMuch file.now steps.now → result ≡ Err (Unplanned.Fault Fault.Read) }
{
    if !is_within(file) || !is_within(steps) {
        return Err(Unplanned::Fault(Fault::Read));
    }
    match whole_program(alloc, parts_of(file).0) {
        Ok(program) => push_plan(alloc, program, steps, most, has_names, output),
        Err(fault) => Err(Unplanned::Fault(fault)),
    }
}

/// Writes the line `stopped at MOST choices`, for a plan that was cut off.
fn push_stopped<E: Sink>(line: &mut E, most: u32) -> Result<(), Failed>
    ensures bytes { OnOk result (Appends (E.written line.old) (E.written line.new) (stopped_line most)) }
    ensures failed { OnErr result (IsTrue (E.has_failed line.new)) }
{
    line.push(b"stopped at ")?;
    line.push(Buffer::new().format(most).as_bytes())?;
    line.push(b" choices\n")
}

/// Returns the exit status: 0, 1 if the plan was cut off (`Ok(true)`), or a fault's. Except with 0, `line` says why.
fn settled<E: Sink>(answer: Result<bool, Unplanned>, most: u32, line: &mut E) -> u8
    ensures { SettlesPlan most answer result (E.has_failed line.new) (E.written line.old) (E.written line.new) }
{
    match answer {
        Ok(false) => 0,
        Ok(true) => {
            let _ = push_stopped(line, most);
            1
        }
        Err(why) => {
            let _ = why.tell(line);
            why.status()
        }
    }
}

/// Writes the schedule of `plan`, of at most `most` choices and at most 1,000,000, to `output` and a fault to `line`, as far as
/// they fit, and their lengths. If `names` isn't 0, threads have their names, so that the schedule is a plan. Returns 0, 1 if
/// the plan was cut off, or 3 to 5 for a fault.
#[unsafe(no_mangle)]
pub extern "C" fn vuthgal_plan(
    alloc: Global,
    program: &[u8],
    plan: &[u8],
    most: u32,
    names: u8,
    output: &mut [u8],
    output_length: &mut usize,
    line: &mut [u8],
    line_length: &mut usize,
) -> u8
    ensures { Shows (Plans program.now plan.now (min most 1000000) (not (names == 0))) result output.old output.new output_length.new line.old line.new line_length.new }
{
    let mut reply = Reply::new(alloc, output.len(), line.len());
    let most = most.min(MOST_CHOICES);
    let answer = planned(alloc, program, plan, most, names != 0, &mut reply.shown);
    let status = settled(answer, most, &mut reply.told);
    reply.hand(status, output, output_length, line, line_length)
}

/// Returns what a caller asks for as `Seeds`: at most 100,000 seeds, and no limit on choices if `limit` is 0.
fn asked(first: u32, count: u32, limit: u32, names: u8) -> Seeds<'static>
    ensures { AreAsked first count limit names result }
{
    Seeds {
        first,
        count: count.min(MOST_SEEDS),
        limit: if limit == 0 {
            None
        } else {
            Some(limit.min(MOST_CHOICES))
        },
        expected: &[],
        has_names: names != 0,
    }
}

/// Plays a program once for each seed, after the plan `steps`, and writes a line for each state in which a run ended. If it
/// fails other than by `Write`, nothing is written.
fn push_report<K: Sink>(
    alloc: Global,
    program: Program<'_>,
    steps: &[u8],
    seeds: &Seeds<'_>,
    output: &mut K,
) -> Result<(), Unplanned>
    requires { seeds.now.count ≤ 100000 }
    ensures done { OnOk result ((unlike : Option Unlike) × HasReportedSeeds program.entry steps.now seeds.now unlike
        (K.written output.old) (K.written output.new)) }
    ensures refused { IfErr result (λ reason. unplanned_status reason ≡ 3 → HaveNoReport reason program.entry steps.now seeds.now) }
    ensures unwritten { IfErr result (λ reason. reason ≢ Unplanned.Fault Fault.Write → K.written output.new ≡ K.written output.old) }
    ensures other { (result ≢ Err (Unplanned.Fault Fault.Read)) × (result ≢ Err (Unplanned.Fault Fault.Spawn)) }
    ensures write { result ≡ Err (Unplanned.Fault Fault.Write) → IsTrue (K.has_failed output.new) }
{
    match report_seeds(alloc, program, steps, seeds, output) {
        Ok(_) => Ok(()),
        Err(why) => Err(why),
    }
}

/// Plays the program in `file` for each seed, and writes a line for each end state. Fails with `Read` if an input is too long.
fn reported<K: Sink>(
    alloc: Global,
    file: &[u8],
    steps: &[u8],
    seeds: &Seeds<'_>,
    output: &mut K,
) -> Result<(), Unplanned>
    requires { seeds.now.count ≤ 100000 }
    ensures reports { ReportsSeeds file.now steps.now seeds.now result (K.written output.old) (K.written output.new) (K.has_failed output.new) }
    ensures limit { IsTooMuch file.now steps.now → result ≡ Err (Unplanned.Fault Fault.Read) }
{
    if !is_within(file) || !is_within(steps) {
        return Err(Unplanned::Fault(Fault::Read));
    }
    match whole_program(alloc, parts_of(file).0) {
        Ok(program) => push_report(alloc, program, steps, seeds, output),
        Err(fault) => Err(Unplanned::Fault(fault)),
    }
}

/// Returns the exit status: 0, or a fault's, whose line is written to `line`. The status is the same if that fails.
pub fn settled_unplanned<E: Sink>(answer: Result<(), Unplanned>, line: &mut E) -> u8
    ensures { SettlesUnplanned answer result (E.has_failed line.new) (E.written line.old) (E.written line.new) }
{
    match answer {
        Ok(()) => 0,
        Err(why) => {
            let _ = why.tell(line);
            why.status()
        }
    }
}

/// Plays `program` once for each of `count` seeds from `first` on, at most 100,000: `plan`, and then an order by the seed. If
/// `limit` isn't 0, an order has at most `limit` choices. Writes a line for each state that a run ended in to `output` and a
/// fault to `line`, as far as they fit, and their lengths. Returns 0, or 3 to 5 for a fault.
#[unsafe(no_mangle)]
pub extern "C" fn vuthgal_seeds(
    alloc: Global,
    program: &[u8],
    plan: &[u8],
    first: u32,
    count: u32,
    limit: u32,
    names: u8,
    output: &mut [u8],
    output_length: &mut usize,
    line: &mut [u8],
    line_length: &mut usize,
) -> u8
    ensures { Shows (Reports program.now plan.now (AreAsked first count limit names)) result output.old output.new output_length.new line.old line.new line_length.new }
{
    let seeds = asked(first, count, limit, names);
    let mut reply = Reply::new(alloc, output.len(), line.len());
    let answer = reported(alloc, program, plan, &seeds, &mut reply.shown);
    let status = settled_unplanned(answer, &mut reply.told);
    reply.hand(status, output, output_length, line, line_length)
}
