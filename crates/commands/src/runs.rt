//! Several runs of one program.
ghost use Rattle.std.specs.Prelude.{◌≡◌, ◌⊎◌, ◌<◌, ◌≤◌, ◌++◌, ◌∷◌, [], All, List, None, Some, IfErr, IfOk, IfSome, OnOk, length};
ghost use Rattle.std.specs.String.{string_bytes};
ghost use Rattle.schedule_reader.specs.{Joined.AreJoined, Schedule.choices_of, Schedule.finished_schedule};
ghost use Rattle.indexmap.specs.IndexMap.{get};
ghost use Rattle.thread_machine.specs.World.{World, first_world, world_of};
ghost use Rattle.thread_runner.specs.{Endings.ending_of, Replay.IsRecordOf, Replay.IsReplayOfText};
ghost use Rattle.workbench.specs.declared.fault.Fault.{Fault};
ghost use Rattle.commands.specs.Outcomes.{AreOutcomes, Ended, IsEndedFrom, is_state};

use crate::end_state::EndState;
use crate::outcomes::{Outcomes, add};
use crate::pauses::{Pauses, Pausing};
use loader::Loaded;
use schedule_reader::{joined, read_schedule, write_schedule};
use std::alloc::Global;
use std::sync::Wait;
use std::thread::Threads;
use thread_runner::{Gate, LiveRun, run_live};
use workbench::fault::Fault;
use workbench::live::fault_of_live;

/// Plays a copy of a program on real threads, with at most `limit` steps. Returns its recorded schedule and how it ended.
fn run_once<R: Threads + Wait + Sync, G: Gate + Sync>(
    rt: &R,
    alloc: Global,
    program: &Loaded,
    limit: u32,
    gate: &G,
) -> Result<LiveRun, Fault>
    requires { limit ≤ 1000000000 }
    ensures record { IfOk result (λ run.
        IsRecordOf (first_world program.now limit) run.schedule.items (world_of run.machine)) }
    ensures few { IfOk result (λ run. length run.schedule.items ≤ 4000000000) }
    ensures ending { IfOk result (λ run. ending_of (world_of run.machine) ≡ Some run.ending) }
    ensures fault { IfErr result (λ fault. (fault ≡ Fault.Memory) ⊎ (fault ≡ Fault.Spawn)) }
{
    let Ok(program) = program.copy(alloc) else {
        return Err(Fault::Memory);
    };
    match run_live(rt, alloc, program, limit, gate) {
        Ok(run) => Ok(run),
        Err(fault) => Err(fault_of_live(fault)),
    }
}

/// Returns the same schedule with repeated choices joined, as `t0*3` for `t0 t0 t0`. Fails only if out of memory.
fn shown(alloc: Global, schedule: &[u8]) -> Result<String, Fault>
    requires { length schedule.now ≤ 4000000000 }
    ensures fault { OnOk result ((finished_schedule schedule.now).fault ≡ None) }
    ensures shown { IfOk result (λ text. (finished_schedule (string_bytes text)).fault ≡ None) }
    ensures choices { IfOk result (λ text. choices_of (finished_schedule (string_bytes text)).runs
        ≡ choices_of (finished_schedule schedule.now).runs) }
    ensures joined { IfOk result (λ text. AreJoined (finished_schedule (string_bytes text)).runs) }
    ensures memory { IfErr result (λ fault. fault ≡ Fault.Memory) }
{
    let Ok(runs) = read_schedule(alloc, schedule) else {
        return Err(Fault::Memory);
    };
    let Ok(runs) = joined(alloc, runs.as_slice()) else {
        return Err(Fault::Memory);
    };
    match write_schedule(alloc, runs.as_slice()) {
        Ok(text) => Ok(text),
        Err(_) => Err(Fault::Memory),
    }
}

/// Counts the state in which a live run ended. If no run has ended in it before, the run's schedule is kept. There is no seed
/// (`None`), since real threads made the choices.
fn add_run(alloc: Global, run: &LiveRun, outcomes: &mut Outcomes) -> Result<(), Fault>
    requires few { length run.now.schedule.items ≤ 4000000000 }
    requires outcomes { (other : EndState) → IfSome (get is_state outcomes.old other) (λ outcome. outcome.times < 4294967295) }
    ensures added { (first : World) → (runs : List Ended)
        → IsReplayOfText first run.now.schedule.items (world_of run.now.machine)
        → ending_of (world_of run.now.machine) ≡ Some run.now.ending → AreOutcomes runs outcomes.old.entries
        → OnOk result ((ended : Ended) × (IsEndedFrom first ended × AreOutcomes (runs ++ ended ∷ []) outcomes.new.entries)) }
    ensures fault { IfErr result (λ fault. fault ≡ Fault.Memory) }
{
    let Ok(state) = EndState::of(alloc, run.ending, &run.machine) else {
        return Err(Fault::Memory);
    };
    let schedule = shown(alloc, run.schedule.as_slice())?;
    match add(outcomes, state, run.ending, None, schedule) {
        Ok(()) => Ok(()),
        Err(_) => Err(Fault::Memory),
    }
}

/// Plays a program `count` times, and counts the states in which the runs ended. Before each turn, a thread makes the pause
/// that `pauses` gives for the run's number, and then passes `gate`.
pub fn add_runs<R: Threads + Wait + Sync, G: Pausing + Sync>(
    rt: &R,
    alloc: Global,
    program: &Loaded,
    limit: u32,
    pauses: Pauses,
    gate: &G,
    count: u32,
    outcomes: &mut Outcomes,
) -> Result<(), Fault>
    requires limit { limit ≤ 1000000000 }
    requires count { count ≤ 100000 }
    requires none { outcomes.old.entries ≡ [] }
    ensures outcomes { OnOk result ((runs : List Ended) × ((length runs ≡ count)
        × All (IsEndedFrom (first_world program.now limit)) runs × AreOutcomes runs outcomes.new.entries)) }
    ensures fault { IfErr result (λ fault. (fault ≡ Fault.Memory) ⊎ (fault ≡ Fault.Spawn)) }
{
    for number in 0..count {
        let run = run_once(rt, alloc, program, limit, &pauses.of_run(number, gate))?;
        add_run(alloc, &run, outcomes)?;
    }
    Ok(())
}
