//! The workers of a live run, one for each thread of the program. What they share is in `live`.
ghost use Rattle.std.specs.Prelude.{◌≡◌, ◌≢◌, ◌↔◌, ◌*◌, ◌<◌, ◌≤◌, length, is_some, IfErr, IfOk, Err, Some, true};
ghost use Rattle.std.specs.Thread.{IsSend, IsSync};
ghost use Rattle.cyclic_barrier.specs.ThreadSet.{has};
ghost use Rattle.thread_machine.specs.World.{world_of, first_world};
ghost use Rattle.thread_runner.specs.{declared.live.Break.Break, Recording.recorded_world, Endings.ending_of, Waiting.waits};
ghost use Rattle.thread_runner.specs.Replay.{HasKept, HasLeft, IsRecordOf};

use crate::ending::Ending;
use crate::fault::LiveFault;
use crate::gate::Gate;
use crate::journaled::Journaled;
use crate::left_record::{LeftRecord, first_record};
use crate::live::{Break, Live, Origin};
use loader::Loaded;
use std::alloc::Global;
use std::marker::Brand;
use std::sync::{Condvar, Mutex, Wait};
use std::thread;
use std::thread::Threads;
use thread_machine::Machine;

/// A live run that has ended.
#[derive(Drop)]
pub struct LiveRun {
    /// The choices in the order in which the workers had the lock: a token for each, with one space between them.
    pub schedule: Vec<u8>,
    /// The machine that they led to.
    pub machine: Machine,
    pub ending: Ending,
}

/// Runs the worker of a thread. It passes the gate, takes the lock, waits until it has something to do, and makes its thread's
/// choice. No wake-up is lost: what is under the lock says whether a worker waits. Before it sleeps, a worker is noted among
/// the sleepers, until it finds that it needn't wait, or all are woken. Whoever changes what is under the lock can give the
/// lock back only when each sleeper has to wait (`woken`), so it wakes them if one needn't.
fn work<O: Origin, R: Wait, G: Gate>(
    rt: &R,
    lock: &Mutex<Live<O>>,
    changed: &Condvar,
    gate: &G,
    thread: u8,
)
    requires { thread < length O.first.scene.threads }
{
    let mut passes = 0u32;
    for _ in rt.forever() {
        gate.pass(thread, passes);
        passes = passes.saturating_add(1);
        let mut live = changed.wait_while(
            rt,
            lock.lock(rt),
            |live| -> bool
                requires { thread < length O.first.scene.threads }
                ensures waits { (result ≡ waits live.old.state.broken (recorded_world live.old.state.journaled) thread)
                    × (live.new.state.journaled ≡ live.old.state.journaled)
                    × (live.new.state.broken ≡ live.old.state.broken) }
                ensures noted { has live.new.state.sleepers thread ≡ result }
            { live.falls_asleep(thread) },
        );
        let goes_on = live.turn(thread, changed);
        drop(live);
        if !goes_on {
            return;
        }
    }
}

/// Breaks the run off because a thread couldn't be started: all workers stop.
fn refuse<O: Origin, R: Wait>(rt: &R, lock: &Mutex<Live<O>>, changed: &Condvar) {
    let mut live = lock.lock(rt);
    live.refuse(changed);
    drop(live);
}

/// Starts a worker for each thread, or stops all if one can't be started. Returns when all that were started have ended.
fn start<O: Origin + Send + Sync, R: Threads + Wait + Sync, G: Gate + Sync>(
    rt: &R,
    lock: &Mutex<Live<O>>,
    changed: &Condvar,
    gate: &G,
    count: u8,
)
    requires { count ≤ length O.first.scene.threads }
{
    thread::scope(
        thread::scope_env(),
        rt,
        |scope| -> ()
            requires { IsSync R.row × (IsSync G.row × (IsSend O.row × (count ≤ length O.first.scene.threads))) }
        {
            for thread in 0..count {
                let started = scope.spawn(
                    move || -> ()
                        requires { thread < length O.first.scene.threads }
                    { work(rt, lock, changed, gate, thread) },
                );
                if started.is_err() {
                    refuse(rt, lock, changed);
                    return;
                }
            }
        },
    );
}

/// Plays the rest of a run, which is nothing, unless workers stopped early. Returns its record and how it ended. The call of
/// `each_record_is_a_replay` only helps the proof.
fn play_on(mut journaled: Journaled) -> Result<(Journaled, Ending), LiveFault>
    ensures first { IfOk result (λ both. both.0.first ≡ journaled.first) }
    ensures ending { IfOk result (λ both. ending_of (recorded_world both.0) ≡ Some both.1) }
    ensures left { IfErr result (HasLeft journaled.first) }
    ensures kept { IfErr result (HasKept journaled) }
    ensures spawn { result ≢ Err LiveFault.Spawn }
{
    loop {
        if let Some(ending) = journaled.ending() {
            return Ok((journaled, ending));
        }
        journaled.each_record_is_a_replay();
        match journaled.take_next() {
            Ok(_) => {}
            Err(_) => return Err(out_of_memory(journaled)),
        }
    }
}

/// Returns the fault of a run that ran out of memory, with the schedule that was played until then.
fn out_of_memory(journaled: Journaled) -> LiveFault
    ensures left { HasLeft journaled.first result }
    ensures kept { HasKept journaled result }
    ensures spawn { result ≢ LiveFault.Spawn }
{
    LiveFault::Memory(LeftRecord::of(journaled))
}

/// Returns the record of a run whose workers have all ended, and how it ended, or why it was broken off.
fn end<O: Origin>(live: Live<O>) -> Result<(Journaled, Ending), LiveFault>
    ensures first { IfOk result (λ both. both.0.first ≡ O.first) }
    ensures ending { IfOk result (λ both. ending_of (recorded_world both.0) ≡ Some both.1) }
    ensures left { IfErr result (HasLeft O.first) }
    ensures kept { IfErr result (HasKept live.state.journaled) }
    ensures spawn { (result ≡ Err LiveFault.Spawn) ↔ (live.state.broken ≡ Some Break.Spawn) }
{
    match live.state.broken {
        None => play_on(live.state.journaled),
        Some(Break::Memory) => Err(out_of_memory(live.state.journaled)),
        Some(Break::Spawn) => Err(LiveFault::Spawn),
    }
}

/// Plays a run by a worker for each thread. Returns its record and how it ended, or why it was broken off.
fn run_of<O: Origin + Send + Sync, R: Threads + Wait + Sync, G: Gate + Sync>(
    rt: &R,
    journaled: Journaled,
    gate: &G,
) -> Result<(Journaled, Ending), LiveFault>
    requires { journaled.first ≡ O.first }
    ensures first { IfOk result (λ both. both.0.first ≡ O.first) }
    ensures ending { IfOk result (λ both. ending_of (recorded_world both.0) ≡ Some both.1) }
    ensures left { IfErr result (HasLeft O.first) }
{
    let count = journaled.thread_count() as u8;
    let lock = Mutex::new(Live::<O>::new(journaled));
    let changed = Condvar::new();
    start(rt, &lock, &changed, gate, count);
    end(lock.into_inner())
}

/// Takes the schedule and the machine out of a record whose run has ended with `ending`.
fn live_run(journaled: Journaled, ending: Ending) -> LiveRun
    requires { ending_of (recorded_world journaled) ≡ Some ending }
    ensures record { IsRecordOf journaled.first result.schedule.items (world_of result.machine) }
    ensures ending { ending_of (world_of result.machine) ≡ Some result.ending }
{
    let (schedule, machine) = journaled.into_parts();
    LiveRun {
        schedule,
        machine,
        ending,
    }
}

/// Plays a program with a real thread for each of its threads, until the run is over, and at most `limit` steps. Each worker
/// takes its own thread's steps when it gets the lock. The schedule is made while the steps are taken.
pub fn run_live<R: Threads + Wait + Sync, G: Gate + Sync>(
    rt: &R,
    alloc: Global,
    program: Loaded,
    limit: u32,
    gate: &G,
) -> Result<LiveRun, LiveFault>
    requires { limit ≤ 1000000000 }
    ensures record { IfOk result (λ run.
        IsRecordOf (first_world program limit) run.schedule.items (world_of run.machine)) }
    ensures few { IfOk result (λ run. length run.schedule.items ≤ 4 * limit) }
    ensures ending { IfOk result (λ run. ending_of (world_of run.machine) ≡ Some run.ending) }
    ensures left { IfErr result (HasLeft (first_world program limit)) }
{
    let journaled = match first_record(alloc, program, limit) {
        Ok(journaled) => journaled,
        Err(left) => return Err(LiveFault::Memory(left)),
    };
    // `Brand` stands for the run's `Origin`, which only contracts use.
    match run_of::<Brand, R, G>(rt, journaled, gate) {
        Ok((journaled, ending)) => Ok(live_run(journaled, ending)),
        Err(fault) => Err(fault),
    }
}
