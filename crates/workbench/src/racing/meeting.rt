//! Threads that meet at one shared phaser.
ghost use Rattle.std.specs.Prelude.{◌≡◌, ◌≢◌, ◌⊎◌, ◌+◌, ◌<◌, ◌≤◌, ◌++◌, [], map, ℕ, All, IfOk, IfErr, true, false, length, vec_capacity};
ghost use Rattle.std.specs.List.{range_with_len};
ghost use Rattle.shared_phaser.specs.{declared.history.Kept.Kept, Known.EndsAs, Known.phaser_of};
ghost use Rattle.workbench.specs.declared.fault.Fault.{Fault};
ghost use Rattle.workbench.specs.Race.{AreMeetings, HasMet, IsFinal, IsFresh, number_of};

use crate::fault::Fault;
use crate::racing::pace::Pace;
use packed_phaser::{Policy, Word};
use phase_number::Phase;
use shared_phaser::{NewFault, Party, SharedPhaser};
use std::alloc::{AllocError, Global};
use std::snapshot::Snapshot;
use std::sync::Wait;
use std::thread;
use std::thread::{Promise, PromisedHandle, Threads};

/// The promise of a thread: it returns its caller after `rounds` meetings.
#[derive(Drop)]
pub struct Home {
    /// The caller as the thread got it.
    pub caller: Snapshot<Party>,
    pub rounds: u32,
}

impl Promise<Party> for Home {
    ghost use Rattle.workbench.specs.{declared.fault.Fault.Fault, Race.HasMet};

    ghost kept_by = { λ home party. HasMet home.caller.value home.rounds party };
}

/// A running thread, and its caller.
type Running = PromisedHandle<Party, Home>;

/// Calls `arriveAndAwaitAdvance` `rounds` times, and reports each time to `pace`. Each thread does this. `let _` drops the
/// replies, since `party` knows its calls.
fn work<R: Wait, P: Pace>(
    rt: &R,
    phaser: &SharedPhaser,
    mut party: Party,
    rounds: u32,
    pace: &P,
) -> Party
    requires { IsFresh phaser.now party }
    ensures { HasMet party rounds result }
{
    for _ in 0..rounds {
        let _ = phaser.arrive_and_await_advance(rt, &mut party);
        pace.met();
    }
    party
}

/// Makes `count` callers besides the first, numbered from 1. A caller (`Party`) is what a thread makes its calls with.
fn callers(
    alloc: Global,
    phaser: &SharedPhaser,
    first: &mut Party,
    count: u16,
) -> Result<Vec<Party>, AllocError>
    requires number { first.old.known.number ≡ 0 }
    requires splits { first.old.known.splits ≡ 0 }
    requires first { IsFresh phaser.now first.old }
    ensures number { first.new.known.number ≡ 0 }
    ensures splits { IfOk result (λ v. first.new.known.splits ≡ count) }
    ensures first { IfOk result (λ v. IsFresh phaser.now first.new) }
    ensures callers { IfOk result (λ v. All (IsFresh phaser.now) v.items) }
    ensures numbers { IfOk result (λ v. map number_of v.items ≡ range_with_len 1 count) }
{
    let mut callers = Vec::new(alloc);
    for _ in 0..count {
        callers.push(phaser.split(first))?;
    }
    Ok(callers)
}

/// Starts a thread for each caller, and waits until all have ended. Returns the first caller, the threads in the callers'
/// order, and whether each could be started. If one can't be, it terminates the phaser, so that the others end. `running` is
/// empty, with room for all threads.
fn run<R: Threads + Wait + Sync, P: Pace + Sync>(
    rt: &R,
    phaser: &SharedPhaser,
    first: Party,
    callers: Vec<Party>,
    running: Vec<Running>,
    rounds: u32,
    pace: &P,
) -> (Party, Vec<Running>, bool)
    requires first { first.known.number ≡ 0 }
    requires phaser { phaser_of first ≡ phaser.now }
    requires callers { All (IsFresh phaser.now) callers.items }
    requires none { running.items ≡ [] }
    requires room { length callers.items ≤ vec_capacity running }
    ensures first { result.0.known.number ≡ 0 }
    ensures phaser { phaser_of result.0 ≡ phaser.now }
    ensures running { All (λ h. phaser_of h.promise.caller.value ≡ phaser.now) result.1.items }
    ensures rounds { All (λ h. h.promise.rounds ≡ rounds) result.1.items }
    ensures numbers { result.2 ≡ true
        → map (λ h. number_of h.promise.caller.value) result.1.items ≡ map number_of callers.items }
    ensures kept { result.2 ≡ true → result.0 ≡ first }
    ensures some { result.2 ≡ false → length result.1.items < length callers.items }
{
    thread::scope(
        thread::scope_env(),
        rt,
        move |scope| -> (Party, Vec<Running>, bool)
            requires first { first.known.number ≡ 0 }
            requires phaser { phaser_of first ≡ phaser.now }
            requires callers { All (IsFresh phaser.now) callers.items }
            requires none { running.items ≡ [] }
            requires room { length callers.items ≤ vec_capacity running }
            ensures first { result.0.known.number ≡ 0 }
            ensures phaser { phaser_of result.0 ≡ phaser.entry.now }
            ensures running { All (λ h. phaser_of h.promise.caller.value ≡ phaser.entry.now) result.1.items }
            ensures rounds { All (λ h. h.promise.rounds ≡ rounds) result.1.items }
            ensures numbers { result.2 ≡ true
                → map (λ h. number_of h.promise.caller.value) result.1.items ≡ map number_of callers.items }
            ensures kept { result.2 ≡ true → result.0 ≡ first }
            ensures some { result.2 ≡ false → length result.1.items < length callers.items }
        {
            let mut first = first;
            let mut running = running;
            for caller in callers {
                let home = Home {
                    caller: Snapshot::of(&caller),
                    rounds,
                };
                let Ok(handle) = scope.spawn_with(
                    home,
                    move || -> Party
                        requires { IsFresh phaser.now caller }
                        ensures { HasMet caller rounds result }
                    { work(rt, phaser, caller, rounds, pace) },
                ) else {
                    phaser.force(rt, &mut first);
                    return (first, running, false);
                };
                running.push_reserved(handle);
            }
            (first, running, true)
        },
    )
}

/// Takes the caller of each thread, which has ended, and joins it to the first. Then the first knows the calls of all.
fn gather<R: Threads>(rt: &R, phaser: &SharedPhaser, first: &mut Party, running: Vec<Running>)
    requires first { first.old.known.number ≡ 0 }
    requires phaser { phaser_of first.old ≡ phaser.now }
    requires running { All (λ h. phaser_of h.promise.caller.value ≡ phaser.now) running.items }
    ensures first { first.new.known.number ≡ 0 }
    ensures phaser { phaser_of first.new ≡ phaser.now }
    ensures splits { first.new.known.splits ≡ first.old.known.splits }
    ensures calls { first.new.known.calls ≡ first.old.known.calls }
    ensures numbers { map (λ (k : Kept). k.number) first.new.known.joined
        ≡ map (λ (k : Kept). k.number) first.old.known.joined
        ++ map (λ h. number_of h.promise.caller.value) running.items }
    ensures met { (rounds : ℕ) → All (λ h. h.promise.rounds ≡ rounds) running.items
        → All (λ (k : Kept). AreMeetings k.number rounds k.calls) first.old.known.joined
        → All (λ (k : Kept). AreMeetings k.number rounds k.calls) first.new.known.joined }
{
    for handle in running {
        let party = handle.join(rt);
        phaser.join(first, party);
    }
}

/// Closes the phaser and returns its word. Fails with `Spawn` if a thread wasn't started (`is_whole` is false).
fn last_word(phaser: SharedPhaser, first: Party, is_whole: bool) -> Result<Word, Fault>
    requires first { first.known.number ≡ 0 }
    requires phaser { phaser_of first ≡ phaser }
    ensures word { IfOk result (λ word. (is_whole ≡ true) × EndsAs first.known word) }
    ensures spawn { IfErr result (λ fault. (is_whole ≡ false) × (fault ≡ Fault.Spawn)) }
{
    if !is_whole {
        return Err(Fault::Spawn);
    }
    Ok(phaser.close(first))
}

/// Returns why a phaser isn't made, as a command's fault. It can only be out of memory: a race uses no routine.
fn fault_of_new(fault: NewFault) -> Fault
    requires { fault ≢ NewFault.RoutinePolicy }
    ensures { result ≡ Fault.Memory }
{
    match fault {
        NewFault::Memory => Fault::Memory,
        NewFault::RoutinePolicy => unreachable!(),
    }
}

/// Lets `parties` threads meet `rounds` times at one phaser, and returns its packed state after all threads have ended.
pub fn race<R: Threads + Wait + Sync, P: Pace + Sync>(
    rt: &R,
    alloc: Global,
    parties: u16,
    rounds: u32,
    pace: &P,
) -> Result<Word, Fault>
    ensures word { IfOk result (λ word. IsFinal parties rounds word) }
    ensures fault { IfErr result (λ fault. (fault ≡ Fault.Memory) ⊎ (fault ≡ Fault.Spawn)) }
{
    // The phaser begins in phase 0.
    let made = SharedPhaser::new(alloc, parties, Policy::Default, Phase::prevailing(0));
    let (phaser, mut first) = match made {
        Ok(both) => both,
        Err(fault) => return Err(fault_of_new(fault)),
    };
    let callers = callers(alloc, &phaser, &mut first, parties)?;
    let running = Vec::with_capacity(alloc, callers.len())?;
    let (mut first, running, is_whole) = run(rt, &phaser, first, callers, running, rounds, pace);
    gather(rt, &phaser, &mut first, running);
    last_word(phaser, first, is_whole)
}
