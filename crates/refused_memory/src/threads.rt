//! Real threads: the record of their run, the phaser between them, and whole runs.
//! A try of a call, from `begin` to `end`, is `Right`, out of `Memory`, or `Wrong`.

use crate::marks;
use crate::programs::{FIRST, MEETING, SECOND, is_at, program_of, trace_of};
use crate::trial::{Answer, Trial, Tried};
use packed_phaser::Policy;
use phase_number::Phase;
use schedule_reader::Run;
use shared_phaser::{NewFault, SharedPhaser};
use std::alloc::{AllocError, Global};
use std::sync::Wait;
use std::thread::Threads;
use thread_machine::{Choice, Event, Machine};
use thread_runner::{Journaled, LiveFault, NoGate, TakeFault, run_live};
use trace_text::state::state_text;

/// Returns whether each choice of a schedule is a step of the program `text`, and the run's trace ends with `end`.
fn is_played(alloc: Global, text: &[u8], schedule: &[u8], end: &[u8]) -> Result<bool, AllocError> {
    let trace = trace_of(alloc, text, schedule)?;
    for line in trace.bytes().split(|byte| *byte == b'\n') {
        if line.ends_with(b" idle") || line.ends_with(b" none") || line.ends_with(b" limit") {
            return Ok(false);
        }
    }
    Ok(trace.bytes().ends_with(end))
}

/// Returns whether each choice of `schedule` is a step of the program `text`, and the last leads to the state of `machine`.
fn leads_to(
    alloc: Global,
    text: &[u8],
    schedule: &[u8],
    machine: &Machine,
) -> Result<bool, AllocError> {
    is_played(
        alloc,
        text,
        schedule,
        state_text(alloc, machine)?.as_slice(),
    )
}

/// Tries `Journaled::new` with the meeting: the record's machine has played no choice.
pub fn recording(trial: Trial) -> Tried {
    let program = program_of(trial.alloc, MEETING)?;
    Ok(
        match trial.end(Journaled::new(trial.begin(), program, 1000)) {
            Ok(record) => Answer::Right.provided(is_at(trial.alloc, record.machine(), 0)?),
            Err(_) => Answer::Memory,
        },
    )
}

/// Takes a thread's turn, or lets its wait expire. If there is no such thread, the result is `NotReady`.
fn take(record: &mut Journaled, choice: Choice) -> Result<Event, TakeFault> {
    if usize::from(choice.thread) >= record.machine().thread_count() {
        Err(TakeFault::NotReady)
    } else if choice.expiry {
        record.take_expiry(choice.thread)
    } else {
        record.take_step(choice.thread)
    }
}

/// Returns whether the choices in `record` are `schedule`, and playing them on `text` leads to the state of its machine.
fn leads(
    alloc: Global,
    text: &[u8],
    schedule: &[u8],
    record: &Journaled,
) -> Result<bool, AllocError> {
    Ok(record.schedule() == schedule && leads_to(alloc, text, schedule, record.machine())?)
}

/// Tries to take `choice` after `turns`: the record is then `schedule`. After `Memory` the record is still without the last
/// three bytes (the token and the space before it), and takes the choice when it is tried again.
fn taking(trial: Trial, text: &[u8], turns: &[Run], choice: Choice, schedule: &[u8]) -> Tried {
    let mut record = Journaled::new(trial.alloc, program_of(trial.alloc, text)?, 1000)?;
    for turn in turns {
        if take(&mut record, turn.choice).is_err() {
            return Ok(Answer::Wrong);
        }
    }
    let (before, _) = schedule.split_at(schedule.len().saturating_sub(3));
    trial.begin();
    let answer = match trial.end(take(&mut record, choice)) {
        Ok(_) => Answer::Right,
        Err(TakeFault::Memory) => {
            let stands = leads(trial.alloc, text, before, &record)?;
            Answer::Memory.provided(stands && take(&mut record, choice).is_ok())
        }
        Err(_) => Answer::Wrong,
    };
    Ok(answer.provided(leads(trial.alloc, text, schedule, &record)?))
}

/// Tries `Journaled::take_step` at an `out` of thread 1, which needs memory for the thread's first value.
pub fn taking_step(trial: Trial) -> Tried {
    let turns = [FIRST, SECOND, FIRST];
    taking(trial, MEETING, &turns, SECOND.choice, b"t0 t1 t0 t1")
}

/// One thread waits for a time, the other doesn't.
const TIMED: &[u8] = b".phaser p 2\n.thread a m\n.thread b n\n\
m: ldi r2 1\npawaitt r0 p r1 r2\nhalt\nn: ldi r0 1\nldi r0 1\nhalt\n";

/// Tries `Journaled::take_expiry` at the end of a timed wait. The record has no room for it yet.
pub fn taking_expiry(trial: Trial) -> Tried {
    let turns = [FIRST, SECOND, FIRST, SECOND, SECOND];
    let expiry = Choice {
        thread: 0,
        expiry: true,
    };
    taking(trial, TIMED, &turns, expiry, b"t0 t1 t0 t1 t1 x0")
}

/// Tries `SharedPhaser::new` with two parties in phase 0, of which none has arrived: its packed state is 0x2_0002.
pub fn sharing(trial: Trial) -> Tried {
    let made = SharedPhaser::new(trial.begin(), 2, Policy::Default, Phase::prevailing(0));
    trial.end(());
    Ok(match made {
        Ok((phaser, first)) => Answer::Right.provided(phaser.close(first).raw() == 0x2_0002),
        Err(NewFault::Memory) => Answer::Memory,
        Err(NewFault::RoutinePolicy) => Answer::Wrong,
    })
}

/// Tries `run_live`: its schedule has only steps, which lead to its machine's state. After `Memory` the schedule so far has
/// only steps. `Spawn`, for a thread that can't be started, counts as `Memory`.
fn running<R: Threads + Wait + Sync>(rt: &R, trial: Trial) -> Tried {
    let alloc = trial.alloc;
    let program = program_of(alloc, MEETING)?;
    Ok(
        match trial.end(run_live(rt, trial.begin(), program, 1000, &NoGate)) {
            Ok(run) => {
                let is_its = leads_to(alloc, MEETING, run.schedule.as_slice(), &run.machine)?;
                Answer::Right.provided(is_its)
            }
            Err(LiveFault::Memory(left)) => {
                let schedule = left.into_schedule();
                Answer::Memory.provided(is_played(alloc, MEETING, schedule.as_slice(), b"")?)
            }
            Err(LiveFault::Spawn) => Answer::Memory,
        },
    )
}

/// Returns in words the result of `run_live` with each of its first 100 requests refused in turn. How many requests a run makes
/// depends on how its threads meet, and a thread's block may outlive the run for a moment: so neither is counted.
pub fn swept<R: Threads + Wait + Sync>(rt: &R, alloc: Global) -> &'static str {
    let mut memory = 0u32;
    for request in 1..=100u16 {
        let trial = Trial {
            alloc,
            request,
            all: false,
        };
        match (running(rt, trial), marks::end(alloc)) {
            (Ok(Answer::Memory), true) => memory = memory.saturating_add(1),
            (Ok(Answer::Right), _) => {}
            _ => return "WRONG",
        }
    }
    match memory {
        0 => "right, and nothing was refused",
        1..=9 => "hardly ever Memory",
        _ => "Memory or Spawn, or right without it, each time",
    }
}
