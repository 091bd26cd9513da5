//! Tests what calls do if memory is refused, and writes the results.
//!
//! In each call the requests for memory are refused one after the other. A library refuses them. It is loaded before the C
//! library (`tests/memory/refuse.c`). Without this library, the program reports for each call that nothing was refused.
#![tactic(auto)]

// What is refused, one trial of a call, and what trials are made of.
mod marks;
mod programs;
mod trial;

// The trials, by what they try.
mod machines;
mod runs;
mod schedules;
mod sessions;
mod texts;
mod threads;

// The sweep that they all have.
mod sweep;

use programs::{MEETING, SCHEDULE};
use runs::ROUND;
use std::alloc::AllocError;
use std::io;
use sweep::Trials;

/// Tries the calls on texts, images and trees with memory refused, and writes lines with the results.
fn tell_programs(trials: &mut Trials) {
    trials.tell("assemble", texts::assembling);
    trials.tell("disassemble", texts::listing);
    trials.tell("read_image", texts::reading);
    trials.tell("load", texts::loading);
    trials.tell("Loaded::copy", texts::copying);
    trials.tell("Forest::new", machines::new_forest);
    trials.tell("Forest::declare", machines::declaring);
    trials.tell("Forest::copy", machines::copying_forest);
}

/// Tries the calls on machines, schedules, lines and runs with memory refused, and writes lines with the results.
fn tell_machines(trials: &mut Trials) {
    trials.tell("Machine::new", machines::beginning);
    trials.tell("Machine::copy", machines::copying);
    trials.tell("step at out", machines::stepping);
    trials.tell("step_noting at out", machines::noting);
    trials.tell("feed", schedules::feeding);
    trials.tell("finish", schedules::finishing);
    trials.tell("write_schedule", schedules::writing);
    trials.tell("event_line", runs::event);
    trials.tell("refusal_line", runs::refusal);
    trials.tell("state_text", runs::state);
    trials.tell("run_text", |trial| runs::playing(trial, MEETING, SCHEDULE));
    trials.tell("compare", |trial| runs::comparing(trial, MEETING, SCHEDULE));
}

/// Writes whether a run, and a comparison, makes as many requests for memory with `long`, of 100,000 turns, as with `short`.
fn tell_counts(trials: &mut Trials, short: &[u8], long: &[u8]) {
    trials.tell_counts(
        "run_text of 10,000 and of 100,000 tokens",
        |trial| runs::playing(trial, ROUND, short),
        |trial| runs::playing(trial, ROUND, long),
    );
    trials.tell_counts(
        "compare with 10,000 and with 100,000 lines",
        |trial| runs::comparing(trial, ROUND, short),
        |trial| runs::comparing(trial, ROUND, long),
    );
}

/// Makes schedules of 10,000 and of 100,000 turns, and writes whether their runs make as many requests for memory.
fn tell_long_runs(trials: &mut Trials) -> Result<(), AllocError> {
    let short = runs::rounds(trials.alloc, 10_000)?;
    let long = runs::rounds(trials.alloc, 100_000)?;
    tell_counts(trials, short.as_slice(), long.as_slice());
    Ok(())
}

/// Tries the debugger and each of its commands with memory refused, and writes lines with the results.
fn tell_debugger(trials: &mut Trials) {
    trials.tell("Debugger::new", sessions::opening);
    trials.tell("Debugger::step at out", sessions::stepping);
    trials.tell("go", sessions::going);
    for command in &sessions::COMMANDS {
        trials.tell(command.0, |trial| sessions::commanding(trial, command));
    }
}

/// Tries the records of real threads, and their phaser, with memory refused, and writes lines with the results.
fn tell_threads(trials: &mut Trials) {
    trials.tell("Journaled::new", threads::recording);
    trials.tell("take_step at out", threads::taking_step);
    trials.tell("take_expiry", threads::taking_expiry);
    trials.tell("SharedPhaser::new", threads::sharing);
}

/// Tries all calls and writes the results, a line each. Fails if a line can't be written.
fn main(rt: HostRuntime) -> io::Result<()> {
    let alloc = rt.alloc();
    let mut trials = Trials {
        rt: &rt,
        alloc,
        written: Ok(()),
    };
    tell_programs(&mut trials);
    tell_machines(&mut trials);
    tell_long_runs(&mut trials)?;
    tell_debugger(&mut trials);
    tell_threads(&mut trials);
    trials.written?;
    let live = threads::swept(&rt, alloc);
    println!(&rt; "run_live: {live}")
}
