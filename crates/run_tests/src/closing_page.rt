//! A meeting of two threads, played with the calls of `headline`: what a schedule leaves and shows, and what is taken back.
//! The ports in memory have room enough, and none fails (`None`).
ghost use Rattle.std.specs.Prelude.{◌≤◌};

use crate::programs::{LISTED, MEETING, MEETING_RUN, TRACE, image_of, refused};
use assembler::{assemble, disassemble};
use byte_ports::{MemorySink, MemorySource};
use debugger::{Debugger, Stop};
use headline::back::{step, step_and_back, steps_and_backs, take_back};
use headline::play;
use headline::shown::{both_cmd, compare, list};
use loader::LoadFault;
use schedule_reader::Run;
use std::alloc::Global;
use std::test::Fail;
use thread_machine::{Choice, Machine};
use trace_compare::Verdict;
use trace_text::start::StartFault;
use trace_text::state::state_text;

/// Returns the choice of a thread's turn, which is no expiry of a wait.
fn turn(thread: u8) -> Choice {
    Choice {
        thread,
        expiry: false,
    }
}

/// Returns the machine of the meeting after turns of `threads`, in order, up to the first refused one.
fn met(alloc: Global, threads: &[u8]) -> Result<Machine, Fail> {
    let mut choices = Vec::new(alloc);
    for thread in threads {
        choices.push(turn(*thread))?;
    }
    play(alloc, image_of(alloc, MEETING)?, choices.as_slice()).map_err(|_| refused())
}

/// Checks that the meeting's schedule ends both threads, and that each puts out 1, the phase that follows.
#[test]
fn both_threads_end(rt: HostRuntime) -> Result<(), Fail> {
    let machine = met(rt.alloc(), &[0, 1, 0, 0, 0, 1, 1])?;
    let state: &[u8] = b"state 7 7 all\nt0 2 ended 0 regs 1 0 0 0 0 0 0 0 stack out 1\n\
t1 2 ended 0 regs 1 0 0 0 0 0 0 0 stack out 1\np0 1 2 0 2\n";
    assert!(rt; state_text(rt.alloc(), &machine)?.as_slice() == state);
    Ok(())
}

/// Checks that a third thread's choice is refused, with all later ones, and that without a thread there is no machine.
#[test]
fn what_is_refused_is_not_played(rt: HostRuntime) -> Result<(), Fail> {
    assert!(rt; met(rt.alloc(), &[0, 2, 1])?.steps() == 1);
    let refused = play(rt.alloc(), image_of(rt.alloc(), "halt\n")?, &[]).err();
    assert!(rt; refused == Some(StartFault::Load(LoadFault::NoThread)));
    Ok(())
}

/// Plays a turn and takes it back in one call, and tries a turn of a thread that doesn't exist. Returns whether the state is as
/// before.
fn is_as_before(alloc: Global, machine: &mut Machine) -> Result<bool, Fail> {
    let before = state_text(alloc, machine)?;
    let is_right = step_and_back(machine, turn(1)).is_ok() && step(machine, turn(2)).is_err();
    Ok(is_right && state_text(alloc, machine)?.as_slice() == before.as_slice())
}

/// Plays a turn, and then takes it back. Returns whether the turn was the second step, and only the first is left.
fn leaves_one_step(machine: &mut Machine) -> bool {
    match step(machine, turn(1)) {
        Ok((_, undo)) => {
            let steps = machine.steps();
            take_back(machine, undo);
            steps == 2 && machine.steps() == 1
        }
        Err(_) => false,
    }
}

/// Plays the six turns that are left, and takes all back. Returns whether they made six events, and the state is as before.
fn takes_six_back(alloc: Global, debugger: &mut Debugger) -> Result<bool, Fail>
    requires { 6 ≤ debugger.old.kept }
{
    let before = state_text(alloc, debugger.machine())?;
    let choices = [turn(1), turn(0), turn(0), turn(0), turn(1), turn(1)];
    let events = steps_and_backs(alloc, debugger, &choices).map_err(|_| refused())?;
    Ok(events.len() == 6 && state_text(alloc, debugger.machine())?.as_slice() == before.as_slice())
}

/// Checks that a step is taken back, in one call or in two, and that a refused step changes nothing.
#[test]
fn a_step_is_taken_back(rt: HostRuntime) -> Result<(), Fail> {
    let mut machine = met(rt.alloc(), &[0])?;
    assert!(rt; is_as_before(rt.alloc(), &mut machine)? && leaves_one_step(&mut machine));
    Ok(())
}

/// Checks that a session that keeps six choices takes six back.
#[test]
fn six_steps_are_taken_back(rt: HostRuntime) -> Result<(), Fail> {
    let mut debugger = Debugger::new(rt.alloc(), met(rt.alloc(), &[0])?, 6)?;
    assert!(rt; takes_six_back(rt.alloc(), &mut debugger)?);
    Ok(())
}

/// Plays two choices, and takes back one. Returns whether this is done, and taking back a second one is refused.
fn takes_one_back(debugger: &mut Debugger) -> bool {
    let run = Run {
        choice: turn(1),
        times: 1,
    };
    let are_played = debugger.step(turn(0)).is_ok()
        && debugger.go(&[run]) == Stop::End(1)
        && debugger.machine().steps() == 2;
    are_played
        && debugger.back().is_ok()
        && debugger.back().is_err()
        && debugger.machine().steps() == 1
}

/// Checks that a session that keeps one choice takes back one, and no second one, though it has played two.
#[test]
fn a_session_steps_on_and_back(rt: HostRuntime) -> Result<(), Fail> {
    let mut debugger = Debugger::new(rt.alloc(), met(rt.alloc(), &[])?, 1)?;
    assert!(rt; takes_one_back(&mut debugger));
    Ok(())
}

/// Checks that `both_cmd` writes the meeting's trace, for a text with the meeting and its schedule.
#[test]
fn a_text_shows_its_run(rt: HostRuntime) -> Result<(), Fail> {
    let alloc = rt.alloc();
    let mut input = MemorySource::new(MEETING_RUN.as_bytes(), None);
    let mut output = MemorySink::new(alloc, 1000, None)?;
    let mut errors = MemorySink::new(alloc, 100, None)?;
    assert!(rt; both_cmd(alloc, &mut input, &mut output, &mut errors) == 0);
    assert!(rt; output.bytes() == TRACE);
    Ok(())
}

/// Checks that the meeting's canonical text is listed, and that its image has the same canonical text.
#[test]
fn its_program_is_listed(rt: HostRuntime) -> Result<(), Fail> {
    let alloc = rt.alloc();
    let mut output = MemorySink::new(alloc, 1000, None)?;
    assert!(rt; list(alloc, &image_of(alloc, MEETING)?, &mut output).is_ok());
    assert!(rt; output.bytes() == LISTED);
    let again = assemble(alloc, LISTED).map_err(|_| refused())?;
    assert!(rt; disassemble(alloc, &again)?.as_slice() == LISTED);
    Ok(())
}

/// Checks that the meeting's trace has the verdict `Same`, since its run has that trace.
#[test]
fn its_trace_is_found_the_same(rt: HostRuntime) -> Result<(), Fail> {
    let alloc = rt.alloc();
    let mut trace = MemorySource::new(TRACE, None);
    let mut line = MemorySink::new(alloc, 100, None)?;
    let verdict = compare(alloc, image_of(alloc, MEETING)?, &mut trace, &mut line).ok();
    assert!(rt; verdict == Some(Verdict::Same) && line.bytes() == b"same\n".as_slice());
    Ok(())
}
