//! Trees of phasers, and machines. A try of a call, from `begin` to `end`, is `Right`, out of `Memory`, or `Wrong`.

use crate::programs::{FIRST, MEETING, goes_on, is_at, meeting_after, program_of};
use crate::trial::{Answer, Trial, Tried};
use packed_phaser::Policy;
use phase_number::Phase;
use thread_machine::{Event, Machine, StepFault, What};
use tier_tree::{DeclareFault, Forest, PhaserId};

/// Tries `Forest::new`, which returns a forest without phasers.
pub fn new_forest(trial: Trial) -> Tried {
    Ok(match trial.end(Forest::new(trial.begin())) {
        Ok(forest) => Answer::Right.provided(forest.len() == 0),
        Err(_) => Answer::Memory,
    })
}

/// Declares a root of two parties, in phase 7.
fn declare_root(forest: &mut Forest) -> Result<PhaserId, DeclareFault> {
    forest.declare(None, 2, Policy::Default, Phase::prevailing(7))
}

/// Tries `Forest::declare`: after `Memory` the forest is still empty, and a second try, with memory, declares the phaser.
pub fn declaring(trial: Trial) -> Tried {
    let mut forest = Forest::new(trial.alloc)?;
    trial.begin();
    Ok(match trial.end(declare_root(&mut forest)) {
        Ok(id) => Answer::Right.provided(id == PhaserId(0) && forest.len() == 1),
        Err(DeclareFault::Memory) => Answer::Memory.provided(
            forest.len() == 0 && declare_root(&mut forest) == Ok(PhaserId(0)),
        ),
        Err(_) => Answer::Wrong,
    })
}

/// Tries `Forest::copy` of a forest with one phaser: the forest that was copied still has it, even if memory is refused.
pub fn copying_forest(trial: Trial) -> Tried {
    let mut forest = Forest::new(trial.alloc)?;
    let is_declared = declare_root(&mut forest).is_ok();
    let answer = match trial.end(forest.copy(trial.begin())) {
        Ok(copy) => Answer::Right.provided(copy.len() == 1),
        Err(_) => Answer::Memory,
    };
    Ok(answer.provided(is_declared && forest.len() == 1))
}

/// Tries `Machine::new`, which returns the meeting's machine before its first choice.
pub fn beginning(trial: Trial) -> Tried {
    let program = program_of(trial.alloc, MEETING)?;
    Ok(
        match trial.end(Machine::new(trial.begin(), program, 1000)) {
            Ok(machine) => Answer::Right.provided(is_at(trial.alloc, &machine, 0)?),
            Err(_) => Answer::Memory,
        },
    )
}

/// Tries `Machine::copy` after the meeting's fourth choice: the machine that was copied is as before. Both play the rest.
pub fn copying(trial: Trial) -> Tried {
    let mut machine = meeting_after(trial.alloc, 4)?;
    let answer = match trial.end(machine.copy(trial.begin())) {
        Ok(mut copy) => Answer::Right.provided(goes_on(trial.alloc, &mut copy, 4)?),
        Err(_) => Answer::Memory,
    };
    Ok(answer.provided(goes_on(trial.alloc, &mut machine, 4)?))
}

/// Judges `answered`, the result of the meeting's fourth choice: it plays `out r0`, and the list of output needs memory. After
/// `Memory` the machine has to be as after three choices. In both cases it has to play the rest.
fn out_answer(trial: Trial, machine: &mut Machine, answered: Result<Event, StepFault>) -> Tried {
    let (answer, count) = match answered {
        Ok(event) => (Answer::Right.provided(event.what == What::Out(1)), 4),
        Err(StepFault::Memory) => (Answer::Memory, 3),
        Err(_) => (Answer::Wrong, 3),
    };
    Ok(answer.provided(goes_on(trial.alloc, machine, count)?))
}

/// Tries `Machine::step` at the meeting's fourth choice, the first that puts a value out.
pub fn stepping(trial: Trial) -> Tried {
    let mut machine = meeting_after(trial.alloc, 3)?;
    trial.begin();
    let answered = trial.end(machine.step(FIRST.choice));
    out_answer(trial, &mut machine, answered)
}

/// Tries `Machine::step_noting` at the same choice. It drops what takes the step back, so that both ways are judged alike.
pub fn noting(trial: Trial) -> Tried {
    let mut machine = meeting_after(trial.alloc, 3)?;
    trial.begin();
    let answered = trial.end(machine.step_noting(FIRST.choice));
    out_answer(trial, &mut machine, answered.map(|(event, _)| event))
}
