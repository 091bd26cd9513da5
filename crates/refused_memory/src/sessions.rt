//! The debugger. A try of a call, from `begin` to `end`, is `Right`, out of `Memory`, or `Wrong`.

use crate::programs::{FIRST, TURNS, is_at, meeting_after};
use crate::trial::{Answer, Trial, Tried};
use byte_ports::MemorySink;
use debugger::{CommandFault, Debugger, Stop};
use std::alloc::{AllocError, Global};
use thread_machine::StepFault;

/// Returns a debugger of the meeting that has played its first `count` choices. It keeps 8 choices, more than the meeting's 7.
fn debugger_after(alloc: Global, count: usize) -> Result<Debugger, AllocError> {
    let mut debugger = Debugger::new(alloc, meeting_after(alloc, 0)?, 8)?;
    match debugger.go(&TURNS[..count.min(7)]) {
        Stop::End(_) => Ok(debugger),
        _ => Err(AllocError),
    }
}

/// Returns whether `debugger` has played `count` choices of the meeting, plays the rest, takes back all 7, and no more.
fn goes_on(alloc: Global, debugger: &mut Debugger, count: usize) -> Result<bool, AllocError> {
    let stood = is_at(alloc, debugger.machine(), count)?;
    let _ = debugger.go(&TURNS[count.min(7)..]); // what was played is seen below
    let ended = is_at(alloc, debugger.machine(), 7)?;
    for _ in 0..7 {
        if debugger.back().is_err() {
            return Ok(false);
        }
    }
    let is_first = is_at(alloc, debugger.machine(), 0)?;
    Ok(stood && ended && is_first && debugger.back().is_err())
}

/// Tries `Debugger::new` with the machine of the meeting: the debugger plays the meeting and takes it back.
pub fn opening(trial: Trial) -> Tried {
    let machine = meeting_after(trial.alloc, 0)?;
    Ok(match trial.end(Debugger::new(trial.begin(), machine, 8)) {
        Ok(mut debugger) => Answer::Right.provided(goes_on(trial.alloc, &mut debugger, 0)?),
        Err(_) => Answer::Memory,
    })
}

/// Tries `Debugger::step` at the meeting's fourth choice, which puts a value out. After `Memory` it has still played 3 choices.
pub fn stepping(trial: Trial) -> Tried {
    let mut debugger = debugger_after(trial.alloc, 3)?;
    trial.begin();
    let (answer, count) = match trial.end(debugger.step(FIRST.choice)) {
        Ok(_) => (Answer::Right, 4),
        Err(StepFault::Memory) => (Answer::Memory, 3),
        Err(_) => (Answer::Wrong, 0),
    };
    Ok(answer.provided(goes_on(trial.alloc, &mut debugger, count)?))
}

/// Tries `Debugger::go` with the last five choices of the meeting. Two of them put a value out, the second and the fourth. If
/// memory is refused there, `go` stops before that choice, and the 1 or 3 choices before it stay played.
pub fn going(trial: Trial) -> Tried {
    let mut debugger = debugger_after(trial.alloc, 2)?;
    trial.begin();
    let (answer, count) = match trial.end(debugger.go(&TURNS[2..])) {
        Stop::End(5) => (Answer::Right, 7),
        Stop::Fault(1, StepFault::Memory) => (Answer::Memory, 3),
        Stop::Fault(3, StepFault::Memory) => (Answer::Memory, 5),
        _ => (Answer::Wrong, 0),
    };
    Ok(answer.provided(goes_on(trial.alloc, &mut debugger, count)?))
}

/// A name, a line for `Debugger::command` after three choices, its reply, and how many choices have been played then.
pub type Command = (&'static str, &'static [u8], &'static [u8], usize);

/// The commands that are tried.
pub static COMMANDS: [Command; 8] = [
    ("command s", b"s t0", b"4 t0 1 out 1\n", 4),
    ("command g", b"g t0*2 t1*2", b"end 4\n", 7),
    ("command b", b"b", b"back 2\n", 2),
    ("command k", b"k 1", b"break 1\n", 3),
    ("command c", b"c 1", b"clear 1\n", 3),
    (
        "command p",
        b"p",
        b"state 3 3 live\nt0 1 runs 0 regs 1 0 0 0 0 0 0 0 stack out\n\
t1 1 runs 0 regs 1 0 0 0 0 0 0 0 stack out\np0 1 2 0 2\n",
        3,
    ),
    ("command q", b"q", b"", 3),
    ("no command", b"g t0 t64", b"?\n", 3),
];

/// Tries `Debugger::command` with the line of `command`. If memory is refused, it returns `Memory`, or `g` replies so.
pub fn commanding(trial: Trial, command: &Command) -> Tried {
    let (_, line, wanted, behind) = *command;
    let mut debugger = debugger_after(trial.alloc, 3)?;
    let mut output = MemorySink::new(trial.alloc, 1000, None)?;
    trial.begin();
    let answered = trial.end(debugger.command(line, &mut output));
    let (answer, count) = command_answer(answered, output.bytes(), wanted, behind);
    Ok(answer.provided(goes_on(trial.alloc, &mut debugger, count)?))
}

/// Judges a command's result and its `reply`, which is whole or empty. Also returns how many choices should have been
/// played then: `behind`, or 3 as before if memory was refused, but 5 if `g` was refused it for its second value put out.
fn command_answer(
    answered: Result<bool, CommandFault>,
    reply: &[u8],
    wanted: &[u8],
    behind: usize,
) -> (Answer, usize) {
    match answered {
        Ok(_) if reply == wanted => (Answer::Right, behind),
        Ok(true) if reply == b"fault 0 memory\n".as_slice() => (Answer::Memory, 3),
        Ok(true) if reply == b"fault 2 memory\n".as_slice() => (Answer::Memory, 5),
        Err(CommandFault::Memory) if reply.is_empty() => (Answer::Memory, 3),
        _ => (Answer::Wrong, 3),
    }
}
