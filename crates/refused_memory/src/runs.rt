//! Lines of traces, states, runs whose trace is written, and traces that are compared.
//! A try of a call, from `begin` to `end`, is `Right`, out of `Memory`, or `Wrong`.

use crate::programs::{FIRST, image_of, meeting_after, shows, trace_of};
use crate::trial::{Answer, Trial, Tried};
use byte_ports::{MemorySink, MemorySource};
use std::alloc::{AllocError, Global};
use thread_machine::{Event, Mark, What};
use trace_compare::{CompareFault, RunFault, Verdict, compare, run_text};
use trace_text::line::{event_line, refusal_line};
use trace_text::state::state_text;

const EVENT: Event = Event {
    what: What::Value(-5),
    mark: Mark::Phase { root: 0, view: 1 },
};

/// Returns a text of three bytes with room for no more, so that an append has to allocate.
fn full_text(alloc: Global) -> Result<Vec<u8>, AllocError> {
    let mut text = Vec::with_capacity(alloc, 3)?;
    text.extend_from_slice(b"abc")?;
    Ok(text)
}

/// Judges a call that appends a line to `abc`: `text` has to be `wanted`, or still `abc` if memory was refused.
fn line_answer(answered: Result<(), AllocError>, text: &[u8], wanted: &[u8]) -> Answer {
    match answered {
        Ok(()) => Answer::Right.provided(text == wanted),
        Err(_) => Answer::Memory.provided(text == b"abc".as_slice()),
    }
}

/// Tries `event_line`, which appends the line of choice 7 at row 5 to a full text. If memory is refused, the text is as before.
pub fn event(trial: Trial) -> Tried {
    let mut text = full_text(trial.alloc)?;
    trial.begin();
    let answered = trial.end(event_line(&mut text, 7, FIRST.choice, 5, &EVENT));
    Ok(line_answer(answered, text.as_slice(), b"abc7 t0 5 = -5 +p0 1\n"))
}

/// Tries `refusal_line`, which appends the line of choice 8, of no thread (`None`), to a full text. If memory is refused, the
/// text is as before.
pub fn refusal(trial: Trial) -> Tried {
    let mut text = full_text(trial.alloc)?;
    trial.begin();
    let answered = trial.end(refusal_line(&mut text, 8, FIRST.choice, None));
    Ok(line_answer(answered, text.as_slice(), b"abc8 t0 - none\n"))
}

/// The state of the meeting before the first choice.
const AT_FIRST: &[u8] = b"state 0 0 live\nt0 0 runs 0 regs 0 0 0 0 0 0 0 0 stack out\n\
t1 0 runs 0 regs 0 0 0 0 0 0 0 0 stack out\np0 0 2 0 2\n";

/// Tries `state_text` of the meeting before its first choice. Afterwards the machine still shows this state.
pub fn state(trial: Trial) -> Tried {
    let machine = meeting_after(trial.alloc, 0)?;
    let answer = match trial.end(state_text(trial.begin(), &machine)) {
        Ok(text) => Answer::Right.provided(text.as_slice() == AT_FIRST),
        Err(_) => Answer::Memory,
    };
    Ok(answer.provided(shows(trial.alloc, &machine, AT_FIRST)?))
}

/// A thread that goes round for ever.
pub const ROUND: &[u8] = b".thread a m\nm: jmp m\n";

/// Returns a schedule with `choices` turns of thread 0: a token for each, and not one for all.
pub fn rounds(alloc: Global, choices: u32) -> Result<Vec<u8>, AllocError> {
    let mut schedule = Vec::new(alloc);
    for _ in 0..choices {
        schedule.extend_from_slice(b"t0 ")?;
    }
    Ok(schedule)
}

/// Returns whether `bytes` begin `trace` and have no line of its state, which begins with `s`: a cut run writes no state.
fn is_beginning(bytes: &[u8], trace: &[u8]) -> bool {
    for line in bytes.split(|byte| *byte == b'\n') {
        if line.starts_with(b"s") {
            return false;
        }
    }
    trace.starts_with(bytes)
}

/// Tries `run_text` of the program `text` with `schedule`: before `Memory` it writes a beginning of the choices' lines.
pub fn playing(trial: Trial, text: &[u8], schedule: &[u8]) -> Tried {
    let wanted = trace_of(trial.alloc, text, schedule)?;
    let mut trace = MemorySink::new(trial.alloc, 2_000_000, None)?;
    let image = image_of(trial.alloc, text)?;
    let mut source = MemorySource::new(schedule, None);
    Ok(
        match trial.end(run_text(trial.begin(), image, &mut source, &mut trace)) {
            Ok(()) => Answer::Right.provided(trace.bytes() == wanted.bytes()),
            Err(RunFault::Memory) => Answer::Memory.provided(is_beginning(
                trace.bytes(),
                wanted.bytes(),
            )),
            Err(_) => Answer::Wrong,
        },
    )
}

/// Tries `compare` of the program `text` with the trace that it has under `schedule`: the verdict is `Same`.
pub fn comparing(trial: Trial, text: &[u8], schedule: &[u8]) -> Tried {
    let trace = trace_of(trial.alloc, text, schedule)?;
    let image = image_of(trial.alloc, text)?;
    let mut source = MemorySource::new(trace.bytes(), None);
    Ok(
        match trial.end(compare(trial.begin(), image, &mut source)) {
            Ok(verdict) => Answer::Right.provided(verdict == Verdict::Same),
            Err(CompareFault::Memory) => Answer::Memory,
            Err(_) => Answer::Wrong,
        },
    )
}
