//! Programs, their machines and their traces.

use assembler::assemble;
use byte_ports::{MemorySink, MemorySource};
use loader::{Loaded, load};
use row_code::Image;
use schedule_reader::Run;
use std::alloc::{AllocError, Global};
use thread_machine::{Choice, Machine};
use trace_text::run::run_text;
use trace_text::state::state_text;

/// Two threads meet at a phaser and put out the phase that follows.
pub const MEETING: &[u8] =
    b".phaser p 2\n.thread a main\n.thread b main\nmain: paaa r0 p\nout r0\nhalt\n";

/// A schedule of the meeting, until both threads have ended.
pub const SCHEDULE: &[u8] = b"t0 t1 t0*3 t1*2";

/// A turn of the meeting's first thread.
pub const FIRST: Run = Run {
    choice: Choice {
        thread: 0,
        expiry: false,
    },
    times: 1,
};

/// A turn of the meeting's second thread.
pub const SECOND: Run = Run {
    choice: Choice {
        thread: 1,
        expiry: false,
    },
    times: 1,
};

/// The meeting's turns until both threads have ended. The fourth and the sixth put a value out.
pub const TURNS: [Run; 7] = [FIRST, SECOND, FIRST, FIRST, FIRST, SECOND, SECOND];

/// Returns the image of a text. Any fault counts as out of memory, since the text has none.
pub fn image_of(alloc: Global, text: &[u8]) -> Result<Image, AllocError> {
    assemble(alloc, text).map_err(|_| AllocError)
}

/// Returns the program of a text. Any fault counts as out of memory, since the text has none.
pub fn program_of(alloc: Global, text: &[u8]) -> Result<Loaded, AllocError> {
    load(alloc, image_of(alloc, text)?).map_err(|_| AllocError)
}

/// Returns the trace of the program `text` under `schedule`, of at most 2,000,000 bytes. Any fault counts as out of memory.
pub fn trace_of(alloc: Global, text: &[u8], schedule: &[u8]) -> Result<MemorySink, AllocError> {
    let mut source = MemorySource::new(schedule, None);
    let mut trace = MemorySink::new(alloc, 2_000_000, None)?;
    match run_text(alloc, image_of(alloc, text)?, &mut source, &mut trace) {
        Ok(()) => Ok(trace),
        Err(_) => Err(AllocError),
    }
}

/// Plays these choices. One that is refused counts as out of memory.
fn play(machine: &mut Machine, turns: &[Run]) -> Result<(), AllocError> {
    for turn in turns {
        if machine.step(turn.choice).is_err() {
            return Err(AllocError);
        }
    }
    Ok(())
}

/// Returns the machine of the program `MEETING` after its first `count` choices (at most 7). Its limit is never reached.
pub fn meeting_after(alloc: Global, count: usize) -> Result<Machine, AllocError> {
    let mut machine = Machine::new(alloc, program_of(alloc, MEETING)?, 1000)?;
    play(&mut machine, &TURNS[..count.min(7)])?;
    Ok(machine)
}

/// Returns whether a machine shows this state.
pub fn shows(alloc: Global, machine: &Machine, state: &[u8]) -> Result<bool, AllocError> {
    Ok(state_text(alloc, machine)?.as_slice() == state)
}

/// Returns whether `machine` shows the state of the meeting after its first `count` choices.
pub fn is_at(alloc: Global, machine: &Machine, count: usize) -> Result<bool, AllocError> {
    let wanted = state_text(alloc, &meeting_after(alloc, count)?)?;
    shows(alloc, machine, wanted.as_slice())
}

/// Returns whether `machine` shows the state of the meeting after its first `count` choices, and then plays the rest of the 7.
pub fn goes_on(alloc: Global, machine: &mut Machine, count: usize) -> Result<bool, AllocError> {
    let stood = is_at(alloc, machine, count)?;
    play(machine, &TURNS[count.min(7)..])?;
    Ok(stood && is_at(alloc, machine, 7)?)
}
