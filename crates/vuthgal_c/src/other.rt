//! The other run that begins with a choice.
ghost use Rattle.std.specs.Prelude.{◌≡◌, ◌==◌, ◌≤◌, ◌<◌, ℕ, List, Err, IfErr, IfOk, length, min, not};
ghost use Rattle.std.specs.String.{string_bytes};
ghost use Rattle.thread_machine.specs.World.{world_of};
ghost use Rattle.vuthgal_c.specs.Sessions.{AreChoicesIn, FollowsOther, HasNoOther, IsOther, IsRefusedRest, Others, no_other_status};
ghost use Rattle.vuthgal_c.specs.Shows.{Holds};

use crate::files::is_within;
use crate::handing::hand_all;
use crate::handle::Handle;
use crate::keeping::{put, take};
use crate::looking::has_thread;
use crate::sessions::{CLOSED, NO_THREAD};
use pictures::choices::choices_in;
use pictures::page::PageFault;
use plans::others::other_choices;
use schedule_reader::write_schedule;
use std::alloc::{AllocError, Global};
use thread_machine::{Choice, Machine};

/// The most choices of another run.
const MOST: u32 = 1_000_000;

/// Why there is no other run.
#[derive(Clone, Copy)]
enum NoOther {
    /// There is no such thread.
    Thread,
    /// The run's own choices are too long a text, or can't be read, or are more than 2,000.
    Rest,
    /// Out of memory.
    Memory,
}

impl NoOther {
    /// Returns the number that `vuthgal_session_other` returns for this reason.
    fn status(self) -> u8
        ensures { result ≡ no_other_status self }
    {
        match self {
            NoOther::Thread => NO_THREAD,
            NoOther::Rest => 3,
            NoOther::Memory => 4,
        }
    }
}

/// Returns the choices with which the run goes on, read from the schedule `rest`. Fails if `rest` is too long or no schedule.
fn own_choices(alloc: Global, rest: &[u8]) -> Result<Vec<Choice>, NoOther>
    ensures own { IfOk result (λ own. AreChoicesIn rest.now own.items) }
    ensures refused { result ≡ Err NoOther.Rest → IsRefusedRest rest.now }
    ensures thread { result ≡ Err NoOther.Thread → ⊥ }
{
    if !is_within(rest) {
        return Err(NoOther::Rest);
    }
    match choices_in(alloc, rest) {
        Ok(own) => Ok(own),
        Err(PageFault::Memory) => Err(NoOther::Memory),
        Err(_) => Err(NoOther::Rest),
    }
}

/// Returns the schedule of another run that makes `choice` now, where this run would go on with `own`: at most `most` choices.
fn schedule_of_other(
    alloc: Global,
    machine: &Machine,
    choice: Choice,
    most: u32,
    own: &[Choice],
) -> Result<String, AllocError>
    ensures { IfOk result (λ text. FollowsOther (world_of machine.now) choice most own.now (string_bytes text)) }
{
    let copy = machine.copy(alloc)?;
    let planned = other_choices(alloc, copy, most.min(MOST), choice, own)?;
    write_schedule(alloc, planned.runs.as_slice())
}

/// Returns the schedule of a run that makes `choice` now, where this run goes on with `rest`. Fails if the thread doesn't
/// exist, `rest` is refused, or it is out of memory.
fn other_text(
    alloc: Global,
    machine: &Machine,
    choice: Choice,
    most: u32,
    rest: &[u8],
) -> Result<String, NoOther>
    ensures text { IfOk result (λ text. (choice.thread < length machine.now.scene.threads)
        × IsOther (world_of machine.now) choice most rest.now (string_bytes text)) }
    ensures none { IfErr result (λ why. HasNoOther why (world_of machine.now) choice rest.now) }
{
    if !has_thread(machine, choice.thread) {
        return Err(NoOther::Thread);
    }
    let own = match own_choices(alloc, rest) {
        Ok(own) => own,
        Err(why) => return Err(why),
    };
    match schedule_of_other(alloc, machine, choice, most, own.as_slice()) {
        Ok(text) => Ok(text),
        Err(_) => Err(NoOther::Memory),
    }
}

/// Writes the schedule of another run, of at most `most` choices. It begins in this session's state with a thread's turn, or,
/// if `expiry` isn't 0, with the expiry of its wait. The session's own run goes on with `rest`. Returns 0; 6 if no session is
/// open; 7 without such a thread; 3 for a wrong `rest`; 4 without memory.
#[unsafe(no_mangle)]
pub extern "C" fn vuthgal_session_other(
    alloc: Global,
    session: &mut Handle,
    thread: u8,
    expiry: u8,
    most: u32,
    rest: &[u8],
    output: &mut [u8],
    output_length: &mut usize,
) -> u8
    ensures other { (text : List ℕ) × (Holds output.old output.new output_length.new text
        × Others session.old.session (record { thread = thread; expiry = not (expiry == 0) }) most rest.now result text) }
    ensures session { session.new.session ≡ session.old.session }
{
    let Some(held) = take(alloc, session) else {
        hand_all(b"", output, output_length);
        return CLOSED;
    };
    let choice = Choice {
        thread,
        expiry: expiry != 0,
    };
    let told = other_text(alloc, held.machine(), choice, most, rest);
    put(alloc, session, held);
    match told {
        Ok(text) => {
            hand_all(text.as_bytes(), output, output_length);
            0
        }
        Err(why) => {
            hand_all(b"", output, output_length);
            why.status()
        }
    }
}
