//! Single choices of a session: played, taken back, and which of them would do something.
ghost use Rattle.std.specs.Prelude.{◌≡◌, ◌==◌, not};
ghost use Rattle.vuthgal_c.specs.Sessions.{Backs, Enables, Steps, refused_status};

use crate::handle::Handle;
use crate::keeping::{put, take};
use crate::look::EventLook;
use crate::sessions::{CLOSED, NO_THREAD};
use std::alloc::Global;
use thread_machine::{Choice, StepFault};

/// Returns a call's number for a refused choice: 7 without such a thread, 8 at the limit of steps, 4 without memory.
pub fn refused_status(fault: StepFault) -> u8
    ensures { result ≡ refused_status fault }
{
    match fault {
        StepFault::NoSuchThread => NO_THREAD,
        StepFault::StepLimit => 8,
        StepFault::Memory => 4,
    }
}

/// Plays a choice: a thread's turn, or, if `expiry` isn't 0, the expiry of its wait. `event` gets what it did. Returns 0; 6 if
/// no session is open; 7 without such a thread; 8 at the limit of steps; 4 without memory. Except for 0, nothing changes.
#[unsafe(no_mangle)]
pub extern "C" fn vuthgal_session_step(
    alloc: Global,
    session: &mut Handle,
    thread: u8,
    expiry: u8,
    event: &mut EventLook,
) -> u8
    ensures { Steps session.old.session (record { thread = thread; expiry = not (expiry == 0) }) session.new.session result
        event.old event.new }
{
    let Some(mut held) = take(alloc, session) else {
        return CLOSED;
    };
    let choice = Choice {
        thread,
        expiry: expiry != 0,
    };
    let status = match held.step(choice) {
        Ok(done) => {
            *event = done;
            0
        }
        Err(fault) => refused_status(fault),
    };
    put(alloc, session, held);
    status
}

/// Takes back the last choice. Returns 0, or 1 if none is kept for that, or 6 if no session is open. It allocates nothing.
#[unsafe(no_mangle)]
pub extern "C" fn vuthgal_session_back(alloc: Global, session: &mut Handle) -> u8
    ensures { Backs session.old.session session.new.session result }
{
    let Some(mut held) = take(alloc, session) else {
        return CLOSED;
    };
    let is_back = held.back();
    put(alloc, session, held);
    if is_back { 0 } else { 1 }
}

/// Writes which choices would do something: bit t of `turns` for the turn of thread t, bit t of `expiries` for the expiry of
/// its wait. Returns 0, or 6 and no bits if no session is open. It allocates nothing.
#[unsafe(no_mangle)]
pub extern "C" fn vuthgal_session_enabled(
    alloc: Global,
    session: &mut Handle,
    turns: &mut u64,
    expiries: &mut u64,
) -> u8
    ensures enabled { Enables session.old.session result turns.new expiries.new }
    ensures session { session.new.session ≡ session.old.session }
{
    let Some(held) = take(alloc, session) else {
        *turns = 0;
        *expiries = 0;
        return CLOSED;
    };
    let (of_turns, of_expiries) = held.machine().enabled();
    *turns = of_turns;
    *expiries = of_expiries;
    put(alloc, session, held);
    0
}
