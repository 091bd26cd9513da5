//! The state of a session as numbers, in the rooms of its caller.
ghost use Rattle.std.specs.Prelude.{◌≡◌};
ghost use Rattle.vuthgal_c.specs.Looks.{BarriersAreSeen, CellsAreSeen, OutputsAreSeen, PhasersAreSeen, StackIsSeen, ThreadsAreSeen, output_count, stack_count, state_look};
ghost use Rattle.vuthgal_c.specs.Sessions.{Sees, SeesThread};

use crate::handle::Handle;
use crate::keeping::{put, take};
use crate::look::{BarrierLook, EntryLook, PhaserLook, StateLook, ThreadLook};
use crate::looking::{
    OfThread, has_thread, see_barriers, see_cells, see_phasers, see_threads, state_look,
};
use crate::sessions::{CLOSED, NO_THREAD};
use std::alloc::Global;

/// Writes the state of a session: its counts to `state`, and its threads, phasers, barriers and cells to the other rooms, as
/// many as fit. Returns 0, or 6 if no session is open: then nothing is written. It allocates nothing.
#[unsafe(no_mangle)]
pub extern "C" fn vuthgal_session_look(
    alloc: Global,
    session: &mut Handle,
    state: &mut StateLook,
    threads: &mut [ThreadLook],
    phasers: &mut [PhaserLook],
    barriers: &mut [BarrierLook],
    cells: &mut [i32],
) -> u8
    ensures state { Sees session.old.session result (λ world before after. after ≡ state_look world) state.old state.new }
    ensures threads { Sees session.old.session result ThreadsAreSeen threads.old threads.new }
    ensures phasers { Sees session.old.session result PhasersAreSeen phasers.old phasers.new }
    ensures barriers { Sees session.old.session result BarriersAreSeen barriers.old barriers.new }
    ensures cells { Sees session.old.session result CellsAreSeen cells.old cells.new }
    ensures session { session.new.session ≡ session.old.session }
{
    let Some(held) = take(alloc, session) else {
        return CLOSED;
    };
    let machine = held.machine();
    *state = state_look(machine);
    see_threads(machine, threads);
    see_phasers(machine, phasers);
    see_barriers(machine, barriers);
    see_cells(machine, cells);
    put(alloc, session, held);
    0
}

/// Writes a thread's list, its stack or its output by the type `L`, as much as fits, and the list's length. Returns 0, or 6 if
/// no session is open, or 7 if it has no such thread: then nothing is written.
fn see_thread<L: OfThread>(
    alloc: Global,
    session: &mut Handle,
    thread: u8,
    room: &mut [L],
    count: &mut usize,
) -> u8
    ensures seen { SeesThread session.old.session thread result L.are_seen L.count_of room.old room.new count.old count.new }
    ensures session { session.new.session ≡ session.old.session }
{
    let Some(held) = take(alloc, session) else {
        return CLOSED;
    };
    let machine = held.machine();
    let is_there = has_thread(machine, thread);
    if is_there {
        *count = L::count(machine, thread);
        L::see(machine, thread, room);
    }
    put(alloc, session, held);
    if is_there { 0 } else { NO_THREAD }
}

/// Writes the entries of a thread's stack from the bottom, as many as fit, and their count. Returns 0, or 6 if no session is
/// open, or 7 if it has no such thread: then nothing is written. It allocates nothing.
#[unsafe(no_mangle)]
pub extern "C" fn vuthgal_session_stack(
    alloc: Global,
    session: &mut Handle,
    thread: u8,
    entries: &mut [EntryLook],
    count: &mut usize,
) -> u8
    ensures stack { SeesThread session.old.session thread result StackIsSeen stack_count entries.old entries.new count.old count.new }
    ensures session { session.new.session ≡ session.old.session }
{
    see_thread(alloc, session, thread, entries, count)
}

/// Writes the values that a thread put out, as many as fit, and their count. Returns 0, or 6 if no session is open, or 7 if it
/// has no such thread: then nothing is written. It allocates nothing.
#[unsafe(no_mangle)]
pub extern "C" fn vuthgal_session_outputs(
    alloc: Global,
    session: &mut Handle,
    thread: u8,
    values: &mut [i32],
    count: &mut usize,
) -> u8
    ensures outputs { SeesThread session.old.session thread result OutputsAreSeen output_count values.old values.new count.old count.new }
    ensures session { session.new.session ≡ session.old.session }
{
    see_thread(alloc, session, thread, values, count)
}
