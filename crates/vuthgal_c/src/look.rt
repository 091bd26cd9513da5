//! What a caller sees of a session's state and of a choice: structs of numbers, as `include/vuthgal.h` declares them.
ghost use Rattle.std.specs.Prelude.{◌≡◌};
ghost use Rattle.loader.specs.Named.{named_by};
ghost use Rattle.vuthgal_c.specs.Looks.{entry_look, event_look, flag, mark_number, mark_object, mark_view, object_of, place_of, standing_number, status_number, status_value, what_number, what_value};

use instruction_table::Row;
use loader::{Named, named_by};
use thread_machine::{Entry, Event, Mark, Standing, Status, What};

/// No phaser, barrier or thread has this number.
pub const NOTHING: u16 = 65535;

/// The counts of a state, and how many threads and objects there are.
#[repr(C)]
#[derive(Clone, Copy)]
pub struct StateLook {
    pub choices: u64,
    pub steps: u32,
    pub threads: u8,
    pub phasers: u8,
    pub barriers: u8,
    /// 0 live, 1 stuck, 2 all have ended or died.
    pub standing: u8,
}

/// A thread.
#[repr(C)]
#[derive(Clone, Copy)]
pub struct ThreadLook {
    pub r0: i32,
    pub r1: i32,
    pub r2: i32,
    pub r3: i32,
    pub r4: i32,
    pub r5: i32,
    pub r6: i32,
    pub r7: i32,
    /// The exception that it throws or died of, the phase that it awaits, or the index of its arrival at a barrier.
    pub value: i32,
    pub row: u16,
    /// The phaser or barrier at which it waits, or 65535.
    pub object: u16,
    /// How many values it put out.
    pub outputs: u16,
    /// How many entries its stack has.
    pub entries: u8,
    /// 0 runs, 1 throws, 2 awaits a phase, 3 awaits a barrier, 4 ended, 5 died.
    pub status: u8,
    pub interrupted: u8,
}

/// A phaser.
#[repr(C)]
#[derive(Clone, Copy)]
pub struct PhaserLook {
    /// `getPhase`: negative once it is terminated.
    pub phase: i32,
    pub parties: u16,
    pub arrived: u16,
    pub unarrived: u16,
    /// The number of its parent, or 65535.
    pub parent: u16,
}

/// A barrier.
#[repr(C)]
#[derive(Clone, Copy)]
pub struct BarrierLook {
    pub parties: u16,
    pub waiting: u16,
    /// The thread that runs its action, or 65535.
    pub runner: u16,
    pub broken: u8,
}

/// An entry of a thread's stack.
#[repr(C)]
#[derive(Clone, Copy)]
pub struct EntryLook {
    /// The row of a call or a handler, the root of a routine, or the barrier of an action.
    pub number: u16,
    /// 0 call, 1 handler, 2 routine, 3 action.
    pub kind: u8,
}

/// What a choice did.
#[repr(C)]
#[derive(Clone, Copy)]
pub struct EventLook {
    /// The number of the choice, from 1.
    pub number: u64,
    /// The result, the value put out, or the exception.
    pub value: i32,
    /// The view of the root after the end of its phase.
    pub view: i32,
    pub row: u16,
    /// The root or barrier of the mark, or 65535.
    pub object: u16,
    /// 0 idle, 1 ok, 2 a result, 3 put out, 4 waits, 5 throws, 6 enters, 7 unwinds, 8 catches, 9 dies, 10 ends.
    pub what: u8,
    /// 0 nothing, 1 the end of a phase, 2 a barrier trips, 3 a barrier breaks.
    pub mark: u8,
}

/// Returns the number of the phaser or barrier that a row names, or 65535 if it names neither.
fn object_of(row: Row) -> u16
    ensures { result ≡ object_of (named_by row) }
{
    match named_by(row) {
        Named::Phaser(phaser) => phaser,
        Named::Barrier(barrier) => barrier,
        _ => NOTHING,
    }
}

/// Returns a thread's status as the number that `ThreadLook.status` has for it.
pub fn status_number(status: Status) -> u8
    ensures { result ≡ status_number status }
{
    match status {
        Status::Runs => 0,
        Status::Throws(_) => 1,
        Status::AwaitsPhase(_) => 2,
        Status::AwaitsBarrier(_) => 3,
        Status::Ended => 4,
        Status::Died(_) => 5,
    }
}

/// Returns the exception, phase or arrival index that a thread's status carries, or 0 if it carries none (`ThreadLook.value`).
pub fn status_value(status: Status) -> i32
    ensures { result ≡ status_value status }
{
    match status {
        Status::Throws(code) | Status::Died(code) => code,
        Status::AwaitsPhase(phase) => phase,
        Status::AwaitsBarrier(index) => index,
        Status::Runs | Status::Ended => 0,
    }
}

/// Returns the number of the phaser or barrier at which a thread at this row waits, or 65535 if it doesn't wait.
pub fn place_of(status: Status, row: Row) -> u16
    ensures { result ≡ place_of status row }
{
    match status {
        Status::AwaitsPhase(_) | Status::AwaitsBarrier(_) => object_of(row),
        _ => NOTHING,
    }
}

/// Returns a machine's standing as a number: 0 if a thread can go on, 1 if none can but some wait, 2 if all have ended or died.
pub fn standing_number(standing: Standing) -> u8
    ensures { result ≡ standing_number standing }
{
    match standing {
        Standing::Live => 0,
        Standing::Stuck => 1,
        Standing::All => 2,
    }
}

/// Returns an entry of a stack as the struct of numbers that a caller in C gets.
pub fn entry_look(entry: Entry) -> EntryLook
    ensures { result ≡ entry_look entry }
{
    match entry {
        Entry::Call(row) => EntryLook {
            number: row,
            kind: 0,
        },
        Entry::Handler(row) => EntryLook {
            number: row,
            kind: 1,
        },
        Entry::Advance(root) => EntryLook {
            number: u16::from(root),
            kind: 2,
        },
        Entry::Action(barrier) => EntryLook {
            number: u16::from(barrier),
            kind: 3,
        },
    }
}

/// Returns what happened to a thread as the number that `EventLook.what` has for it.
fn what_number(what: What) -> u8
    ensures { result ≡ what_number what }
{
    match what {
        What::Idle => 0,
        What::Done => 1,
        What::Value(_) => 2,
        What::Out(_) => 3,
        What::Waits => 4,
        What::Throws(_) => 5,
        What::Enters => 6,
        What::Unwinds => 7,
        What::Catches(_) => 8,
        What::Dies(_) => 9,
        What::Ends => 10,
    }
}

/// Returns the result, the value put out, or the exception that an event carries, or 0 if it carries none (`EventLook.value`).
fn what_value(what: What) -> i32
    ensures { result ≡ what_value what }
{
    match what {
        What::Value(value) | What::Out(value) => value,
        What::Throws(code) | What::Catches(code) | What::Dies(code) => code,
        What::Idle | What::Done | What::Waits | What::Enters | What::Unwinds | What::Ends => 0,
    }
}

/// Returns what a choice did to a phaser or a barrier as the number that `EventLook.mark` has for it: 0 for nothing.
fn mark_number(mark: Mark) -> u8
    ensures { result ≡ mark_number mark }
{
    match mark {
        Mark::Nothing => 0,
        Mark::Phase { .. } => 1,
        Mark::Tripped(_) => 2,
        Mark::Broke(_) => 3,
    }
}

/// Returns the root phaser whose phase ended, or the barrier that tripped or broke, or 65535 if there was none.
fn mark_object(mark: Mark) -> u16
    ensures { result ≡ mark_object mark }
{
    match mark {
        Mark::Nothing => NOTHING,
        Mark::Phase { root, .. } => u16::from(root),
        Mark::Tripped(barrier) | Mark::Broke(barrier) => u16::from(barrier),
    }
}

/// Returns what `getPhase` of the root returns after the end of its phase, or 0 if no phase ended.
fn mark_view(mark: Mark) -> i32
    ensures { result ≡ mark_view mark }
{
    match mark {
        Mark::Phase { view, .. } => view,
        _ => 0,
    }
}

/// Returns the event of choice `number`, made by a thread at this row, as the struct of numbers that a caller in C gets.
pub fn event_look(number: u64, row: u16, event: Event) -> EventLook
    ensures { result ≡ event_look number row event }
{
    EventLook {
        number,
        value: what_value(event.what),
        view: mark_view(event.mark),
        row,
        object: mark_object(event.mark),
        what: what_number(event.what),
        mark: mark_number(event.mark),
    }
}

/// Returns 1 for true, and 0 for false.
pub fn flag(is: bool) -> u8
    ensures { result ≡ flag is }
{
    if is { 1 } else { 0 }
}
