//! Shows a person which threads can go on, and which wait.

ghost use Rattle.std.specs.Prelude.{◌<◌, length};

use assembler::Symbols;
use byte_ports::{Failed, Sink};
use instruction_table::OperandKind;
use itoa::Buffer;
use pictures::caption::{push_called, push_row};
use pictures::line::row_of;
use std::alloc::{AllocError, Global};
use thread_machine::{Machine, Status};

/// How many threads are named at most.
const MOST_NAMED: usize = 8;

/// Returns whether a thread waits at a phaser or a barrier.
fn is_waiting(machine: &Machine, thread: u8) -> bool
    requires { thread < length machine.now.scene.threads }
{
    matches!(
        machine.status(thread),
        Status::AwaitsPhase(_) | Status::AwaitsBarrier(_)
    )
}

/// Returns what a thread that can go on does next, if it doesn't play its row, or else nothing.
fn does(machine: &Machine, thread: u8) -> &'static [u8]
    requires { thread < length machine.now.scene.threads }
{
    if !machine.is_ready(thread) {
        b" (its time runs out)"
    } else if is_waiting(machine, thread) {
        b" (its wait ends)"
    } else if matches!(machine.status(thread), Status::Throws(_)) {
        b" (it throws)"
    } else {
        b""
    }
}

/// Appends the line of a thread: its choice, its name, its row, and what it does next, or that it waits if it can't go on.
fn push_thread(
    text: &mut Vec<u8>,
    symbols: &Symbols<'_>,
    machine: &Machine,
    thread: u8,
    can_go: bool,
) -> Result<(), AllocError>
    requires { thread < length machine.now.scene.threads }
{
    let is_expiry = can_go && !machine.is_ready(thread);
    text.extend_from_slice(if is_expiry { b"  x" } else { b"  t" })?;
    text.extend_from_slice(Buffer::new().format(thread).as_bytes())?;
    text.push(b' ')?;
    push_called(text, symbols, OperandKind::Thread, u32::from(thread))?;
    text.extend_from_slice(if can_go { b"".as_slice() } else { b" waits" })?;
    text.extend_from_slice(b" at row ")?;
    text.extend_from_slice(Buffer::new().format(machine.pc(thread)).as_bytes())?;
    text.extend_from_slice(b": ")?;
    push_row(text, symbols, row_of(machine, thread))?;
    if can_go {
        text.extend_from_slice(does(machine, thread))?;
    }
    text.extend_from_slice(b"\n")
}

/// Appends the first eight threads that can go on (`can_go`), or that wait, and how many more. Returns how many there are.
fn push_threads(
    text: &mut Vec<u8>,
    symbols: &Symbols<'_>,
    machine: &Machine,
    can_go: bool,
) -> Result<usize, AllocError> {
    let mut count: usize = 0;
    for number in 0..machine.thread_count() {
        let thread = number as u8;
        let goes = machine.is_ready(thread) || machine.can_expire(thread);
        if goes == can_go && (goes || is_waiting(machine, thread)) {
            if count < MOST_NAMED {
                push_thread(text, symbols, machine, thread, can_go)?;
            }
            count = count.saturating_add(1);
        }
    }
    if count > MOST_NAMED {
        let more = count.saturating_sub(MOST_NAMED);
        text.extend_from_slice(b"  and ")?;
        text.extend_from_slice(Buffer::new().format(more).as_bytes())?;
        text.extend_from_slice(if can_go {
            b" more\n".as_slice()
        } else {
            b" more wait\n"
        })?;
    }
    Ok(count)
}

/// Returns the lines of the threads that can go on, or why there is none, and of those that wait.
fn may_go(alloc: Global, symbols: &Symbols<'_>, machine: &Machine) -> Result<Vec<u8>, AllocError> {
    let mut text = Vec::new(alloc);
    if push_threads(&mut text, symbols, machine, true)? == 0 {
        text.extend_from_slice(if machine.stuck() {
            b"  no thread can continue: stuck\n".as_slice()
        } else {
            b"  all have ended or died\n"
        })?;
    }
    push_threads(&mut text, symbols, machine, false)?;
    Ok(text)
}

/// Writes which threads can go on and which wait, or nothing if it is out of memory.
pub fn push_may_go<E: Sink>(
    alloc: Global,
    notes: &mut E,
    symbols: &Symbols<'_>,
    machine: &Machine,
) -> Result<(), Failed> {
    match may_go(alloc, symbols, machine) {
        Ok(text) => notes.push(text.as_slice()),
        Err(_) => Ok(()),
    }
}
