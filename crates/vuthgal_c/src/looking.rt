//! Looks at the state of a machine: its counts, its threads, phasers, barriers and cells.
ghost use Rattle.std.specs.Prelude.{◌≡◌, ◌<◌, List, length, nat_lt, ℕ};
ghost use Rattle.machine_scene.specs.Scene.{scene_of, thread_at, barrier_at};
ghost use Rattle.thread_machine.specs.World.{world_of};
ghost use Rattle.tier_tree.specs.{Forest.phaser_at, Stored.phasers_of};
ghost use Rattle.thread_state.specs.Thread.{ThreadState};
ghost use Rattle.vuthgal_c.specs.Looks.{BarriersAreSeen, CellsAreSeen, OutputsAreSeen, PhasersAreSeen, StackIsSeen, ThreadsAreSeen, barrier_look, phaser_look, state_look, thread_look};

use crate::look::{
    BarrierLook, EntryLook, NOTHING, PhaserLook, StateLook, ThreadLook, entry_look, flag, place_of,
    standing_number, status_number, status_value,
};
use cyclic_barrier::Barrier;
use instruction_table::Reg;
use thread_machine::Machine;
use tier_tree::{Forest, PhaserId};

/// Returns the counts of a machine's state. `is_forest` only proves that the number of phasers fits `u8`.
pub fn state_look(machine: &Machine) -> StateLook
    ensures { result ≡ state_look (world_of machine.now) }
{
    machine.forest().is_forest();
    StateLook {
        choices: machine.choices(),
        steps: machine.steps(),
        threads: machine.thread_count() as u8,
        phasers: machine.forest().len() as u8,
        barriers: machine.barrier_count() as u8,
        standing: standing_number(machine.standing()),
    }
}

/// Returns a thread's registers, status and counts as the struct of numbers that a caller in C gets.
fn thread_look(machine: &Machine, thread: u8) -> ThreadLook
    requires { thread < length machine.now.scene.threads }
    ensures { result ≡ thread_look machine.now.program (thread_at (scene_of machine.now.scene) thread) }
{
    let status = machine.status(thread);
    let row = machine.pc(thread);
    ThreadLook {
        r0: machine.reg(thread, Reg::R0),
        r1: machine.reg(thread, Reg::R1),
        r2: machine.reg(thread, Reg::R2),
        r3: machine.reg(thread, Reg::R3),
        r4: machine.reg(thread, Reg::R4),
        r5: machine.reg(thread, Reg::R5),
        r6: machine.reg(thread, Reg::R6),
        r7: machine.reg(thread, Reg::R7),
        value: status_value(status),
        row,
        object: place_of(status, machine.loaded().rows()[row as usize]),
        outputs: machine.output(thread).len() as u16,
        entries: machine.depth(thread) as u8,
        status: status_number(status),
        interrupted: flag(machine.interrupted(thread)),
    }
}

/// Returns a phaser's phase, counts and parent as the struct of numbers that a caller in C gets.
fn phaser_look(forest: &Forest, id: PhaserId) -> PhaserLook
    requires { id.0 < length forest.now }
    ensures { result ≡ phaser_look (phaser_at (phasers_of forest.now) id.0) }
{
    PhaserLook {
        phase: forest.phase(id),
        parties: forest.parties(id),
        arrived: forest.arrived(id),
        unarrived: forest.unarrived(id),
        parent: match forest.parent(id) {
            Some(parent) => u16::from(parent.0),
            None => NOTHING,
        },
    }
}

/// Returns a barrier's counts and runner as the struct of numbers that a caller in C gets.
fn barrier_look(barrier: &Barrier) -> BarrierLook
    ensures { result ≡ barrier_look barrier.now }
{
    BarrierLook {
        parties: barrier.parties(),
        waiting: barrier.number_waiting(),
        runner: match barrier.runner() {
            Some(thread) => u16::from(thread),
            None => NOTHING,
        },
        broken: flag(barrier.is_broken()),
    }
}

/// Fills a caller's room with the threads of a machine, as many as fit.
pub fn see_threads(machine: &Machine, room: &mut [ThreadLook])
    ensures { ThreadsAreSeen (world_of machine.now) room.old room.new }
{
    for thread in 0..machine.thread_count().min(room.len()) {
        room[thread] = thread_look(machine, thread as u8);
    }
}

/// Fills a caller's room with the phasers of a machine, as many as fit. `is_forest` only proves that their numbers fit `u8`.
pub fn see_phasers(machine: &Machine, room: &mut [PhaserLook])
    ensures { PhasersAreSeen (world_of machine.now) room.old room.new }
{
    let forest = machine.forest();
    forest.is_forest();
    for phaser in 0..forest.len().min(room.len()) {
        room[phaser] = phaser_look(forest, PhaserId(phaser as u8));
    }
}

/// Fills a caller's room with the barriers of a machine, as many as fit.
pub fn see_barriers(machine: &Machine, room: &mut [BarrierLook])
    ensures { BarriersAreSeen (world_of machine.now) room.old room.new }
{
    for barrier in 0..machine.barrier_count().min(room.len()) {
        room[barrier] = barrier_look(machine.barrier(barrier as u8));
    }
}

/// Fills a caller's room with the cells of a machine, of which there are 32, as many as fit.
pub fn see_cells(machine: &Machine, room: &mut [i32])
    ensures { CellsAreSeen (world_of machine.now) room.old room.new }
{
    for cell in 0..room.len().min(32) {
        room[cell] = machine.cell(cell as u8);
    }
}

/// Fills a caller's room with the entries of a thread's stack from the bottom, as many as fit.
fn see_stack(machine: &Machine, thread: u8, room: &mut [EntryLook])
    requires { thread < length machine.now.scene.threads }
    ensures { StackIsSeen (thread_at (scene_of machine.now.scene) thread) room.old room.new }
{
    for number in 0..machine.depth(thread).min(room.len()) {
        room[number] = entry_look(machine.entry(thread, number));
    }
}

/// Fills a caller's room with the values that a thread put out, as many as fit.
fn see_outputs(machine: &Machine, thread: u8, room: &mut [i32])
    requires { thread < length machine.now.scene.threads }
    ensures { OutputsAreSeen (thread_at (scene_of machine.now.scene) thread) room.old room.new }
{
    let values = machine.output(thread);
    for number in 0..values.len().min(room.len()) {
        room[number] = values[number];
    }
}

/// Returns whether a machine has a thread of this number.
pub fn has_thread(machine: &Machine, thread: u8) -> bool
    ensures { result ≡ nat_lt thread (length machine.now.scene.threads) }
{
    usize::from(thread) < machine.thread_count()
}

/// An element of a list that each thread has, as a caller sees it.
pub trait OfThread: Copy {
    // These are the first elements of a thread's list, as many as fit.
    ghost are_seen: { ThreadState → List Self → List Self → Type 0 };

    // How many elements it has.
    ghost count_of: { ThreadState → ℕ };

    /// Returns how many elements a thread's list has.
    fn count(machine: &Machine, thread: u8) -> usize
        requires { thread < length machine.now.scene.threads }
        ensures { result ≡ count_of (thread_at (scene_of machine.now.scene) thread) };

    /// Fills a caller's room with the elements of a thread's list, as many as fit.
    fn see(machine: &Machine, thread: u8, room: &mut [Self])
        requires { thread < length machine.now.scene.threads }
        ensures { are_seen (thread_at (scene_of machine.now.scene) thread) room.old room.new };
}

/// The entries of its stack, from the bottom.
impl OfThread for EntryLook {
    ghost use Rattle.vuthgal_c.specs.Looks.{StackIsSeen, stack_count};

    ghost are_seen = { StackIsSeen };

    ghost count_of = { stack_count };

    /// Returns how many entries the thread's stack has.
    fn count(machine: &Machine, thread: u8) -> usize {
        machine.depth(thread)
    }

    /// Fills the room with these entries, as many as fit.
    fn see(machine: &Machine, thread: u8, room: &mut [EntryLook]) {
        see_stack(machine, thread, room);
    }
}

/// The values that it put out.
impl OfThread for i32 {
    ghost use Rattle.vuthgal_c.specs.Looks.{OutputsAreSeen, output_count};

    ghost are_seen = { OutputsAreSeen };

    ghost count_of = { output_count };

    /// Returns how many values the thread put out.
    fn count(machine: &Machine, thread: u8) -> usize {
        machine.output(thread).len()
    }

    /// Fills the room with these values, as many as fit.
    fn see(machine: &Machine, thread: u8, room: &mut [i32]) {
        see_outputs(machine, thread, room);
    }
}
