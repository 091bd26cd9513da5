// The text of a state: its counts, threads, phasers, barriers and cells.
ghost use Rattle.std.specs.Prelude.{◌≡◌, ◌++◌, ◌*◌, ◌<◌, ◌≤◌, All, pos, length, flat_map, codes, IfOk, OnOk, if◌then◌else◌};
ghost use Rattle.std.specs.Fmt.{decimal};
ghost use Rattle.packed_phaser.specs.Flat.{unarrived_of};
ghost use Rattle.machine_scene.specs.Scene.{scene_of, thread_at};
ghost use Rattle.tier_tree.specs.{Forest.phaser_at, Forest.flat_at, Stored.phasers_of};
ghost use Rattle.thread_machine.specs.{World.world_of, Standing.name_of, Standing.standing_of};
ghost use Rattle.trace_text.specs.{Brief.IsBrief, Reading.HasNoLongLine};
ghost use Rattle.trace_text.specs.State.{status_text, entry_text, stack_text, registers_text, value_text, numbered_texts, thread_text, phaser_text, barrier_text, cell_text, state_text};

use super::pieces::{add_with_count, add_with_value};
use cyclic_barrier::Barrier;
use instruction_table::Reg;
use std::alloc::{AllocError, Global};
use thread_machine::{Entry, Machine, Status};
use tier_tree::{Forest, PhaserId};

const REGISTERS: [Reg; 8] = [
    Reg::R0,
    Reg::R1,
    Reg::R2,
    Reg::R3,
    Reg::R4,
    Reg::R5,
    Reg::R6,
    Reg::R7,
];

/// Appends the first line, as `state 7 7 all`: how many choices and steps, and `all`, `stuck` or `live`.
fn add_counts(text: &mut Vec<u8>, machine: &Machine) -> Result<(), AllocError>
    ensures { OnOk result (text.new.items ≡ text.old.items ++ (codes "state "
        ++ (decimal machine.now.choices ++ (codes " " ++ (decimal machine.now.steps
        ++ (codes " " ++ (name_of (standing_of (world_of machine.now)) ++ codes "\n"))))))) }
{
    add_with_count(text, b"state ", machine.choices())?;
    add_with_count(text, b" ", u64::from(machine.steps()))?;
    text.extend_from_slice(b" ")?;
    text.extend_from_slice(machine.standing().name())?;
    text.extend_from_slice(b"\n")
}

/// Appends a thread's status, as `waits` or `died:-5` with the code of its exception.
fn add_status(text: &mut Vec<u8>, status: Status) -> Result<(), AllocError>
    ensures { OnOk result (text.new.items ≡ text.old.items ++ status_text status) }
{
    match status {
        Status::Runs => text.extend_from_slice(b"runs"),
        Status::Throws(code) => add_with_value(text, b"throws:", code),
        Status::AwaitsPhase(_) | Status::AwaitsBarrier(_) => text.extend_from_slice(b"waits"),
        Status::Ended => text.extend_from_slice(b"ended"),
        Status::Died(code) => add_with_value(text, b"died:", code),
    }
}

/// Appends a stack entry, a blank before it: `C` (call) or `H` (handler) and a row, `A` (`onAdvance`) and a root's number, or
/// `X` (action) and a barrier's number.
fn add_entry(text: &mut Vec<u8>, entry: Entry) -> Result<(), AllocError>
    ensures { OnOk result (text.new.items ≡ text.old.items ++ entry_text entry) }
{
    match entry {
        Entry::Call(row) => add_with_count(text, b" C", u64::from(row)),
        Entry::Handler(row) => add_with_count(text, b" H", u64::from(row)),
        Entry::Advance(root) => add_with_count(text, b" A", u64::from(root)),
        Entry::Action(barrier) => add_with_count(text, b" X", u64::from(barrier)),
    }
}

/// Appends the entries of a thread's stack, each after a blank: none if the stack is empty.
fn add_stack(text: &mut Vec<u8>, machine: &Machine, thread: u8) -> Result<(), AllocError>
    requires { thread < length machine.now.scene.threads }
    ensures text { OnOk result (text.new.items
        ≡ text.old.items ++ stack_text (thread_at (scene_of machine.now.scene) thread).stack) }
    ensures few { length (thread_at (scene_of machine.now.scene) thread).stack ≤ 64 }
{
    for number in 0..machine.depth(thread) {
        add_entry(text, machine.entry(thread, number))?;
    }
    Ok(())
}

/// Appends the values of these registers of a thread, each after a blank.
#[tactic(auto, using(crate::proofs::Traces::text_steps))]
fn add_registers(
    text: &mut Vec<u8>,
    machine: &Machine,
    thread: u8,
    registers: &[Reg],
) -> Result<(), AllocError>
    requires { thread < length machine.now.scene.threads }
    ensures { OnOk result (text.new.items ≡ text.old.items
        ++ registers_text (thread_at (scene_of machine.now.scene) thread).registers registers.now) }
{
    for register in registers {
        add_with_value(text, b" ", machine.reg(thread, *register))?;
    }
    Ok(())
}

/// Appends the values that a thread has put out, each after a blank.
fn add_values(text: &mut Vec<u8>, values: &[i32]) -> Result<(), AllocError>
    ensures text { OnOk result (text.new.items ≡ text.old.items ++ flat_map value_text values.now) }
    ensures few { OnOk result (length (flat_map value_text values.now) ≤ 12 * length values.now) }
{
    for value in values {
        add_with_value(text, b" ", *value)?;
    }
    Ok(())
}

/// Appends the beginning of a thread's line, its number and its row, as `t0 2 `.
fn add_thread_place(text: &mut Vec<u8>, machine: &Machine, thread: u8) -> Result<(), AllocError>
    requires { thread < length machine.now.scene.threads }
    ensures { let state = thread_at (scene_of machine.now.scene) thread in OnOk result
        (text.new.items ≡ text.old.items ++ (codes "t" ++ (decimal thread ++ (codes " "
        ++ (decimal state.pc ++ codes " "))))) }
{
    add_with_count(text, b"t", u64::from(thread))?;
    add_with_count(text, b" ", u64::from(machine.pc(thread)))?;
    text.extend_from_slice(b" ")
}

/// Appends a thread's status, 1 if it is interrupted and 0 if not, and the word `regs`.
fn add_thread_status(text: &mut Vec<u8>, machine: &Machine, thread: u8) -> Result<(), AllocError>
    requires { thread < length machine.now.scene.threads }
    ensures { let state = thread_at (scene_of machine.now.scene) thread in OnOk result
        (text.new.items ≡ text.old.items ++ (status_text state.status
        ++ (if state.interrupted then codes " 1 regs" else codes " 0 regs"))) }
{
    add_status(text, machine.status(thread))?;
    text.extend_from_slice(if machine.interrupted(thread) {
        b" 1 regs"
    } else {
        b" 0 regs"
    })
}

/// Appends the end of a thread's line: ` stack` and its entries, ` out` and the values put out, and an LF.
fn add_thread_tail(text: &mut Vec<u8>, machine: &Machine, thread: u8) -> Result<(), AllocError>
    requires { thread < length machine.now.scene.threads }
    ensures text { let state = thread_at (scene_of machine.now.scene) thread in OnOk result
        (text.new.items ≡ text.old.items ++ (codes " stack" ++ (stack_text state.stack
        ++ (codes " out" ++ (flat_map value_text state.output ++ codes "\n"))))) }
    ensures brief { OnOk result (IsBrief (thread_at (scene_of machine.now.scene) thread)) }
{
    text.extend_from_slice(b" stack")?;
    add_stack(text, machine, thread)?;
    text.extend_from_slice(b" out")?;
    add_values(text, machine.output(thread))?;
    text.extend_from_slice(b"\n")
}

/// Appends the line of a thread, as `t0 2 ended 0 regs 1 0 0 0 0 0 0 0 stack out 1`.
fn add_thread(text: &mut Vec<u8>, machine: &Machine, thread: u8) -> Result<(), AllocError>
    requires { thread < length machine.now.scene.threads }
    ensures text { OnOk result (text.new.items
        ≡ text.old.items ++ thread_text thread (thread_at (scene_of machine.now.scene) thread)) }
    ensures brief { OnOk result (IsBrief (thread_at (scene_of machine.now.scene) thread)) }
{
    add_thread_place(text, machine, thread)?;
    add_thread_status(text, machine, thread)?;
    add_registers(text, machine, thread, &REGISTERS)?;
    add_thread_tail(text, machine, thread)
}

/// Appends the line of each thread, by number from 0, as `add_thread` does.
fn add_threads(text: &mut Vec<u8>, machine: &Machine) -> Result<(), AllocError>
    ensures text { OnOk result (text.new.items
        ≡ text.old.items ++ numbered_texts thread_text 0 machine.now.scene.threads) }
    ensures brief { OnOk result (All IsBrief machine.now.scene.threads) }
{
    for thread in 0..machine.thread_count() {
        add_thread(text, machine, thread as u8)?;
    }
    Ok(())
}

/// Appends the end of a phaser's line: how many parties there are, how many have arrived, and how many haven't, as ` 2 1 1`.
fn add_parties(text: &mut Vec<u8>, forest: &Forest, id: PhaserId) -> Result<(), AllocError>
    requires { id.0 < length forest.now }
    ensures { let flat = flat_at (phasers_of forest.now) id.0 in OnOk result (text.new.items
        ≡ text.old.items ++ (value_text (pos flat.parties) ++ (value_text (pos flat.arrived)
        ++ (value_text (pos (unarrived_of flat)) ++ codes "\n")))) }
{
    add_with_value(text, b" ", i32::from(forest.parties(id)))?;
    add_with_value(text, b" ", i32::from(forest.arrived(id)))?;
    add_with_value(text, b" ", i32::from(forest.unarrived(id)))?;
    text.extend_from_slice(b"\n")
}

/// Appends the line of a phaser, as `p0 1 2 0 2`: its number, what `getPhase` returns, and its parties.
fn add_phaser(text: &mut Vec<u8>, forest: &Forest, id: PhaserId) -> Result<(), AllocError>
    requires { id.0 < length forest.now }
    ensures { OnOk result (text.new.items
        ≡ text.old.items ++ phaser_text id.0 (phaser_at (phasers_of forest.now) id.0)) }
{
    add_with_count(text, b"p", u64::from(id.0))?;
    add_with_value(text, b" ", forest.phase(id))?;
    add_parties(text, forest, id)
}

/// Appends the line of each phaser, by number from 0. The first call only tells the proof that there are at most 64.
fn add_phasers(text: &mut Vec<u8>, forest: &Forest) -> Result<(), AllocError>
    ensures { OnOk result (text.new.items
        ≡ text.old.items ++ numbered_texts phaser_text 0 (phasers_of forest.now)) }
{
    forest.is_forest();
    for number in 0..forest.len() {
        add_phaser(text, forest, PhaserId(number as u8))?;
    }
    Ok(())
}

/// Appends the line of a barrier, as `b0 1 0`: its number, how many wait, and 1 if it is broken, or else 0.
fn add_barrier(text: &mut Vec<u8>, number: u8, barrier: &Barrier) -> Result<(), AllocError>
    ensures { OnOk result (text.new.items ≡ text.old.items ++ barrier_text number barrier.now) }
{
    add_with_count(text, b"b", u64::from(number))?;
    add_with_count(text, b" ", u64::from(barrier.number_waiting()))?;
    text.extend_from_slice(if barrier.is_broken() {
        b" 1\n"
    } else {
        b" 0\n"
    })
}

/// Appends the line of each barrier, by number from 0.
fn add_barriers(text: &mut Vec<u8>, machine: &Machine) -> Result<(), AllocError>
    ensures { OnOk result (text.new.items
        ≡ text.old.items ++ numbered_texts barrier_text 0 machine.now.scene.barriers) }
{
    for number in 0..machine.barrier_count() {
        add_barrier(text, number as u8, machine.barrier(number as u8))?;
    }
    Ok(())
}

/// Appends the line of a cell, or nothing if the cell is 0.
fn add_cell(text: &mut Vec<u8>, number: usize, value: i32) -> Result<(), AllocError>
    ensures { OnOk result (text.new.items ≡ text.old.items ++ cell_text number value) }
{
    if value == 0 {
        return Ok(());
    }
    add_with_count(text, b"c", number as u64)?;
    add_with_value(text, b" ", value)?;
    text.extend_from_slice(b"\n")
}

/// Appends the lines of all cells that aren't 0.
fn add_cells(text: &mut Vec<u8>, cells: &[i32]) -> Result<(), AllocError>
    ensures { OnOk result (text.new.items
        ≡ text.old.items ++ numbered_texts cell_text 0 cells.now) }
{
    for (number, value) in cells.iter().enumerate() {
        add_cell(text, number, *value)?;
    }
    Ok(())
}

/// Appends the lines of the phasers, the barriers and the cells.
fn add_objects(text: &mut Vec<u8>, machine: &Machine) -> Result<(), AllocError>
    ensures { let scene = scene_of machine.now.scene in OnOk result (text.new.items ≡ text.old.items
        ++ (numbered_texts phaser_text 0 scene.phasers ++ (numbered_texts barrier_text 0 scene.barriers
        ++ numbered_texts cell_text 0 scene.cells))) }
{
    add_phasers(text, machine.forest())?;
    add_barriers(text, machine)?;
    add_cells(text, machine.cells())
}

/// Returns the text of a machine's state, which ends a trace. Fails if it is out of memory.
pub fn state_text(alloc: Global, machine: &Machine) -> Result<Vec<u8>, AllocError>
    ensures text { IfOk result (λ text. text.items ≡ state_text (world_of machine.now)) }
    ensures lines { OnOk result (HasNoLongLine (state_text (world_of machine.now))) }
{
    let mut text = Vec::new(alloc);
    add_counts(&mut text, machine)?;
    add_threads(&mut text, machine)?;
    add_objects(&mut text, machine)?;
    Ok(text)
}
