// The last lines of a picture: who waits at the end, and who died. The line of a thread that waits is `front` and then `back`.
// If the line is too long, `front` is cut, and `back` is kept.
ghost use Rattle.std.specs.Prelude.{◌≡◌, ◌++◌, ◌<◌, ℤ, length, slice_get, true, IfOk, IfSome, OnOk};
ghost use Rattle.cyclic_barrier.specs.Waits.{wait_at};
ghost use Rattle.loader.specs.Program.{row_at};
ghost use Rattle.machine_scene.specs.Scene.{barrier_at, scene_of, thread_at};
ghost use Rattle.machine_scene.specs.Waits.{outcome_of_barrier_wait, outcome_of_phase_wait};
ghost use Rattle.packed_phaser.specs.Flat.{view_of};
ghost use Rattle.thread_machine.specs.World.{world_of};
ghost use Rattle.pictures.specs.Picture.{above_text, arrived_above, arrived_at, arrived_text, at_phaser, awaited_text, barrier_wait, behind_phaser, behind_text, closing_lines, closing_of, dead_line, has_ended, have_all_arrived, outlook_text, lines_text, missing_for, name_room, thrown_in, waiting_line, waits};
ghost use Rattle.pictures.specs.{Caption.called, Sheet.shortened};
ghost use Rattle.tier_tree.specs.{Forest.flat_at, Stored.phasers_of};

use crate::caption::push_called;
use crate::fitting::{kept_behind, push_count, push_value, shortened};
use crate::line::{push_line, row_of};
use crate::pen::Pen;
use cyclic_barrier::WaitState;
use instruction_table::{OperandKind, Row};
use std::alloc::AllocError;
use thread_machine::{Machine, Status};
use tier_tree::{Forest, PhaserId};

/// Appends how many parties have arrived, and how many there are, as ` (1 of 2 arrived)`.
fn push_arrived(text: &mut Vec<u8>, arrived: u16, parties: u16) -> Result<(), AllocError>
    ensures { OnOk result (text.new.items ≡ text.old.items ++ arrived_text arrived parties) }
{
    push_count(text, b" (", u64::from(arrived))?;
    push_count(text, b" of ", u64::from(parties))?;
    text.extend_from_slice(b" arrived)")
}

/// Appends `: 1 of 2)`: how many parties of a phaser above have arrived, and how many there are. It closes what
/// ` (arrived at NAME` opened.
fn push_arrived_above(text: &mut Vec<u8>, arrived: u16, parties: u16) -> Result<(), AllocError>
    ensures { OnOk result (text.new.items ≡ text.old.items ++ above_text arrived parties) }
{
    push_count(text, b": ", u64::from(arrived))?;
    push_count(text, b" of ", u64::from(parties))?;
    text.extend_from_slice(b")")
}

/// Returns whether a phaser that isn't terminated has parties, and all have arrived.
fn have_all_arrived(forest: &Forest, id: PhaserId) -> bool
    requires { id.0 < length forest.now }
    ensures { result ≡ have_all_arrived (flat_at (phasers_of forest.now) id.0) }
{
    let parties = forest.parties(id);
    !forest.is_terminated(id) && parties != 0 && forest.arrived(id) == parties
}

/// Returns the phaser that a thread at this phaser really waits for. It is this one if a party of it is missing, or else the
/// first one above with a missing party, or the root. A tree has at most eight levels.
fn missing_for(forest: &Forest, id: PhaserId) -> PhaserId
    requires { id.0 < length forest.now }
    ensures phaser { result.0 ≡ missing_for (phasers_of forest.now) id.0 }
    ensures there { result.0 < length forest.now }
{
    let mut at = id;
    let mut levels: u8 = 8;
    while levels > 0 {
        if !have_all_arrived(forest, at) {
            return at;
        }
        match forest.parent(at) {
            Some(parent) => at = parent,
            None => return at,
        }
        levels -= 1;
    }
    at
}

/// Appends to `front` how many have arrived at this phaser, if a party is missing here. If one is missing further up, appends
/// to `front` ` (arrived at ` and the name of that phaser, and to `back` how many have arrived there.
fn push_arrived_at(
    pen: &Pen<'_, '_>,
    front: &mut Vec<u8>,
    back: &mut Vec<u8>,
    forest: &Forest,
    id: PhaserId,
) -> Result<(), AllocError>
    requires { id.0 < length forest.now }
    ensures front { let phasers = phasers_of forest.now in
        OnOk result (front.new.items ≡ front.old.items ++ arrived_at pen.now.sheet pen.now.symbols.now phasers id.0 (missing_for phasers id.0)) }
    ensures back { let phasers = phasers_of forest.now in
        OnOk result (back.new.items ≡ back.old.items ++ arrived_above phasers id.0 (missing_for phasers id.0)) }
{
    let at = missing_for(forest, id);
    if at.0 == id.0 {
        return push_arrived(front, forest.arrived(id), forest.parties(id));
    }
    front.extend_from_slice(b" (arrived at ")?;
    push_name(pen, front, OperandKind::Phaser, u32::from(at.0))?;
    push_arrived_above(back, forest.arrived(at), forest.parties(at))
}

/// Returns what `Phaser.getPhase` returns for a phaser, or 0 if there is no such phaser.
fn phase(forest: &Forest, number: u16) -> i32
    ensures { result ≡ view_of (flat_at (phasers_of forest.now) number) }
{
    if usize::from(number) >= forest.len() {
        return 0;
    }
    // A law of forests: it changes nothing, and this function's proof needs what it says.
    forest.is_forest();
    forest.phase(PhaserId(number as u8))
}

/// Returns whether the phase that a thread awaits at this phaser has ended.
fn has_ended(machine: &Machine, thread: u8, phaser: u16) -> bool
    requires { thread < length machine.now.scene.threads }
    ensures { let scene = scene_of machine.now.scene in
        result ≡ has_ended (thread_at scene thread).status phaser scene }
{
    match machine.status(thread) {
        Status::AwaitsPhase(awaited) => phase(machine.forest(), phaser) != awaited,
        _ => false,
    }
}

/// Appends the phaser that a thread waits at to `front`: its name, and ` (1 of 2 arrived)` or ` (its phase has ended)`. If a
/// party is missing further up, `front` gets ` (arrived at NAME`, and `back` gets `: 1 of 2)`. A phaser that doesn't exist has
/// only its name.
fn push_phaser_wait(
    pen: &Pen<'_, '_>,
    front: &mut Vec<u8>,
    back: &mut Vec<u8>,
    machine: &Machine,
    thread: u8,
    number: u16,
) -> Result<(), AllocError>
    requires { thread < length machine.now.scene.threads }
    ensures front { OnOk result (front.new.items
        ≡ front.old.items ++ at_phaser pen.now.sheet pen.now.symbols.now (scene_of machine.now.scene) thread number) }
    ensures back { OnOk result (back.new.items ≡ back.old.items ++ behind_phaser (scene_of machine.now.scene) thread number) }
{
    push_name(pen, front, OperandKind::Phaser, u32::from(number))?;
    let forest = machine.forest();
    if usize::from(number) >= forest.len() {
        return Ok(());
    }
    if has_ended(machine, thread, number) {
        return front.extend_from_slice(b" (its phase has ended)");
    }
    // A law of forests: it changes nothing, and this function's proof needs what it says.
    forest.is_forest();
    push_arrived_at(pen, front, back, forest, PhaserId(number as u8))
}

/// Returns the state of a thread's wait at a barrier, or `None` if the thread has no wait at it, or there is no such barrier.
fn wait_at(machine: &Machine, thread: u8, barrier: u16) -> Option<WaitState>
    requires { thread < length machine.now.scene.threads }
    ensures { result ≡ wait_at (barrier_at (scene_of machine.now.scene) barrier).waits thread }
{
    // The call is only for its contract, which says that there are at most 64 threads: the proof needs it.
    let _ = machine.thread_count();
    if usize::from(barrier) >= machine.barrier_count() {
        return None;
    }
    machine.barrier(barrier as u8).wait(thread)
}

/// Appends how many parties have arrived at a barrier, and how many there are, or what released the thread that waited there. A
/// barrier that doesn't exist adds nothing.
fn push_barrier_wait(
    text: &mut Vec<u8>,
    machine: &Machine,
    thread: u8,
    number: u16,
) -> Result<(), AllocError>
    requires { thread < length machine.now.scene.threads }
    ensures { OnOk result (text.new.items
        ≡ text.old.items ++ barrier_wait thread (slice_get (scene_of machine.now.scene).barriers number)) }
{
    if usize::from(number) >= machine.barrier_count() {
        return Ok(());
    }
    let barrier = machine.barrier(number as u8);
    match wait_at(machine, thread, number) {
        Some(WaitState::Tripped) => text.extend_from_slice(b" (tripped)"),
        Some(WaitState::Broken) => text.extend_from_slice(b" (broken)"),
        _ => push_arrived(text, barrier.number_waiting(), barrier.parties()),
    }
}

/// Appends a name to `text`, shortened to the width that a name may have in the last lines of a picture.
fn push_name(
    pen: &Pen<'_, '_>,
    text: &mut Vec<u8>,
    kind: OperandKind,
    number: u32,
) -> Result<(), AllocError>
    ensures { OnOk result (text.new.items
        ≡ text.old.items ++ shortened (name_room pen.now.sheet) (called pen.now.symbols.now kind number)) }
{
    let mut name = Vec::new(pen.alloc);
    push_called(&mut name, pen.symbols, kind, number)?;
    let name = shortened(pen.alloc, pen.sheet.name_room(), name.as_slice())?;
    text.extend_from_slice(name.as_slice())
}

/// Appends to `front` what a thread at this row waits at, if it does, and to `back` how many have arrived further up. A line is
/// `front` and then `back`; if it is too long, `front` is cut.
fn push_awaited(
    pen: &Pen<'_, '_>,
    front: &mut Vec<u8>,
    back: &mut Vec<u8>,
    machine: &Machine,
    thread: u8,
    row: Row,
) -> Result<(), AllocError>
    requires { thread < length machine.now.scene.threads }
    ensures front { OnOk result (front.new.items
        ≡ front.old.items ++ awaited_text pen.now.sheet pen.now.symbols.now (scene_of machine.now.scene) thread row) }
    ensures back { OnOk result (back.new.items ≡ back.old.items ++ behind_text (scene_of machine.now.scene) thread row) }
{
    match row {
        Row::Paaa { phaser, .. }
        | Row::Pawait { phaser, .. }
        | Row::Pawaiti { phaser, .. }
        | Row::Pawaitt { phaser, .. } => push_phaser_wait(
            pen, front, back, machine, thread, phaser,
        ),
        Row::Cawait { barrier, .. } | Row::Cawaitt { barrier, .. } => {
            push_name(pen, front, OperandKind::Barrier, u32::from(barrier))?;
            push_barrier_wait(front, machine, thread, barrier)
        }
        _ => Ok(()),
    }
}

/// Returns the exception that a waiting thread throws at its next turn: 3 if the thread is interrupted, 4 if its barrier broke.
/// None if it throws none. The thread is runnable, so if nothing has ended its wait, it is interrupted.
fn thrown(machine: &Machine, thread: u8, row: Row) -> Option<i32>
    requires { thread < length machine.now.scene.threads }
    ensures phase { let scene = scene_of machine.now.scene in (phase : ℤ) → (thread_at scene thread).status ≡ Status.AwaitsPhase phase
        → IfSome (outcome_of_phase_wait row phase thread scene) (λ outcome. result ≡ thrown_in outcome.event.what) }
    ensures barrier { let scene = scene_of machine.now.scene in (index : ℤ)
        → IfSome (outcome_of_barrier_wait row index thread scene) (λ outcome. result ≡ thrown_in outcome.event.what) }
{
    match row {
        Row::Pawaiti { phaser, .. } | Row::Pawaitt { phaser, .. } => {
            if has_ended(machine, thread, phaser) {
                None
            } else {
                Some(3)
            }
        }
        Row::Cawait { barrier, .. } | Row::Cawaitt { barrier, .. } => {
            match wait_at(machine, thread, barrier) {
                Some(WaitState::Waiting) => Some(3),
                Some(WaitState::Broken) => Some(4),
                _ => None,
            }
        }
        _ => None,
    }
}

/// Appends `: can go on`, `: throws 4`, `: can expire` or `: stuck`; nothing if only others can still end the wait.
fn push_outlook(
    text: &mut Vec<u8>,
    machine: &Machine,
    thread: u8,
    row: Row,
) -> Result<(), AllocError>
    requires thread { thread < length machine.now.scene.threads }
    requires row { let world = world_of machine.now in row ≡ row_at world.program.rows (thread_at world.scene thread).pc }
    requires waits { waits (thread_at (scene_of machine.now.scene) thread).status ≡ true }
    ensures { OnOk result (text.new.items ≡ text.old.items ++ outlook_text (world_of machine.now) thread) }
{
    if machine.is_ready(thread) {
        match thrown(machine, thread, row) {
            Some(code) => push_value(text, b": throws ", code),
            None => text.extend_from_slice(b": can go on"),
        }
    } else if machine.can_expire(thread) {
        text.extend_from_slice(b": can expire")
    } else if machine.stuck() {
        text.extend_from_slice(b": stuck")
    } else {
        Ok(())
    }
}

/// Returns the line of a waiting thread, as `a waits at p (1 of 2 arrived): stuck`. If it is too long, its front is cut.
fn waiting_line(pen: &Pen<'_, '_>, machine: &Machine, thread: u8) -> Result<Vec<u8>, AllocError>
    requires thread { thread < length machine.now.scene.threads }
    requires waits { waits (thread_at (scene_of machine.now.scene) thread).status ≡ true }
    ensures { IfOk result (λ line. line.items ≡ waiting_line pen.now.sheet pen.now.symbols.now (world_of machine.now) thread) }
{
    let mut front = Vec::new(pen.alloc);
    let mut back = Vec::new(pen.alloc);
    let row = row_of(machine, thread);
    push_name(pen, &mut front, OperandKind::Thread, u32::from(thread))?;
    front.extend_from_slice(b" waits at ")?;
    push_awaited(pen, &mut front, &mut back, machine, thread, row)?;
    push_outlook(&mut back, machine, thread, row)?;
    kept_behind(
        pen.alloc,
        usize::from(pen.sheet.width),
        front.as_slice(),
        back.as_slice(),
    )
}

/// Returns the line of a thread that died of an exception, as `a died of exception -5`.
#[tactic(auto, using(std::proofs::Common::append_assoc))]
fn dead_line(pen: &Pen<'_, '_>, thread: u8, code: i32) -> Result<Vec<u8>, AllocError>
    ensures { IfOk result (λ line. line.items ≡ dead_line pen.now.sheet pen.now.symbols.now thread code) }
{
    let mut line = Vec::new(pen.alloc);
    push_name(pen, &mut line, OperandKind::Thread, u32::from(thread))?;
    line.extend_from_slice(b" died of exception ")?;
    push_value(&mut line, b"", code)?;
    Ok(line)
}

/// Appends the line of a thread that waits or died, and nothing for any other.
fn push_closing(
    pen: &Pen<'_, '_>,
    text: &mut Vec<u8>,
    machine: &Machine,
    thread: u8,
) -> Result<(), AllocError>
    requires { thread < length machine.now.scene.threads }
    ensures { OnOk result (text.new.items ≡ text.old.items
        ++ lines_text pen.now.sheet.width (closing_of pen.now.sheet pen.now.symbols.now (world_of machine.now) thread)) }
{
    match machine.status(thread) {
        Status::AwaitsPhase(_) | Status::AwaitsBarrier(_) => {
            let line = waiting_line(pen, machine, thread)?;
            push_line(text, pen.sheet.width, line.as_slice())
        }
        Status::Died(code) => {
            let line = dead_line(pen, thread, code)?;
            push_line(text, pen.sheet.width, line.as_slice())
        }
        _ => Ok(()),
    }
}

/// Appends the lines of the threads that wait or died.
pub fn push_closings(
    pen: &Pen<'_, '_>,
    text: &mut Vec<u8>,
    machine: &Machine,
) -> Result<(), AllocError>
    ensures { OnOk result (text.new.items ≡ text.old.items
        ++ lines_text pen.now.sheet.width (closing_lines pen.now.sheet pen.now.symbols.now (world_of machine.now))) }
{
    for thread in 0..machine.thread_count() {
        push_closing(pen, text, machine, thread as u8)?;
    }
    Ok(())
}
