//! What a turn may change besides its own thread, so that it can be saved before the turn.
ghost use Rattle.std.specs.Prelude.{◌≡◌};
ghost use Rattle.machine_scene.specs.Undo.{reach_of_entry, reach_of_ret, reach_of_row, reach_of_wait, reach_in};

use instruction_table::Row;
use thread_state::{Frame, Status};

/// What a turn may change besides its own thread.
#[derive(Clone, Copy)]
pub enum Reach {
    Nothing,
    Cell(u16),
    /// A thread: another one, or the same.
    Thread(u16),
    /// The words (packed states) of a phaser and of its parents up to the root.
    Tree(u16),
    Barrier(u16),
}

/// Returns what else changes if the thread throws and pops this stack entry: an action's barrier, which breaks, or nothing.
fn reach_of_entry(top: &Option<Frame>) -> Reach
    ensures { result ≡ reach_of_entry top.now }
{
    match top {
        Some(Frame::Action(barrier, _, _)) => Reach::Barrier(u16::from(*barrier)),
        _ => Reach::Nothing,
    }
}

/// Returns what else `ret` changes with this stack entry on top: a routine's phasers, an action's barrier, or nothing.
fn reach_of_ret(top: &Option<Frame>) -> Reach
    ensures { result ≡ reach_of_ret top.now }
{
    match top {
        Some(Frame::Advance(root, _, _)) => Reach::Tree(u16::from(*root)),
        Some(Frame::Action(barrier, _, _)) => Reach::Barrier(u16::from(*barrier)),
        _ => Reach::Nothing,
    }
}

/// Returns what else a running thread's row may change. For `ret`, that depends on the top of the stack.
fn reach_of_row(row: Row, top: &Option<Frame>) -> Reach
    ensures { result ≡ reach_of_row row top.now }
{
    match row {
        Row::Ret => reach_of_ret(top),
        Row::Sts { cell, .. } => Reach::Cell(cell),
        Row::Intr { thread } => Reach::Thread(thread),
        Row::Preg { phaser, .. }
        | Row::Pbulk { phaser, .. }
        | Row::Parr { phaser, .. }
        | Row::Pdereg { phaser, .. }
        | Row::Paaa { phaser, .. }
        | Row::Pforce { phaser } => Reach::Tree(phaser),
        Row::Cawait { barrier, .. } | Row::Cawaitt { barrier, .. } | Row::Creset { barrier } =>
            Reach::Barrier(barrier),
        _ => Reach::Nothing,
    }
}

/// Returns what else changes when a wait at this row's barrier ends: the barrier. At other rows, no thread waits at a barrier.
fn reach_of_wait(row: Row) -> Reach
    ensures { result ≡ reach_of_wait row }
{
    match row {
        Row::Cawait { barrier, .. } | Row::Cawaitt { barrier, .. } => Reach::Barrier(barrier),
        _ => Reach::Nothing,
    }
}

/// Returns what a turn may change besides its own thread, which has this status, row and top of the stack. The end of a wait
/// for a phase changes nothing else.
pub fn reach_in(status: Status, row: Row, top: &Option<Frame>) -> Reach
    ensures { result ≡ reach_in status row top.now }
{
    match status {
        Status::Runs => reach_of_row(row, top),
        Status::Throws(_) => reach_of_entry(top),
        Status::AwaitsBarrier(_) => reach_of_wait(row),
        Status::AwaitsPhase(_) | Status::Ended | Status::Died(_) => Reach::Nothing,
    }
}
