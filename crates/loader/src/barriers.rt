//! Makes the barriers of an image. The parameter `rows` is the number of the program's rows.
ghost use Rattle.std.specs.Prelude.{◌≡◌, ◌≢◌, ◌≤◌, length, map, None, Some, IfOk, IfErr, OnOk};
ghost use Rattle.loader.specs.Declarations.{new_barrier, action_row};
ghost use Rattle.loader.specs.Fault.{action_fault, barrier_fault, earliest_in};

use crate::load_fault::{LoadFault, Place};
use crate::row_checks::target_fault;
use cyclic_barrier::Barrier;
use row_code::DeclaredBarrier;
use std::alloc::{AllocError, Global};

/// Returns the first row of the barrier's action, or 0, which nobody uses, if it has none.
fn action_row(barrier: &DeclaredBarrier) -> u16
    ensures { result ≡ action_row barrier.now }
{
    match barrier.action {
        Some(row) => row,
        None => 0,
    }
}

/// Returns the first row of each barrier's action, or 0 if it has none.
pub fn action_rows(alloc: Global, barriers: &[DeclaredBarrier]) -> Result<Vec<u16>, AllocError>
    ensures { IfOk result (λ rows. rows.items ≡ map action_row barriers.now) }
{
    barriers
        .iter()
        .map(|barrier| action_row(barrier))
        .collect(alloc)
}

/// Returns the fault of barrier `n` if it has an action whose first row doesn't exist. `None`: it has no such fault.
fn action_fault(rows: usize, n: u8, action: Option<u16>) -> Option<LoadFault>
    ensures { result ≡ action_fault rows n action }
{
    match action {
        Some(row) => target_fault(rows, Place::Barrier(n), row),
        None => None,
    }
}

/// Makes barrier `n`, or returns its fault: it has no parties, or its action's first row doesn't exist.
fn make(rows: usize, n: u8, barrier: DeclaredBarrier) -> Result<Barrier, LoadFault>
    ensures fault { IfErr result (λ fault. barrier_fault rows n barrier ≡ Some fault) }
    ensures none { OnOk result (barrier_fault rows n barrier ≡ None) }
    ensures made { IfOk result (λ made. made ≡ new_barrier barrier) }
{
    let Some(made) = Barrier::new(barrier.parties, barrier.action.is_some()) else {
        return Err(LoadFault::BarrierParties(n));
    };
    match action_fault(rows, n, barrier.action) {
        Some(fault) => Err(fault),
        None => Ok(made),
    }
}

/// Makes the barriers in order, or returns the first fault.
pub fn make_all(
    alloc: Global,
    rows: usize,
    barriers: &[DeclaredBarrier],
) -> Result<Vec<Barrier>, LoadFault>
    requires { length barriers.now ≤ 64 }
    ensures fault { IfErr result (λ fault. fault ≢ LoadFault.Memory
        → earliest_in (barrier_fault rows) 0 barriers.now ≡ Some fault) }
    ensures none { OnOk result (earliest_in (barrier_fault rows) 0 barriers.now ≡ None) }
    ensures made { IfOk result (λ made. made.items ≡ map new_barrier barriers.now) }
{
    let mut made = Vec::with_capacity(alloc, barriers.len())?;
    for (n, barrier) in barriers.iter().enumerate() {
        made.push(make(rows, n as u8, *barrier)?)?;
    }
    Ok(made)
}
