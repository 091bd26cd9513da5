//! The checks of what threads and rows name. Each function returns the fault that it finds, or `None`.
ghost use Rattle.std.specs.Prelude.{◌≡◌, ◌<◌, ◌≤◌, length};
ghost use Rattle.loader.specs.Fault.{target_fault, thread_fault, named_fault, row_fault, last_fault, earliest_in};

use crate::counts::Counts;
use crate::load_fault::{LoadFault, Place};
use crate::named::{Named, named_by, stops};
use instruction_table::Row;
use row_code::DeclaredThread;

/// How many cells there are.
const CELLS: u16 = 32;

/// Returns a fault if the row of this number, which `place` names, isn't one of the `rows` rows. `None`: it is one.
pub fn target_fault(rows: usize, place: Place, row: u16) -> Option<LoadFault>
    ensures { result ≡ target_fault rows place row }
{
    if usize::from(row) < rows {
        None
    } else {
        Some(LoadFault::Target(place))
    }
}

/// Returns the fault of row `n` if `named`, which this row names, doesn't exist. `None`: it exists, or the row names nothing.
fn named_fault(counts: Counts, n: u16, named: Named) -> Option<LoadFault>
    ensures { result ≡ named_fault counts n named }
{
    match named {
        Named::Nothing => None,
        Named::Target(row) => target_fault(counts.rows, Place::Row(n), row),
        Named::Cell(cell) if cell >= CELLS => Some(LoadFault::NoSuchCell(n)),
        Named::Thread(thread) if usize::from(thread) >= counts.threads => {
            Some(LoadFault::NoSuchThread(n))
        }
        Named::Phaser(phaser) if usize::from(phaser) >= counts.phasers => {
            Some(LoadFault::NoSuchPhaser(n))
        }
        Named::Barrier(barrier) if usize::from(barrier) >= counts.barriers => {
            Some(LoadFault::NoSuchBarrier(n))
        }
        _ => None,
    }
}

/// Returns the fault of the first thread whose first row doesn't exist. `None`: each of these rows exists.
pub fn thread_fault(rows: usize, threads: &[DeclaredThread]) -> Option<LoadFault>
    requires { length threads.now ≤ 64 }
    ensures { result ≡ earliest_in (thread_fault rows) 0 threads.now }
{
    for (n, thread) in threads.iter().enumerate() {
        let fault = target_fault(rows, Place::Thread(n as u8), thread.first_row);
        if fault.is_some() {
            return fault;
        }
    }
    None
}

/// Returns the fault of the first row that names something that doesn't exist. `None`: there is no such row.
pub fn row_fault(counts: Counts, rows: &[Row]) -> Option<LoadFault>
    requires { length rows.now < 65536 }
    ensures { result ≡ earliest_in (row_fault counts) 0 rows.now }
{
    for (n, row) in rows.iter().enumerate() {
        let fault = named_fault(counts, n as u16, named_by(*row));
        if fault.is_some() {
            return fault;
        }
    }
    None
}

/// Returns `FallsOff` if a thread could go on after the last row. `None`: it can't, or there are no rows.
pub fn last_fault(rows: &[Row]) -> Option<LoadFault>
    ensures { result ≡ last_fault rows.now }
{
    match rows.last() {
        Some(row) if !stops(*row) => Some(LoadFault::FallsOff),
        _ => None,
    }
}
