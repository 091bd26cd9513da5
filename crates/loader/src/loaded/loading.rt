//! How an image is checked and loaded. The fault that comes first in the order of the checks is returned.
ghost use Rattle.std.specs.Prelude.{◌≡◌, ◌≢◌, ◌∷◌, [], None, Some, IfOk, IfErr, OnOk, length, map, ◌≤◌};
ghost use Rattle.loader.specs.Declarations.{new_barrier, routine_row, action_row, AreDeclared};
ghost use Rattle.loader.specs.Program.{IsProgramOf};
ghost use Rattle.loader.specs.Fault.{first_fault, counts_in, earliest, earliest_in, thread_fault, row_fault, last_fault};

use super::Loaded;
use crate::counts::Counts;
use crate::load_fault::LoadFault;
use crate::row_checks::{last_fault, row_fault, thread_fault};
use crate::{barriers, phasers};
use cyclic_barrier::Barrier;
use row_code::Image;
use std::alloc::{AllocError, Global};
use tier_tree::Forest;

/// Returns how many objects of each kind the image has.
fn counts_in(image: &Image) -> Counts
    ensures { result ≡ counts_in image.now }
{
    Counts {
        rows: image.rows.as_slice().len(),
        threads: image.threads.as_slice().len(),
        phasers: image.phasers.as_slice().len(),
        barriers: image.barriers.as_slice().len(),
    }
}

/// Returns the first fault in this order: of a thread's first row, of what a row names, of the last row. `None`: no fault.
fn code_fault(image: &Image) -> Option<LoadFault>
    ensures { result ≡ earliest (earliest_in (thread_fault (length image.now.rows)) 0 image.now.threads
        ∷ earliest_in (row_fault (counts_in image.now)) 0 image.now.rows
        ∷ last_fault image.now.rows ∷ []) }
{
    let rows = image.rows.as_slice();
    let fault = thread_fault(rows.len(), image.threads.as_slice());
    if fault.is_some() {
        return fault;
    }
    let fault = row_fault(counts_in(image), rows);
    if fault.is_some() {
        return fault;
    }
    last_fault(rows)
}

/// Checks in this order: that there is a thread, the phasers, the barriers, the code. Returns the phasers and barriers, which
/// the checks of these make.
fn checked(alloc: Global, image: &Image) -> Result<(Forest, Vec<Barrier>), LoadFault>
    ensures fault { IfErr result (λ fault. fault ≢ LoadFault.Memory
        → first_fault image.now ≡ Some fault) }
    ensures none { OnOk result (first_fault image.now ≡ None) }
    ensures phasers { IfOk result (λ both.
        AreDeclared (length image.now.phasers) image.now.phasers both.0) }
    ensures barriers { IfOk result (λ both.
        both.1.items ≡ map new_barrier image.now.barriers) }
    ensures few { OnOk result (length image.now.barriers ≤ 64) }
{
    if image.threads.as_slice().is_empty() {
        return Err(LoadFault::NoThread);
    }
    let rows = image.rows.as_slice().len();
    let phasers = phasers::declare_all(alloc, rows, image.phasers.as_slice())?;
    let barriers = barriers::make_all(alloc, rows, image.barriers.as_slice())?;
    match code_fault(image) {
        Some(fault) => Err(fault),
        None => Ok((phasers, barriers)),
    }
}

/// Returns the rows at which the phasers' routines and the barriers' actions begin.
fn entry_rows(alloc: Global, image: &Image) -> Result<(Vec<u16>, Vec<u16>), AllocError>
    ensures routines { IfOk result (λ both. both.0.items ≡ map routine_row image.now.phasers) }
    ensures actions { IfOk result (λ both. both.1.items ≡ map action_row image.now.barriers) }
{
    let routines = phasers::routine_rows(alloc, image.phasers.as_slice())?;
    let actions = barriers::action_rows(alloc, image.barriers.as_slice())?;
    Ok((routines, actions))
}

/// Checks the image, and makes the program that it declares. The checks come in this order: there is a thread; each phaser's
/// routine exists, and then the phaser can be declared; each barrier has parties, and then its action exists; each thread's
/// first row exists; everything that a row names exists; and no thread goes on after the last row. The first fault is returned.
/// If memory runs out, `Memory` is returned at once, and no check follows.
pub fn load(alloc: Global, image: Image) -> Result<Loaded, LoadFault>
    ensures fault { IfErr result (λ fault. fault ≢ LoadFault.Memory
        → first_fault image ≡ Some fault) }
    ensures none { OnOk result (first_fault image ≡ None) }
    ensures loaded { IfOk result (IsProgramOf image) }
{
    let (phasers, barriers) = checked(alloc, &image)?;
    let (routines, actions) = entry_rows(alloc, &image)?;
    Ok(Loaded {
        rows: image.rows.into_vec(),
        threads: image.threads.into_vec(),
        phasers,
        routines,
        barriers,
        actions,
    })
}
