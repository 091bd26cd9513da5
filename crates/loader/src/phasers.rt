//! Declares the phasers of an image in a forest, which holds all phasers of a program. The parameter `rows` is the number of
//! the program's rows.
ghost use Rattle.std.specs.Prelude.{◌≡◌, ◌≢◌, ◌+◌, ◌<◌, length, map, None, Some, IfOk, IfErr, OnOk};
ghost use Rattle.tier_tree.specs.{Answer.KeepsEnds, Declaration.AreAllFresh, Declaration.is_root, Stored.phasers_of};
ghost use Rattle.tier_tree.specs.Origin.{Carries, declared_at};
ghost use Rattle.row_code.specs.Phasers.{IsPhaser, ArePhasers};
ghost use Rattle.loader.specs.Declarations.{policy_of, routine_row, parent_of, with_phaser, declare_fault, AreDeclared};
ghost use Rattle.loader.specs.Fault.{routine_fault, phaser_fault, listed_phaser_fault, earliest_in};

use crate::load_fault::{LoadFault, Place};
use crate::row_checks::target_fault;
use packed_phaser::Policy;
use phase_number::Phase;
use row_code::{DeclaredPhaser, DeclaredPolicy};
use std::alloc::{AllocError, Global};
use tier_tree::{DeclareFault, Forest, PhaserId};

/// Returns the policy as a forest stores it: without the row at which a routine begins.
fn policy_of(policy: DeclaredPolicy) -> Policy
    ensures { result ≡ policy_of policy }
{
    match policy {
        DeclaredPolicy::Default => Policy::Default,
        DeclaredPolicy::Never => Policy::Never,
        DeclaredPolicy::Until(phase) => Policy::Until(phase),
        DeclaredPolicy::Routine(_) => Policy::Routine,
    }
}

/// Returns the fault of phaser `n` if it has a routine whose first row doesn't exist. `None`: it has no such fault.
fn routine_fault(rows: usize, n: u8, policy: DeclaredPolicy) -> Option<LoadFault>
    ensures { result ≡ routine_fault rows n policy }
{
    match policy {
        DeclaredPolicy::Routine(row) => target_fault(rows, Place::Phaser(n), row),
        DeclaredPolicy::Default | DeclaredPolicy::Never | DeclaredPolicy::Until(_) => None,
    }
}

/// Returns the first row of the phaser's routine, or 0, which nobody uses, if it has none.
fn routine_row(phaser: &DeclaredPhaser) -> u16
    ensures { result ≡ routine_row phaser.now }
{
    match phaser.policy {
        DeclaredPolicy::Routine(row) => row,
        DeclaredPolicy::Default | DeclaredPolicy::Never | DeclaredPolicy::Until(_) => 0,
    }
}

/// Returns the first row of each phaser's routine, or 0 if it has none.
pub fn routine_rows(alloc: Global, phasers: &[DeclaredPhaser]) -> Result<Vec<u16>, AllocError>
    ensures { IfOk result (λ rows. rows.items ≡ map routine_row phasers.now) }
{
    phasers
        .iter()
        .map(|phaser| routine_row(phaser))
        .collect(alloc)
}

/// Returns the number of the phaser's parent, if it has one.
fn parent_of(phaser: DeclaredPhaser) -> Option<PhaserId>
    ensures { result ≡ parent_of phaser }
{
    match phaser.parent {
        Some(parent) => Some(PhaserId(parent)),
        None => None,
    }
}

/// Declares the next phaser of the image, or returns why it is refused. `unwrap` can't fail: by `IsPhaser`, the first phase
/// isn't negative. The last five clauses are explained at `declare_checked`.
fn declare(forest: &mut Forest, phaser: DeclaredPhaser) -> Result<(), DeclareFault>
    requires fits { IsPhaser phaser }
    requires fresh { AreAllFresh (phasers_of forest.old) }
    ensures fault { IfErr result (λ fault. fault ≢ DeclareFault.Memory
        → declare_fault (phasers_of forest.old) phaser ≡ Some fault) }
    ensures none { OnOk result (declare_fault (phasers_of forest.old) phaser ≡ None) }
    ensures declared { OnOk result
        (phasers_of forest.new ≡ with_phaser (phasers_of forest.old) phaser) }
    ensures many { OnOk result (length forest.new ≡ length forest.old + 1) }
    ensures fresh { AreAllFresh (phasers_of forest.new) }
    ensures ends { OnOk result (KeepsEnds (phasers_of forest.old) (phasers_of forest.new)) }
    ensures origin { OnOk result (Carries
        (declared_at (length forest.old) phaser.parties (is_root (parent_of phaser)))
        (phasers_of forest.old) (phasers_of forest.new)) }
{
    let parties = i32::from(phaser.parties);
    let phase = Phase::new(phaser.first_phase).unwrap();
    forest.declare(parent_of(phaser), parties, policy_of(phaser.policy), phase)?;
    Ok(())
}

/// Declares phaser `n`, after all phasers with lower numbers. `Err`: its routine's first row doesn't exist, or the forest
/// refuses it. The last five clauses: the forest has one phaser more, nobody arrives, no phase ends, and its parties are
/// counted.
fn declare_checked(
    forest: &mut Forest,
    rows: usize,
    n: u8,
    phaser: DeclaredPhaser,
) -> Result<(), LoadFault>
    requires fits { IsPhaser phaser }
    requires fresh { AreAllFresh (phasers_of forest.old) }
    ensures fault { IfErr result (λ fault. fault ≢ LoadFault.Memory
        → phaser_fault rows (phasers_of forest.old) n phaser ≡ Some fault) }
    ensures none { OnOk result
        (phaser_fault rows (phasers_of forest.old) n phaser ≡ None) }
    ensures declared { OnOk result
        (phasers_of forest.new ≡ with_phaser (phasers_of forest.old) phaser) }
    ensures many { OnOk result (length forest.new ≡ length forest.old + 1) }
    ensures fresh { AreAllFresh (phasers_of forest.new) }
    ensures ends { OnOk result (KeepsEnds (phasers_of forest.old) (phasers_of forest.new)) }
    ensures origin { OnOk result (Carries
        (declared_at (length forest.old) phaser.parties (is_root (parent_of phaser)))
        (phasers_of forest.old) (phasers_of forest.new)) }
{
    if let Some(fault) = routine_fault(rows, n, phaser.policy) {
        return Err(fault);
    }
    match declare(forest, phaser) {
        Ok(()) => Ok(()),
        Err(DeclareFault::Memory) => Err(LoadFault::Memory),
        Err(fault) => Err(LoadFault::Declare(n, fault)),
    }
}

/// Declares the phasers in order, or returns the first fault.
pub fn declare_all(
    alloc: Global,
    rows: usize,
    phasers: &[DeclaredPhaser],
) -> Result<Forest, LoadFault>
    requires { ArePhasers phasers.now }
    ensures fault { IfErr result (λ fault. fault ≢ LoadFault.Memory
        → earliest_in (listed_phaser_fault rows phasers.now) 0 phasers.now ≡ Some fault) }
    ensures none { OnOk result
        (earliest_in (listed_phaser_fault rows phasers.now) 0 phasers.now ≡ None) }
    ensures declared { IfOk result (AreDeclared (length phasers.now) phasers.now) }
{
    let mut forest = Forest::new(alloc)?;
    for (n, phaser) in phasers.iter().enumerate() {
        declare_checked(&mut forest, rows, n as u8, *phaser)?;
    }
    Ok(forest)
}
