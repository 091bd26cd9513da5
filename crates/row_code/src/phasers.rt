//! The phasers that an image declares.
ghost use Rattle.std.specs.Prelude.{◌≡◌, ◌↔◌, ◌<◌, ℕ, slice_index_or, length, All, IsTrue, IsOk, IfOk, IfErr, List};
ghost use Rattle.row_code.specs.declared.phasers.DeclaredPhaser.{DeclaredPhaser};
ghost use Rattle.row_code.specs.Phasers.{IsPolicy, IsPhaser, ArePhasers};

use std::alloc::{AllocError, Global};
use std::marker::Model;

/// What a phaser's `onAdvance` returns.
#[derive(Clone, Copy, PartialEq, Eq)]
pub enum DeclaredPolicy {
    /// True if no party is left, as in Java's `Phaser`.
    Default,
    /// False.
    Never,
    /// True from this phase on, or if no party is left. The phase isn't negative.
    Until(i32),
    /// The result of the routine that begins at this row.
    Routine(u16),
}

/// A phaser as a program declares it.
#[derive(Clone, Copy, PartialEq, Eq)]
pub struct DeclaredPhaser {
    /// The number of the parent, below 64. There may be no such phaser.
    pub parent: Option<u8>,
    pub policy: DeclaredPolicy,
    pub parties: u16,
    /// The number of the first phase. It isn't negative.
    pub first_phase: i32,
}

/// The phasers of a program, at most 64.
#[derive(Drop)]
pub struct Phasers {
    entries: Vec<DeclaredPhaser>,
}

impl Model for Phasers {
    ghost Value = { List DeclaredPhaser };

    ghost view = { λ p. p.entries.items };

    ghost invariant = { λ p. ArePhasers p.entries.items };
}

/// Returns whether the phase of the policy, if it has one, isn't negative.
fn is_policy(policy: DeclaredPolicy) -> bool
    ensures { IsTrue result ↔ IsPolicy policy }
{
    match policy {
        DeclaredPolicy::Default | DeclaredPolicy::Never | DeclaredPolicy::Routine(_) => true,
        DeclaredPolicy::Until(phase) => 0 <= phase,
    }
}

/// Returns whether each field is in its range: parent below 64, any number of parties, no negative phase.
fn is_phaser(phaser: DeclaredPhaser) -> bool
    ensures { IsTrue result ↔ IsPhaser phaser }
{
    // Reading this field tells the proof that its number is below 65536, as `IsPhaser` requires.
    let _parties = phaser.parties;
    let has_parent = match phaser.parent {
        None => true,
        Some(parent) => parent < 64,
    };
    has_parent && 0 <= phaser.first_phase && is_policy(phaser.policy)
}

/// Returns whether the fields of each phaser are in their ranges.
fn are_all_phasers(phasers: &[DeclaredPhaser]) -> bool
    ensures { IsTrue result ↔ All IsPhaser phasers.now }
{
    for phaser in phasers {
        if !is_phaser(*phaser) {
            return false;
        }
    }
    true
}

impl Phasers {
    /// Takes the phasers as they are. Returns them in `Err` if they are more than 64, or if a field of one is out of range.
    pub fn new(phasers: Vec<DeclaredPhaser>) -> Result<Phasers, Vec<DeclaredPhaser>>
        ensures made { IfOk result (λ made. made ≡ phasers.items) }
        ensures back { IfErr result (λ back. back ≡ phasers) }
        ensures fits { IsOk result ↔ ArePhasers phasers.items }
    {
        if phasers.len() <= 64 && are_all_phasers(&phasers) {
            Ok(Phasers { entries: phasers })
        } else {
            Err(phasers)
        }
    }

    /// Returns the phasers in the order of their numbers, from 0.
    pub fn as_slice(&self) -> &[DeclaredPhaser]
        ensures phasers { result.now ≡ self.now }
        ensures fits { ArePhasers self.now }
    {
        &self.entries
    }

    /// Returns a copy with memory of its own.
    pub fn copy(&self, alloc: Global) -> Result<Phasers, AllocError>
        ensures { IfOk result (λ copy. copy ≡ self.now) }
    {
        Ok(Phasers {
            entries: Vec::from_slice(alloc, self.entries.as_slice())?,
        })
    }

    /// Returns the list of the phasers itself, not a copy.
    pub fn into_vec(self) -> Vec<DeclaredPhaser>
        ensures phasers { result.items ≡ self }
        ensures fits { ArePhasers self }
    {
        self.entries
    }
}
