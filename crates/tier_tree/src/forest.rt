//! A forest and its calls. What they change is in `join`, `climb` and `phase_end`.
ghost use Rattle.std.specs.Prelude.{◌≡◌, ℕ, ◌<◌, List, [], length, true, false, IfOk};
ghost use Rattle.tier_tree.specs.Answer.{DoesntJoin, DoesntArrive, IfTurning, MakesPending, KeepsPlaces, KeepsEnds, HaveOnePhase};
ghost use Rattle.tier_tree.specs.{Arrival.arrival, Call.IsCall, Declaration.AreAllFresh, Law.NobodyComesBetween};
ghost use Rattle.tier_tree.specs.Forest.{phaser_at, flat_at, root_at};
ghost use Rattle.tier_tree.specs.Origin.{Origin, AreTallied, HaveAllArrived, origin_after_registration, origin_after_arrival, origin_after_phase_end};
ghost use Rattle.tier_tree.specs.PhaseEnd.{most_ends, after_phase_end, after_force};
ghost use Rattle.tier_tree.specs.Registration.{registration, after_registration};
ghost use Rattle.tier_tree.specs.Stored.{Stored, IsStored, ChangedAt, phasers_of};
ghost use Rattle.tier_tree.specs.Undo.{saved_of, IsSavedOf, restored};

use crate::arrived::Arrived;
use crate::id::PhaserId;
use crate::node::Node;
use crate::registered::Registered;
use crate::saved::{self, Saved};
use crate::{climb, join, phase_end};
use std::alloc::{AllocError, Global};
use std::marker::Model;

mod declaration;
mod getters;

/// Returns a copy of the phasers, equal word for word.
fn copy_of(alloc: Global, nodes: &[Node]) -> Result<Vec<Node>, AllocError>
    ensures { IfOk result (λ copy. copy.items ≡ nodes.now) }
{
    let mut copy = Vec::with_capacity(alloc, nodes.len())?;
    for node in nodes {
        copy.push(node.copy())?;
    }
    Ok(copy)
}

/// Phasers in trees. A forest stores one word for each phaser, and contracts see these words. The end of a phase writes only
/// the root's word, so the word of a child may be that of an earlier phase. `phasers_of` in `specs/Stored.antt` says what the
/// words mean at present. All results, counts and changes are promised of that. `IsCall` says which words a call may change.
#[derive(Drop)]
pub struct Forest {
    nodes: Vec<Node>,
}

impl Model for Forest {
    ghost use Rattle.std.specs.Prelude.{List};
    ghost use Rattle.tier_tree.specs.Stored.{Stored, IsStored};

    ghost Value = { List Stored };

    ghost view = { λ forest. forest.nodes.items };

    ghost invariant = { λ forest. IsStored forest.nodes.items };
}

impl Forest {
    /// Makes a forest without phasers.
    #[tactic(auto, using(crate::proofs::Calls::stands_empty))]
    pub fn new(alloc: Global) -> Result<Forest, AllocError>
        ensures empty { IfOk result (λ forest. forest ≡ []) }
        ensures fresh { IfOk result (λ forest. AreAllFresh (phasers_of forest)) }
        ensures origin { IfOk result
            (λ forest. (origin : Origin) → AreTallied (phasers_of forest) origin) }
    {
        Ok(Forest {
            nodes: Vec::with_capacity(alloc, 0)?,
        })
    }

    /// Returns a copy, equal word for word.
    pub fn copy(&self, alloc: Global) -> Result<Forest, AllocError>
        ensures { IfOk result (λ forest. forest ≡ self.now) }
    {
        let nodes = copy_of(alloc, self.nodes.as_slice())?;
        Ok(Forest { nodes })
    }

    /// Returns what `register` would return, and changes nothing.
    pub fn registration(&self, id: PhaserId, count: u32) -> Registered
        requires { id.0 < length self.now }
        ensures { result ≡ registration id.0 count (phasers_of self.now) }
    {
        join::registration(self.nodes.as_slice(), id.0 as usize, count)
    }

    /// Registers parties: Java's `register` for 1, else `bulkRegister`. `Held`: Java's call would wait, and nothing changes.
    pub fn register(&mut self, id: PhaserId, count: u32) -> Registered
        requires { id.0 < length self.old }
        ensures answer { result ≡ registration id.0 count (phasers_of self.old) }
        ensures forest { phasers_of self.new
            ≡ after_registration id.0 count (phasers_of self.old) }
        ensures refused { DoesntJoin result count → self.new ≡ self.old }
        ensures call { IsCall id.0 (origin_after_registration result id.0 count) self.old self.new }
        ensures ends { KeepsEnds (phasers_of self.old) (phasers_of self.new) }
    {
        join::register(self.nodes.as_mut_slice(), id.0 as usize, count)
    }

    /// Plays `arrive`, or `arriveAndDeregister` if the party leaves. After `Turning`, only `finish_turn` ends the phase.
    #[inline(always)]
    pub fn arrive(&mut self, id: PhaserId, leave: bool) -> Arrived
        requires { id.0 < length self.old }
        ensures arrival { record { phasers = phasers_of self.new; answer = result }
            ≡ arrival id.0 leave (phasers_of self.old) }
        ensures turning { IfTurning result (λ root. (root.0 < length self.new)
            × (root.0 ≡ root_at (phasers_of self.old) id.0)
            × MakesPending root.0 (phasers_of self.old) (phasers_of self.new)) }
        ensures refused { DoesntArrive result → self.new ≡ self.old }
        ensures call { IsCall id.0
            (origin_after_arrival result id.0 (root_at (phasers_of self.old) id.0) leave)
            self.old self.new }
        ensures ends { KeepsEnds (phasers_of self.old) (phasers_of self.new) }
    {
        climb::arrive(self.nodes.as_mut_slice(), id.0 as usize, leave)
    }

    /// Ends the phase of a root at which all have arrived. `ends` is what `onAdvance` returned: whether the tree terminates. If
    /// no arrival in the tree was one too many (stray), everybody who registered directly with one of its phasers has arrived
    /// (`safe`). Fewer than 2147483647 phases of the tree may have ended before, as a limit of steps ensures: so no word is
    /// ever 2147483648 phases behind.
    pub fn finish_turn(&mut self, root: PhaserId, ends: bool)
        requires there { root.0 < length self.old }
        requires root { root_at (phasers_of self.old) root.0 ≡ root.0 }
        requires turned { (flat_at (phasers_of self.old) root.0).turned ≡ true }
        requires live { (flat_at (phasers_of self.old) root.0).ended ≡ false }
        requires ends { (phaser_at (phasers_of self.old) root.0).ends < most_ends }
        ensures forest { phasers_of self.new ≡ after_phase_end root.0 ends (phasers_of self.old) }
        ensures call { IsCall root.0 (origin_after_phase_end root.0 (phasers_of self.old)) self.old self.new }
        ensures safe { (origin : Origin) → AreTallied (phasers_of self.old) origin
            → origin.stray root.0 ≡ false
            → HaveAllArrived origin root.0 (phasers_of self.old) }
    {
        phase_end::end_phase(self.nodes.as_mut_slice(), root.0 as usize, ends);
    }

    /// Terminates the phaser's tree: `forceTermination`. The phase and the registered parties stay. A second call does nothing.
    pub fn force(&mut self, id: PhaserId)
        requires { id.0 < length self.old }
        ensures forest { phasers_of self.new ≡ after_force id.0 (phasers_of self.old) }
        ensures call { IsCall id.0 (λ origin. origin) self.old self.new }
        ensures ends { KeepsEnds (phasers_of self.old) (phasers_of self.new) }
    {
        phase_end::force_tree(self.nodes.as_mut_slice(), id.0 as usize);
    }

    /// Saves what a call at this phaser can change: at most 8 words, from it up to its root.
    #[inline(never)]
    pub fn save(&self, id: PhaserId) -> Saved
        requires { id.0 < length self.now }
        ensures { result ≡ saved_of id.0 self.now }
    {
        saved::keep(self.nodes.as_slice(), id.0 as usize)
    }

    /// Undoes the call since the forest was saved, and the end of a phase that may have followed: every word is as before.
    pub fn restore(&mut self, saved: Saved)
        requires { IsSavedOf saved self.old }
        ensures forest { self.new ≡ restored saved self.old }
        ensures many { length self.new ≡ length self.old }
        ensures places { KeepsPlaces (phasers_of self.old) (phasers_of self.new) }
        ensures undone { (id : ℕ) (before : List Stored) → saved ≡ saved_of id before
            → ChangedAt id before self.old → self.new ≡ before }
    {
        self.put_back(&saved);
    }

    /// Undoes the call since the forest was saved, as `restore` does. What was saved can be used again.
    pub fn put_back(&mut self, saved: &Saved)
        requires { IsSavedOf saved.now self.old }
        ensures forest { self.new ≡ restored saved.now self.old }
        ensures many { length self.new ≡ length self.old }
        ensures places { KeepsPlaces (phasers_of self.old) (phasers_of self.new) }
        ensures undone { (id : ℕ) (before : List Stored) → saved.now ≡ saved_of id before
            → ChangedAt id before self.old → self.new ≡ before }
    {
        saved::put_back_all(self.nodes.as_mut_slice(), saved);
    }
}

/// Laws: what is true of every forest. Each only reads a field, which brings the invariant of `Forest` into its proof.
impl Forest {
    /// A law: a forest has at most 64 phasers, and the line of each phaser leads up to a root. The word of a phaser may have an
    /// older phase than the root. It is older by at most as many phases as have ended in this tree. No phaser is terminated
    /// before its root. The lemmas of other crates require these facts. The read of a field is there for the proof.
    pub fn is_forest(&self)
        ensures { IsStored self.now }
    {
        let _ = &self.nodes;
    }

    /// A law: each phaser has its root's phase, and is terminated exactly if the root is. The read serves the proof.
    #[tactic(auto, using(crate::proofs::Calls::one_phase))]
    pub fn each_tree_has_one_phase(&self)
        ensures { HaveOnePhase (phasers_of self.now) }
    {
        let _ = &self.nodes;
    }

    /// A law: in a tree without a stray arrival, nobody can register or arrive while the root is turned. An arrival is
    /// stray if all parties that registered directly with its phaser have arrived already. The read serves the proof.
    #[tactic(auto, using(crate::proofs::Between::between))]
    pub fn nobody_comes_between(&self)
        ensures { NobodyComesBetween (phasers_of self.now) }
    {
        let _ = &self.nodes;
    }
}
