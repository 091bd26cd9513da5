ghost use Rattle.std.specs.Prelude.{◌≡◌, ◌<◌, length, slice_get, IfSome};
ghost use Rattle.std.specs.Option.{option_map};
ghost use Rattle.packed_phaser.specs.Flat.{view_of, unarrived_of};
ghost use Rattle.tier_tree.specs.{Forest.phaser_at, Forest.flat_at, Forest.root_at, Stored.phasers_of};

use super::Forest;
use crate::id::PhaserId;
use crate::present::{line_at, phase_of, root_of, view_at, word_at};
use packed_phaser::Policy;
use phase_number::Phase;

/// What a phaser shows at present.
impl Forest {
    /// Returns the number of phasers.
    pub fn len(&self) -> usize
        ensures { result ≡ length self.now }
    {
        self.nodes.len()
    }

    /// Returns `getPhase`: the number of the tree's phase, less 2147483648 once the tree is terminated.
    #[inline(always)]
    pub fn phase(&self, id: PhaserId) -> i32
        requires { id.0 < length self.now }
        ensures { result ≡ view_of (flat_at (phasers_of self.now) id.0) }
    {
        view_at(self.nodes.as_slice(), id.0 as usize)
    }

    /// Returns the number of the tree's phase, terminated or not.
    pub fn phase_number(&self, id: PhaserId) -> Phase
        requires { id.0 < length self.now }
        ensures { result ≡ (flat_at (phasers_of self.now) id.0).phase }
    {
        phase_of(word_at(self.nodes.as_slice(), id.0 as usize))
    }

    /// Returns `getRegisteredParties`: its direct parties, and one for each child that joined.
    #[inline(always)]
    pub fn parties(&self, id: PhaserId) -> u16
        requires { id.0 < length self.now }
        ensures { result ≡ (flat_at (phasers_of self.now) id.0).parties }
    {
        word_at(self.nodes.as_slice(), id.0 as usize).parties()
    }

    /// Returns `getArrivedParties`: how many have arrived, or all of them once the tree is terminated.
    pub fn arrived(&self, id: PhaserId) -> u16
        requires { id.0 < length self.now }
        ensures { result ≡ (flat_at (phasers_of self.now) id.0).arrived }
    {
        word_at(self.nodes.as_slice(), id.0 as usize).arrived()
    }

    /// Returns `getUnarrivedParties`: how many are still to arrive, or 0 once the tree is terminated.
    pub fn unarrived(&self, id: PhaserId) -> u16
        requires { id.0 < length self.now }
        ensures { result ≡ unarrived_of (flat_at (phasers_of self.now) id.0) }
    {
        word_at(self.nodes.as_slice(), id.0 as usize).unarrived()
    }

    /// Returns `isTerminated`: whether the tree is terminated.
    pub fn is_terminated(&self, id: PhaserId) -> bool
        requires { id.0 < length self.now }
        ensures { result ≡ (flat_at (phasers_of self.now) id.0).ended }
    {
        word_at(self.nodes.as_slice(), id.0 as usize).is_terminated()
    }

    /// Returns whether the phaser is turned: nobody is still to arrive, until the phase of its tree ends.
    pub fn is_turned(&self, id: PhaserId) -> bool
        requires { id.0 < length self.now }
        ensures { result ≡ (flat_at (phasers_of self.now) id.0).turned }
    {
        word_at(self.nodes.as_slice(), id.0 as usize).is_turned()
    }

    /// Returns how many phases of a root's tree have ended with `finish_turn`. It is 0 for a child.
    pub fn ended_phases(&self, id: PhaserId) -> u32
        requires { id.0 < length self.now }
        ensures { result ≡ (phaser_at (phasers_of self.now) id.0).ends }
    {
        self.nodes[id.0 as usize].ended_phases()
    }

    /// Returns `getParent`: the parent's number, or `None` for a root.
    pub fn parent(&self, id: PhaserId) -> Option<PhaserId>
        requires { id.0 < length self.now }
        ensures parent { result ≡ option_map (λ n. record { 0 = n })
            (slice_get (phaser_at (phasers_of self.now) id.0).line 1) }
        ensures there { IfSome result (λ parent. parent.0 < length self.now) }
    {
        let line = line_at(self.nodes.as_slice(), id.0 as usize);
        match line.as_slice().get(1) {
            Some(parent) => Some(PhaserId(*parent)),
            None => None,
        }
    }

    /// Returns `getRoot`: the root's number, the phaser's own if it is a root.
    pub fn root(&self, id: PhaserId) -> PhaserId
        requires { id.0 < length self.now }
        ensures root { result.0 ≡ root_at (phasers_of self.now) id.0 }
        ensures there { result.0 < length self.now }
        ensures top { root_at (phasers_of self.now) result.0 ≡ result.0 }
    {
        PhaserId(root_of(self.nodes.as_slice(), id.0 as usize))
    }

    /// Returns the policy of `onAdvance`. A child has one, too, but nothing asks it.
    pub fn policy(&self, id: PhaserId) -> Policy
        requires { id.0 < length self.now }
        ensures { result ≡ (phaser_at (phasers_of self.now) id.0).policy }
    {
        self.nodes[id.0 as usize].policy()
    }
}
