ghost use Rattle.std.specs.Prelude.{◌≡◌, ◌+◌, ◌<◌, ◌∷◌, [], ◌++◌, length, true, false, None, IfOk, IfErr, IfSome, OnErr, nat_abs};
ghost use Rattle.std.specs.List.{list_any};
ghost use Rattle.packed_phaser.specs.Word.{record_of};
ghost use Rattle.tier_tree.specs.{Answer.AddsPlace, Answer.KeepsEnds, Origin.Carries, Origin.declared_at, Stored.phasers_of};
ghost use Rattle.tier_tree.specs.Declaration.{has_parent, is_root, line_above, joins_above, declared, fault_of, after_declaration, IsFreshAbove, AreAllFresh};
ghost use Rattle.tier_tree.specs.Registration.{is_overfull, joined};

use super::Forest;
use crate::fault::DeclareFault;
use crate::id::PhaserId;
use crate::join::{is_overfull_along, join_along};
use crate::line::{Line, MOST_LEVELS};
use crate::node::Node;
use crate::present::{line_at, phase_of, word_at};
use packed_phaser::{Policy, Word};
use phase_number::Phase;
use std::alloc::AllocError;

/// The most phasers of a forest.
const MOST_PHASERS: usize = 64;

/// A phaser is declared, and registers with its parent if it has parties.
impl Forest {
    /// Adds a phaser, as `new Phaser(parent, parties)`, with the policy that `onAdvance` follows, and returns its number. A
    /// root may begin in any phase. A child has to be declared before anything happens in its parent's tree in the present
    /// phase. It begins in that phase; its `phase` has to be 0. `Err`: nothing changes. Only this, `new` and `copy` allocate.
    /// The last four clauses: the other phasers keep their lines and policies, no phase ends, nobody arrives, and the new
    /// parties are counted.
    pub fn declare(
        &mut self,
        parent: Option<PhaserId>,
        parties: i32,
        policy: Policy,
        phase: Phase,
    ) -> Result<PhaserId, DeclareFault>
        requires { IsFreshAbove parent (phasers_of self.old) }
        ensures fault { IfSome (fault_of parent parties phase (phasers_of self.old))
            (λ fault. result ≡ Err fault) }
        ensures memory { fault_of parent parties phase (phasers_of self.old) ≡ None
            → IfErr result (λ fault. fault ≡ DeclareFault.Memory) }
        ensures id { IfOk result (λ id. id.0 ≡ length self.old) }
        ensures many { IfOk result (λ _. length self.new ≡ length self.old + 1) }
        ensures declared { IfOk result (λ _. phasers_of self.new
            ≡ after_declaration parent (nat_abs parties) policy phase (phasers_of self.old)) }
        ensures err { OnErr result (self.new ≡ self.old) }
        ensures places { IfOk result (λ _. AddsPlace (phasers_of self.old) (phasers_of self.new)) }
        ensures ends { IfOk result (λ _. KeepsEnds (phasers_of self.old) (phasers_of self.new)) }
        ensures fresh { AreAllFresh (phasers_of self.old) → AreAllFresh (phasers_of self.new) }
        ensures origin { IfOk result (λ id. Carries
            (declared_at id.0 (nat_abs parties) (is_root parent))
            (phasers_of self.old) (phasers_of self.new)) }
    {
        if let Some(fault) = self.fault(parent, parties, phase) {
            return Err(fault);
        }
        let id = self.nodes.len() as u8;
        match self.add(parent, parties as u16, policy, phase) {
            Ok(()) => Ok(PhaserId(id)),
            Err(_) => Err(DeclareFault::Memory),
        }
    }

    /// Returns the first fault of a declaration in the order of these checks. `None`: there is none. Memory isn't checked.
    fn fault(&self, parent: Option<PhaserId>, parties: i32, phase: Phase) -> Option<DeclareFault>
        ensures { result ≡ fault_of parent parties phase (phasers_of self.now) }
    {
        if self.nodes.len() >= MOST_PHASERS {
            Some(DeclareFault::TooManyPhasers)
        } else if !self.has_parent(parent) {
            Some(DeclareFault::NoParent)
        } else if parties < 0 || parties > 65535 {
            Some(DeclareFault::BadParties)
        } else if parent.is_some() && phase.number() != 0 {
            Some(DeclareFault::PhaseOnChild)
        } else if self.height(parent) >= MOST_LEVELS {
            Some(DeclareFault::TooDeep)
        } else if self.is_overfull_above(parent, parties as u32) {
            Some(DeclareFault::TooMany)
        } else {
            None
        }
    }

    /// Returns whether the parent exists. It is true for a root, which has none.
    fn has_parent(&self, parent: Option<PhaserId>) -> bool
        ensures { result ≡ has_parent parent (phasers_of self.now) }
    {
        match parent {
            Some(parent) => (parent.0 as usize) < self.nodes.len(),
            None => true,
        }
    }

    /// Returns how many phasers there are from the parent up to its root: 0 without a parent.
    fn height(&self, parent: Option<PhaserId>) -> usize
        requires { has_parent parent (phasers_of self.now) ≡ true }
        ensures { result ≡ length (line_above parent (phasers_of self.now)) }
    {
        match parent {
            Some(parent) => line_at(self.nodes.as_slice(), parent.0 as usize).len(),
            None => 0,
        }
    }

    /// Returns whether a parent has no room for the one party that a child registers. A child with 0 `parties` registers none.
    fn is_overfull_above(&self, parent: Option<PhaserId>, parties: u32) -> bool
        requires { has_parent parent (phasers_of self.now) ≡ true }
        ensures { result ≡ list_any (is_overfull (phasers_of self.now))
            (joins_above parent parties (phasers_of self.now)) }
    {
        match parent {
            Some(parent) => {
                if parties == 0 {
                    return false;
                }
                let line = line_at(self.nodes.as_slice(), parent.0 as usize);
                is_overfull_along(self.nodes.as_slice(), line.as_slice(), 1)
            }
            None => false,
        }
    }

    /// Adds a phaser that `fault` doesn't refuse. If it has a parent and parties, registers one party with the parent. An empty
    /// parent registers one with its own, too. `Err`: no memory, and nothing changes. The last four clauses are those of
    /// `declare`.
    fn add(
        &mut self,
        parent: Option<PhaserId>,
        parties: u16,
        policy: Policy,
        phase: Phase,
    ) -> Result<(), AllocError>
        requires few { length self.old < 64 }
        requires parent { has_parent parent (phasers_of self.old) ≡ true }
        requires levels { length (line_above parent (phasers_of self.old)) < 8 }
        requires tree { IsFreshAbove parent (phasers_of self.old) }
        requires room { list_any (is_overfull (phasers_of self.old))
            (joins_above parent parties (phasers_of self.old)) ≡ false }
        ensures ok { IfOk result (λ _. phasers_of self.new
            ≡ after_declaration parent parties policy phase (phasers_of self.old)) }
        ensures many { IfOk result (λ _. length self.new ≡ length self.old + 1) }
        ensures err { OnErr result (self.new ≡ self.old) }
        ensures places { IfOk result (λ _. AddsPlace (phasers_of self.old) (phasers_of self.new)) }
        ensures ends { IfOk result (λ _. KeepsEnds (phasers_of self.old) (phasers_of self.new)) }
        ensures fresh { AreAllFresh (phasers_of self.old) → AreAllFresh (phasers_of self.new) }
        ensures origin { IfOk result (λ _. Carries
            (declared_at (length self.old) parties (is_root parent))
            (phasers_of self.old) (phasers_of self.new)) }
    {
        self.is_forest();
        self.push(parent, parties, policy, phase)?;
        self.join_above(parent, parties);
        Ok(())
    }

    /// Appends a phaser, which isn't registered with its parent yet. Fails if it is out of memory, and then appends nothing.
    fn push(
        &mut self,
        parent: Option<PhaserId>,
        parties: u16,
        policy: Policy,
        phase: Phase,
    ) -> Result<(), AllocError>
        requires few { length self.old < 64 }
        requires parent { has_parent parent (phasers_of self.old) ≡ true }
        requires levels { length (line_above parent (phasers_of self.old)) < 8 }
        requires fresh { IsFreshAbove parent (phasers_of self.old) }
        ensures ok { IfOk result (λ _. phasers_of self.new
            ≡ phasers_of self.old ++ declared parent parties policy phase (phasers_of self.old) ∷ []) }
        ensures many { IfOk result (λ _. length self.new ≡ length self.old + 1) }
        ensures err { OnErr result (self.new ≡ self.old) }
    {
        let node = self.new_node(parent, parties, policy, phase);
        self.nodes.push(node)?;
        Ok(())
    }

    /// Makes a phaser. A child begins in the phase of its parent, and a root in `phase`.
    fn new_node(&self, parent: Option<PhaserId>, parties: u16, policy: Policy, phase: Phase) -> Node
        requires few { length self.now < 64 }
        requires parent { has_parent parent (phasers_of self.now) ≡ true }
        requires levels { length (line_above parent (phasers_of self.now)) < 8 }
        ensures line { result.line
            ≡ (declared parent parties policy phase (phasers_of self.now)).line }
        ensures policy { result.policy ≡ policy }
        ensures word { record_of result.word
            ≡ (declared parent parties policy phase (phasers_of self.now)).flat }
        ensures ends { result.ends ≡ 0 }
    {
        let id = self.nodes.len() as u8;
        match parent {
            Some(parent) => {
                let line = line_at(self.nodes.as_slice(), parent.0 as usize);
                let above = word_at(self.nodes.as_slice(), parent.0 as usize);
                let word = Word::fresh(phase_of(above), parties);
                Node::new(line.of_child(id), policy, word)
            }
            None => Node::new(Line::of_root(id), policy, Word::fresh(phase, parties)),
        }
    }

    /// If a child has parties, registers one party with its parent. A parent that was empty registers one with its own, too.
    fn join_above(&mut self, parent: Option<PhaserId>, parties: u16)
        requires { has_parent parent (phasers_of self.old) ≡ true }
        ensures joined { phasers_of self.new
            ≡ joined (joins_above parent parties (phasers_of self.old)) (phasers_of self.old) }
        ensures many { length self.new ≡ length self.old }
    {
        if let Some(parent) = parent {
            if parties > 0 {
                let line = line_at(self.nodes.as_slice(), parent.0 as usize);
                join_along(self.nodes.as_mut_slice(), line.as_slice(), 1);
            }
        }
    }
}
