ghost use Rattle.std.specs.Prelude.{◌≡◌, ◌↔◌, ◌≤◌, length, IsOk, IfOk, IfErr, List};
ghost use Rattle.row_code.specs.declared.barriers.DeclaredBarrier.{DeclaredBarrier};

use std::alloc::{AllocError, Global};
use std::marker::Model;

/// A barrier as a program declares it.
#[derive(Clone, Copy, PartialEq, Eq)]
pub struct DeclaredBarrier {
    pub parties: u16,
    /// The first row of the action that the last party runs, if there is one.
    pub action: Option<u16>,
}

/// The barriers of a program, at most 64.
#[derive(Drop)]
pub struct Barriers {
    entries: Vec<DeclaredBarrier>,
}

impl Model for Barriers {
    ghost Value = { List DeclaredBarrier };

    ghost view = { λ b. b.entries.items };

    ghost invariant = { λ b. length b.entries.items ≤ 64 };
}

impl Barriers {
    /// Takes the barriers as they are. Returns them in `Err` if they are more than 64.
    pub fn new(barriers: Vec<DeclaredBarrier>) -> Result<Barriers, Vec<DeclaredBarrier>>
        ensures made { IfOk result (λ made. made ≡ barriers.items) }
        ensures back { IfErr result (λ back. back ≡ barriers) }
        ensures room { IsOk result ↔ (length barriers.items ≤ 64) }
    {
        if barriers.len() > 64 {
            return Err(barriers);
        }
        Ok(Barriers { entries: barriers })
    }

    /// Returns the barriers in the order of their numbers, from 0.
    pub fn as_slice(&self) -> &[DeclaredBarrier]
        ensures barriers { result.now ≡ self.now }
        ensures fits { length self.now ≤ 64 }
    {
        &self.entries
    }

    /// Returns a copy with memory of its own.
    pub fn copy(&self, alloc: Global) -> Result<Barriers, AllocError>
        ensures { IfOk result (λ copy. copy ≡ self.now) }
    {
        Ok(Barriers {
            entries: Vec::from_slice(alloc, self.entries.as_slice())?,
        })
    }

    /// Returns the list of the barriers itself, not a copy.
    pub fn into_vec(self) -> Vec<DeclaredBarrier>
        ensures barriers { result.items ≡ self }
        ensures fits { length self ≤ 64 }
    {
        self.entries
    }
}
