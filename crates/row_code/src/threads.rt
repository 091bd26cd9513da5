ghost use Rattle.std.specs.Prelude.{◌≡◌, ◌↔◌, ◌≤◌, length, IsOk, IfOk, IfErr, List};
ghost use Rattle.row_code.specs.declared.threads.DeclaredThread.{DeclaredThread};

use std::alloc::{AllocError, Global};
use std::marker::Model;

/// A thread as a program declares it.
#[derive(Clone, Copy, PartialEq, Eq)]
pub struct DeclaredThread {
    /// The first row of the thread.
    pub first_row: u16,
}

/// The threads of a program, at most 64.
#[derive(Drop)]
pub struct Threads {
    entries: Vec<DeclaredThread>,
}

impl Model for Threads {
    ghost Value = { List DeclaredThread };

    ghost view = { λ t. t.entries.items };

    ghost invariant = { λ t. length t.entries.items ≤ 64 };
}

impl Threads {
    /// Takes the threads as they are. Returns them in `Err` if they are more than 64.
    pub fn new(threads: Vec<DeclaredThread>) -> Result<Threads, Vec<DeclaredThread>>
        ensures made { IfOk result (λ made. made ≡ threads.items) }
        ensures back { IfErr result (λ back. back ≡ threads) }
        ensures room { IsOk result ↔ (length threads.items ≤ 64) }
    {
        if threads.len() > 64 {
            return Err(threads);
        }
        Ok(Threads { entries: threads })
    }

    /// Returns the threads in the order of their numbers, from 0.
    pub fn as_slice(&self) -> &[DeclaredThread]
        ensures threads { result.now ≡ self.now }
        ensures fits { length self.now ≤ 64 }
    {
        &self.entries
    }

    /// Returns a copy with memory of its own.
    pub fn copy(&self, alloc: Global) -> Result<Threads, AllocError>
        ensures { IfOk result (λ copy. copy ≡ self.now) }
    {
        Ok(Threads {
            entries: Vec::from_slice(alloc, self.entries.as_slice())?,
        })
    }

    /// Returns the list of the threads itself, not a copy.
    pub fn into_vec(self) -> Vec<DeclaredThread>
        ensures threads { result.items ≡ self }
        ensures fits { length self ≤ 64 }
    {
        self.entries
    }
}
