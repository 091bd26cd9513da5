// The breakpoints at the rows of a program.
ghost use Rattle.std.specs.Prelude.{◌≡◌, IfOk, false, length, nat_lt, replicate, slice_index_or, slice_set};

use std::alloc::{AllocError, Global};
use std::marker::Model;

/// For each row of a program whether it has a breakpoint. If none was ever set, `were_ever_set` says so without a search.
#[derive(Drop)]
pub struct Marks {
    rows: Vec<bool>,
    were_ever_set: bool,
}

impl Model for Marks {
    ghost use Rattle.std.specs.Prelude.{◌≡◌, Bool, List, false, length, replicate};

    ghost Value = { List Bool };

    ghost view = { λ marks. marks.rows.items };

    ghost invariant = { λ marks. marks.were_ever_set ≡ false
        → marks.rows.items ≡ replicate (length marks.rows.items) false };
}

impl Marks {
    /// Makes marks for `rows` rows, none of which has a breakpoint. Fails if it is out of memory.
    pub fn new(alloc: Global, rows: usize) -> Result<Marks, AllocError>
        ensures { IfOk result (λ marks. marks ≡ replicate rows false) }
    {
        Ok(Marks {
            rows: Vec::from_elem(alloc, false, rows)?,
            were_ever_set: false,
        })
    }

    /// Returns a copy of the marks. Fails if it is out of memory.
    pub fn copy(&self, alloc: Global) -> Result<Marks, AllocError>
        ensures { IfOk result (λ copy. copy ≡ self.now) }
    {
        Ok(Marks {
            rows: Vec::from_slice(alloc, self.rows.as_slice())?,
            were_ever_set: self.were_ever_set,
        })
    }

    /// Sets the breakpoint at a row, or clears it if `is_break` is false. Returns false if there is no such row.
    #[tactic(auto, using(crate::proofs::Unmarked::none_cleared))]
    pub fn put(&mut self, row: usize, is_break: bool) -> bool
        ensures row { result ≡ nat_lt row (length self.old) }
        ensures marks { self.new ≡ slice_set self.old row is_break }
    {
        match self.rows.get_mut(row) {
            Some(mark) => {
                *mark = is_break;
                if is_break {
                    self.were_ever_set = true;
                }
                true
            }
            None => false,
        }
    }

    /// Returns whether any breakpoint was ever set, even if it was cleared later. If none was, no row has one.
    pub fn were_ever_set(&self) -> bool
        ensures { result ≡ false → self.now ≡ replicate (length self.now) false }
    {
        self.were_ever_set
    }

    /// Returns whether a row has a breakpoint, or false if there is no such row.
    pub fn has(&self, row: u16) -> bool
        ensures { result ≡ slice_index_or self.now row false }
    {
        let row = row as usize;
        row < self.rows.len() && self.rows[row]
    }
}
