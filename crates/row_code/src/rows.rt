//! The rows of an image. The bytes of a single row are in `row_bytes`.
ghost use Rattle.std.specs.Prelude.{◌≡◌, ◌≤◌, ◌↔◌, length, IsOk, IfOk, IfErr, List};
ghost use Rattle.instruction_table.specs.declared.row.Row.{Row};
ghost use Rattle.row_code.specs.Rows.{has_timed_row};

use instruction_table::{Row, is_timed};
use std::alloc::{AllocError, Global};
use std::marker::Model;

/// The most rows that an image has: its count of them is a number of two bytes.
pub const MOST_ROWS: usize = 65535;

/// The rows of a program, at most 65535.
#[derive(Drop)]
pub struct Rows {
    entries: Vec<Row>,
}

impl Model for Rows {
    ghost Value = { List Row };

    ghost view = { λ r. r.entries.items };

    ghost invariant = { λ r. length r.entries.items ≤ 65535 };
}

impl Rows {
    /// Takes the rows as they are. Returns them in `Err` if they are more than 65535.
    pub fn new(rows: Vec<Row>) -> Result<Rows, Vec<Row>>
        ensures made { IfOk result (λ made. made ≡ rows.items) }
        ensures back { IfErr result (λ back. back ≡ rows) }
        ensures room { IsOk result ↔ (length rows.items ≤ 65535) }
    {
        if rows.len() > MOST_ROWS {
            return Err(rows);
        }
        Ok(Rows { entries: rows })
    }

    /// Returns whether one of the rows has a timeout.
    pub fn has_timed(&self) -> bool
        ensures { result ≡ has_timed_row self.now }
    {
        self.entries.iter().any(|row| is_timed(*row))
    }

    /// Returns the rows in the order of their numbers, from 0.
    pub fn as_slice(&self) -> &[Row]
        ensures rows { result.now ≡ self.now }
        ensures fits { length self.now ≤ 65535 }
    {
        &self.entries
    }

    /// Returns a copy with memory of its own.
    pub fn copy(&self, alloc: Global) -> Result<Rows, AllocError>
        ensures { IfOk result (λ copy. copy ≡ self.now) }
    {
        Ok(Rows {
            entries: Vec::from_slice(alloc, self.entries.as_slice())?,
        })
    }

    /// Returns the list of the rows itself, not a copy.
    pub fn into_vec(self) -> Vec<Row>
        ensures rows { result.items ≡ self }
        ensures fits { length self ≤ 65535 }
    {
        self.entries
    }
}
