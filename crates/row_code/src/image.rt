ghost use Rattle.std.specs.Prelude.{◌≡◌, IfOk};

use crate::barriers::Barriers;
use crate::phasers::Phasers;
use crate::rows::Rows;
use crate::threads::Threads;
use std::alloc::{AllocError, Global};

/// A whole program: its declarations and its rows. A number in it need not refer to anything yet.
#[derive(Drop)]
pub struct Image {
    pub phasers: Phasers,
    pub barriers: Barriers,
    pub threads: Threads,
    pub rows: Rows,
}

impl Image {
    /// Returns a copy with memory of its own. Loading an image consumes it, so a program that is loaded twice has to be copied.
    pub fn copy(&self, alloc: Global) -> Result<Image, AllocError>
        ensures { IfOk result (λ copy. copy ≡ self.now) }
    {
        Ok(Image {
            phasers: self.phasers.copy(alloc)?,
            barriers: self.barriers.copy(alloc)?,
            threads: self.threads.copy(alloc)?,
            rows: self.rows.copy(alloc)?,
        })
    }
}

/// How many barriers, phasers, threads and rows an image has.
#[derive(Clone, Copy)]
pub struct Counts {
    pub phasers: u16,
    pub barriers: u16,
    pub threads: u16,
    pub rows: u16,
}

/// The first four bytes of an image without rows that have a timeout.
pub const MAGIC: [u8; 4] = *b"PBW1";

/// The first four bytes of an image with such a row.
pub const TIMED_MAGIC: [u8; 4] = *b"PBW2";
