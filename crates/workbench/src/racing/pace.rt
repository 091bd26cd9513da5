//! A report of how far a race has come.

/// Each thread of a race reports here that it has met the others once more.
pub trait Pace {
    /// Reports one meeting. A thread calls this after each.
    fn met(&self);
}

/// Nobody gets a report.
#[derive(Clone, Copy, PartialEq, Eq)]
pub struct NoPace;

impl Pace for NoPace {
    /// Does nothing.
    fn met(&self) {}
}
