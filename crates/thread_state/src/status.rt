/// What a thread is doing.
#[derive(Clone, Copy, PartialEq, Eq)]
pub enum Status {
    /// It plays its rows.
    Runs,
    /// It looks for a handler of this exception.
    Throws(i32),
    /// It waits for the end of the phase of this number.
    AwaitsPhase(i32),
    /// It waits at a barrier; the index of its arrival.
    AwaitsBarrier(i32),
    /// It came to a `halt`.
    Ended,
    /// No handler caught this exception.
    Died(i32),
}
