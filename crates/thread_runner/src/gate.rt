/// What a worker passes each time before it takes the lock. A gate that waits decides which worker goes first.
pub trait Gate {
    /// Returns when the worker of this thread may go on. `step` is how often it has passed before, at most 4294967295.
    fn pass(&self, thread: u8, step: u32);
}

/// A gate that lets every worker through at once.
#[derive(Clone, Copy, PartialEq, Eq)]
pub struct NoGate;

impl Gate for NoGate {
    /// Returns at once: any worker may go on.
    fn pass(&self, _thread: u8, _step: u32) {}
}
