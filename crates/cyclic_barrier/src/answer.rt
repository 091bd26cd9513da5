/// The result of a call of `await` by a thread.
#[derive(Clone, Copy, PartialEq, Eq)]
pub enum Entered {
    /// It waits; this is its arrival index, parties - 1 for the first and never 0.
    Wait(u16),
    /// It is the last and runs the action; the others go on waiting.
    Run,
    /// It is the last and there is no action: index 0, and the others are released.
    Tripped,
    /// The barrier is broken: `BrokenBarrierException`.
    Broken,
    /// It was interrupted and broke the barrier: `InterruptedException`.
    Interrupted,
    /// It had no time to wait and broke the barrier: `TimeoutException`.
    TimedOut,
    /// Another thread runs the action: call again when it is done.
    Busy,
    /// It runs the action itself: `IllegalStateException`.
    Own,
}

/// The state of a wait.
#[derive(Clone, Copy, PartialEq, Eq)]
pub enum WaitState {
    /// Its generation has not ended.
    Waiting,
    /// The barrier tripped: `await` returns the arrival index.
    Tripped,
    /// The barrier broke or was reset: `BrokenBarrierException`.
    Broken,
}
