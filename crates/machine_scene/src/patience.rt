/// How long a thread is willing to wait for the end of a phase.
#[derive(Clone, Copy)]
pub enum Patience {
    /// Until the phase ends: `awaitAdvance`.
    Endless,
    /// Until it is interrupted: `awaitAdvanceInterruptibly`.
    Interruptible,
    /// Until it is interrupted, or until this time is over. A time of 0 or less is over at once.
    Timed(i32),
}
