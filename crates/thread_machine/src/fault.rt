/// Why a choice was refused. The machine is as before.
#[derive(Clone, Copy, PartialEq, Eq)]
pub enum StepFault {
    /// There is no thread of this number.
    NoSuchThread,
    /// All 1,000,000,000,000 choices are used, or the limit of effective steps is reached and the choice isn't idle.
    StepLimit,
    /// No memory for a value put out.
    Memory,
}
