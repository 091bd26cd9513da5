use crate::left_record::LeftRecord;

/// Why a step was not taken. Nothing has changed.
#[derive(Clone, Copy, PartialEq, Eq)]
pub enum TakeFault {
    /// The thread isn't ready, or its wait can't expire now.
    NotReady,
    /// The limit of steps is reached.
    StepLimit,
    /// No memory for the record, or for a value put out.
    Memory,
}

/// Why a live run was broken off. Every worker that was started has ended.
#[derive(Drop)]
pub enum LiveFault {
    /// Out of memory, with what was played until then.
    Memory(LeftRecord),
    /// A thread couldn't be started.
    Spawn,
}
