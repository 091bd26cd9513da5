//! Where and why the debugger stops.
use thread_machine::StepFault;

/// A choice can't be taken back, because nothing is kept to do so. The debugger is as before.
#[derive(Clone, Copy, PartialEq, Eq)]
pub struct NoHistory;

/// Where `Debugger::go` stopped, and how many choices it played.
#[derive(Clone, Copy, PartialEq, Eq)]
pub enum Stop {
    /// The last choice was an effective step that left its thread running at a breakpoint.
    Break(u64),
    /// All choices were played.
    End(u64),
    /// The next choice was refused.
    Fault(u64, StepFault),
}
