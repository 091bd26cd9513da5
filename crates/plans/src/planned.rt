use schedule_reader::Run;
use thread_machine::Machine;

/// What a plan has played on a program.
#[derive(Drop)]
pub struct Planned {
    /// The machine after the last choice.
    pub machine: Machine,
    /// The choices. Equal neighbours are joined in one run.
    pub runs: Vec<Run>,
    /// Whether the plan wanted one more choice than it may make.
    pub stopped: bool,
}
