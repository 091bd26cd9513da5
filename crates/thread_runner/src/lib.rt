//! Plays a loaded program with real threads, and records the choices that they make.
//!
//! Each thread of the program has a worker, which is a real thread. The workers share one lock. It protects a `Journaled`: a
//! machine, and the text of the choices that led to it. When a worker plays a choice, it adds this choice to the text, under
//! the same lock. `run_live` starts the workers. It returns the text as the schedule of the run, the machine, and how the run
//! ended.
#![tactic(auto)]

mod ending;
mod fault;
mod gate;
mod journaled;
mod law;
mod left_record;
mod live;
mod runner;
mod sleepers;

pub use ending::Ending;
pub use fault::{LiveFault, TakeFault};
pub use gate::{Gate, NoGate};
pub use journaled::Journaled;
pub use law::{
    a_run_goes_on_or_is_over, no_time_passes_while_a_thread_is_ready, some_worker_does_not_wait,
};
pub use left_record::LeftRecord;
pub use runner::{LiveRun, run_live};
