//! The machine that plays small thread programs with phasers and barriers, one choice at a time.
//!
//! A choice names a thread, and is either a turn of this thread or the expiry of its timed wait. `Machine::step` does exactly
//! what the definitions say. It allocates memory only if the choice outputs a value, and a refused step changes nothing.
//! `machine_scene` defines what the rows do. `thread_state` defines what a turn does to its own thread.
#![tactic(auto)]

mod choice;
mod fault;
mod law;
mod machine;
mod standing;
mod undo;

pub use choice::Choice;
pub use fault::StepFault;
pub use law::{
    a_higher_limit_changes_nothing_that_was_accepted, no_phase_ends_early,
    one_more_choice_extends_the_execution,
};
pub use machine::Machine;
pub use standing::Standing;
pub use thread_state::{Entry, Event, Mark, Status, What};
pub use undo::Undo;
