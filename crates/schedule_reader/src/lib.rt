//! Schedules: texts that say whose turn it is.
//!
//! A schedule is a list of tokens. The token `t3` is a turn of thread 3, `x3` is the expiry of its timed wait, and `t3*20` is
//! twenty turns. Each token is read as a run: a choice, and how often it is made. A `Reader` reads a text that comes in
//! pieces of any size, and `read_schedule` reads a whole text (`specs/Schedule.antt`). `few_runs` reads one without memory, and
//! says only whether it has a fault, no run, one run, or more. `write_schedule` returns the text of a list of runs.
//! `push_choice` appends one choice to a text, for a caller that records choices while they are made (`specs/Record.antt`).
#![tactic(auto)]

mod fault;
mod few;
mod place;
mod reader;
mod record;
mod run;
mod whole;
mod writing;

pub use fault::ScheduleFault;
pub use few::{Few, few_runs};
pub use place::is_blank;
pub use reader::Reader;
pub use record::{MOST_CHOICE_BYTES, a_record_is_read_as_its_choices, push_choice};
pub use run::{Run, joined, push_joined};
pub use whole::read_schedule;
pub use writing::write_schedule;
