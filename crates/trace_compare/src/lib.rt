//! Compares a trace with the run that it names, and extracts the schedule of a trace.
//!
//! `compare` plays the choices that the lines of a trace name. It returns the verdict `Same`, or the number of the first line
//! that differs from the run's line, or isn't a line of a trace. `judge` does the same, and also returns this line of the
//! trace and of the run.
//!
//! `choices_in` returns the choices of a trace in pairs: a choice, and how often it is made. If a line isn't a line of a
//! trace, it returns the number of the first such line. `write_choices` writes the choices as a schedule. It writes each pair
//! as soon as the next one begins. These two functions play no choice. `next_name` reads one line, for a caller that plays
//! the choices one by one.
//!
//! The crate `trace_text` says how a trace is written. Its names can also be used from this crate.
#![tactic(auto)]

// A trace beside the run that it names.
pub mod comparison;
pub mod judged;
mod law;

// The schedule of a trace: the choices that its lines name, up to its state.
pub mod line_names;
pub mod naming;
pub mod writing;

pub use comparison::{CompareFault, Verdict};
pub use judged::{Judged, compare, judge};
pub use law::{
    the_choices_of_a_trace_are_those_that_it_shows, the_choices_of_a_trace_have_that_trace,
    the_trace_of_any_choices_is_the_same, what_a_run_writes_is_the_same,
    what_is_the_same_is_the_trace_of_its_choices,
};
pub use trace_text::{
    PlayFault, Refusal, RunEnd, RunFault, StartFault, choice_in, event_line, first_machine,
    is_state_line, line_of_choice, refusal_line, run_loaded, run_text, run_to_end, state_text,
};
