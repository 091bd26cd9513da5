//! The text of a run: a line for each choice, and the state after the last choice. This crate also reads such lines.
//!
//! `run_text` plays the program of an image under a schedule. It reads the schedule piece by piece, and writes the line of
//! each choice when the choice has been played. An expectation is a text about the end of a run. `is_met` compares it with
//! the lines of the state.
#![tactic(auto)]

// The lines of choices, as they are written.
mod choice_line;
pub mod digits;
pub mod line;
pub mod line_end;

// The lines of a state, and what is expected of them: the texts that say so, and whether a state is as expected.
pub mod expectation;
pub mod form;
mod pieces;
pub mod state;
pub mod state_line;

// A run, from its first world to its end.
pub mod loaded;
pub mod play;
pub mod run;
mod run_end;
pub mod start;

// What the lines of a trace name.
pub mod next_choice;
pub mod trace_line;

pub use line::{event_line, refusal_line};
pub use line_end::LineEnd;
pub use loaded::{run_choices, run_loaded};
pub use play::{PlayFault, Refused, line_of_choice};
pub use run::{RunFault, run_text, run_to_end};
pub use run_end::{Refusal, RunEnd};
pub use start::{StartFault, first_machine};
pub use state::state_text;
pub use trace_line::{choice_in, is_state_line};
