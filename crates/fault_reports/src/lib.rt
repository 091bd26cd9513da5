//! Reports to a person why the program didn't do what it was asked for.
//!
//! A `Failure` is the line that the formats fix, and for a person the place, a sentence and what helps. `Report` writes each
//! failure of each command in one form: the line always, and at most four lines after it at a terminal, or if `--explain` asks
//! for them. No file is read again for this.
#![tactic(auto)]

// How a failure is written.
pub mod place;
pub mod report;

// What is wrong with a file, a program, a schedule, a plan and a trace, and what helps.
pub mod files;
pub mod plan;
pub mod program;
pub mod schedule;
pub mod trace;
