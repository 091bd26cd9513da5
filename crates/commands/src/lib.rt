//! The commands that are not in `workbench`: they show pictures, rows and differences, write schedules, and play many runs.
//!
//! - `make` carries out the commands `show` and `draw`. It makes a picture of a run in memory, and then writes the whole
//!   picture.
//! - `list_rows` lists the rows of a program.
//! - `choices` and `plan` write a schedule: that of a trace, or that of a plan.
//! - `show_comparison` writes the verdict of `compare_cmd`, and then the lines that differ.
//! - `report_runs` plays a program many times on real threads. For each state in which runs ended, it writes a line. With
//!   `Pauses` the threads pause now and then. So orders happen that are rare otherwise.
//! - `report_seeds` plays a program in the orders that some seeds give, and writes lines of the same form.
#![tactic(auto)]

// Schedules of traces and plans, lines that differ, and rows.
pub mod choices;
pub mod comparison;
mod image_rows;
pub mod named;
pub mod plan;
pub mod rows;
mod text_rows;
pub mod unplanned;
mod verdict_lines;

// Pictures of a run.
pub mod drawing;
mod enough;
pub mod page;
pub mod picture;
pub mod write_picture;

// Many live runs, and the orders of many seeds.
pub mod differences;
pub mod end_state;
mod law;
pub mod many_runs;
pub mod outcomes;
pub mod pauses;
mod report;
mod runs;
pub mod seeds;

pub use comparison::show_comparison;
pub use law::{
    a_file_has_one_listing, a_line_of_a_schedule_is_the_schedule,
    a_row_is_listed_with_the_line_that_says_it,
};
pub use many_runs::{Asked, report_runs};
pub use pauses::Pauses;
pub use rows::list_rows;
