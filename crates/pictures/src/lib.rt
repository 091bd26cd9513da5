//! Two ways to show a run: a page that any browser opens without a network, and a text for a terminal.
//!
//! A page has fixed parts, and four texts between them: the listing of the program, its source, the schedule, and the trace. It
//! is proved that the texts belong to the program and the schedule. The fixed parts are an argument (`Frame`); `page_frame` has
//! those that are used.
//!
//! `specs/Picture.antt` defines the text for a terminal. It has a column for each thread, and a line for each choice. Threads
//! that don't fit side by side are in another block.
#![tactic(auto)]

// The page.
pub mod choices;
mod escape;
pub mod frame;
pub mod missing;
pub mod page;

// The text.
mod block;
pub mod caption;
mod closing;
mod fitting;
mod law;
pub mod line;
mod pen;
pub mod picture;
mod sheet;
mod turn;

pub use law::{an_escaped_text_ends_no_element, no_line_is_longer_than_the_width};
