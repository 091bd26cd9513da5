//! One thread of a program: its place in the rows, its registers, its stack, its status and its output.
//!
//! Each method changes the thread as one kind of turn does, and returns what a trace shows of this turn. Phasers, barriers,
//! cells and other threads are in other crates.
#![tactic(auto)]

mod event;
mod frame;
mod status;
mod thread;

pub use event::{Event, Mark, What};
pub use frame::{Entry, Frame};
pub use status::Status;
pub use thread::{Thread, ThreadNote};
