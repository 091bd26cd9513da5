//! The session of a person who types commands at `debug`.
//!
//! `GuidedCommands` reads the lines that the person types, and passes them to the debugger. The debugger writes its replies.
//! `GuidedCommands` also shows which threads can continue and which wait, the lines of the played choices, and the names of
//! the program. If the debugger doesn't know a line, it shows which line the person may have meant.
#![tactic(auto)]

mod guided;
mod may_go;
mod names;
mod replayed;
mod spoken;
mod unknown;

pub use guided::GuidedCommands;
