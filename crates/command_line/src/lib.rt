//! Reads the arguments of the program by a table of its commands, and has the ports that the program reads and writes.
//!
//! `commands` is the table of the commands: their arguments and options, and the texts of their help. `request` has `clap` read
//! the arguments by this table. `clap` reports what is wrong with them.
//!
//! The module `ports` has what the program reads and writes, over any readers and writers of the system.
#![tactic(auto)]

// The table, and the texts of the help, in lines of at most 80 columns.
mod commands;
mod texts;

// What the arguments ask for.
pub mod request;

// What the program reads and writes.
pub mod ports;
