//! The ports of the program: what it reads and writes, over any readers and writers of the system.

pub mod input;
pub mod printable;
pub mod reasoned;
pub mod watched;
