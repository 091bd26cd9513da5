//! What one line of a program's text says: its words and their meaning. An image is also written as such lines.
//!
//! Each line is read by itself. The assembler checks what depends on other lines, such as which names exist.
//! `specs/Spelling.antt` is the grammar. `specs/Reading.antt` says which fault of a line is reported.
#![tactic(auto)]

// The parts of a line.
mod byte_kind;
pub mod first_line;
pub mod label;
pub mod name;
pub mod number;
pub mod words;

// What a line says: a row or a declaration, perhaps with names.
pub mod kept_row;
pub mod reference;
pub mod statement;
pub mod symbolic_barrier;
pub mod symbolic_phaser;
pub mod symbolic_row;
pub mod symbolic_thread;

// How its words are read, and what can be wrong with them.
mod argument;
pub mod asm_fault;
pub mod directive;

// How the lines of an image are written.
pub mod listing;

pub use listing::disassemble;
