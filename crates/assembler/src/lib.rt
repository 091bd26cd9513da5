//! The assembler: from a program's text to its image, and back.
//!
//! `assemble` returns the image that a text represents, or the first fault of the text, with its line. The relation
//! `StandsFor` says which image a text represents, and doesn't depend on how a text is read. `disassemble` writes the
//! canonical text of an image. This text represents no other image. No choice of names makes `assemble` slow (`name_hash`
//! says why).
#![tactic(auto)]

// How a line is read after the lines before it.
mod draft;
mod kept_line;
pub mod name_hash;
mod reading;

// From a text to its image, and to its names.
pub mod assembling;
mod first_pass;
pub mod made;
pub mod placed;
mod resolution;
pub mod symbols;
pub mod word_place;

// What texts mean, and that the canonical text of an image is assembled to it.
pub mod meaning;

pub use assembling::{assemble, assemble_named, assemble_placed};
pub use line_reader::asm_fault::{AsmFault, AsmFaultKind};
pub use line_reader::disassemble;
pub use placed::PlacedFault;
pub use symbols::{Symbol, Symbols};
