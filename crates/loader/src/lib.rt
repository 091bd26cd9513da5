//! The checks that a program passes before it is played.
//!
//! `load` returns the program that an image declares, or the first fault in a fixed order, with its place. Every `Loaded` has
//! passed these checks, so the machine can rely on them, as a JVM relies on the checks of its verifier.
#![tactic(auto)]

// Why an image is refused.
mod load_fault;

// What a row names, and whether it exists.
mod counts;
mod named;
mod row_checks;

// How declarations are checked and made.
mod barriers;
mod phasers;

// The program.
mod loaded;

pub use load_fault::{LoadFault, Place};
pub use loaded::{Loaded, load};
pub use named::{Named, named_by};
