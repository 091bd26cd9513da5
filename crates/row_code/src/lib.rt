//! Rows and whole programs as bytes: the image format.
//!
//! Each row and each image has exactly one encoding. `encode` and `write_image` write this encoding. `decode` and `read_image`
//! accept it and nothing else. For other bytes `decode` returns `None`, and `read_image` returns the first fault with its
//! place.
#![tactic(auto)]

// The operands of a row, in their fields, and the bytes of a row.
pub mod fields;
pub mod operands;
pub mod row_bytes;

// The parts of an image.
pub mod barriers;
pub mod image;
pub mod phasers;
pub mod rows;
pub mod threads;

// How the entries of each list are read and written.
mod barrier_entry;
mod entry;
mod phaser_entry;
mod read_fields;
mod row_entry;
mod thread_entry;

// From an image to bytes, and back.
pub mod image_fault;
pub mod reading;
pub mod write_fault;
pub mod writing;

// What is written is read again.
pub mod round_trip;

pub use barriers::{Barriers, DeclaredBarrier};
pub use fields::{Fields, fields_of};
pub use image::Image;
pub use image_fault::ImageFault;
pub use operands::{Operands, row_with};
pub use phasers::{DeclaredPhaser, DeclaredPolicy, Phasers};
pub use reading::{is_image_file, read_image};
pub use row_bytes::{decode, encode};
pub use rows::Rows;
pub use threads::{DeclaredThread, Threads};
pub use write_fault::WriteFault;
pub use writing::write_image;
