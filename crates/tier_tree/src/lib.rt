//! Trees of phasers, as `java.util.concurrent.Phaser` makes them with `new Phaser(parent, parties)`.
//!
//! A `Forest` has up to 64 phasers. Each is a root, or the child of a phaser that was declared before it. A call names one
//! phaser, and may also change its parent, the parent of that one, and so on up to the root. If one of these phasers refuses
//! the call, nothing changes. The phase of a tree ends in two calls, `arrive` and `finish_turn`, and a routine can run between
//! the two. `save` keeps what one call can change, and `restore` undoes this call, word for word. Only `Forest::new`, `declare`
//! and `copy` allocate memory.
#![tactic(auto)]

mod arrived;
mod climb;
mod fault;
mod forest;
mod id;
mod join;
mod line;
mod node;
mod phase_end;
mod present;
mod registered;
mod saved;

pub use arrived::Arrived;
pub use fault::DeclareFault;
pub use forest::Forest;
pub use id::PhaserId;
pub use registered::Registered;
pub use saved::{Saved, what_was_saved_is_restored};
