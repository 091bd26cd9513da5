//! One `java.util.concurrent.Phaser` without tiers, shared by the threads of a process.
//!
//! The state of the phaser is one packed word. A call replaces this word at most once, in one atomic step. Each thread has a
//! token of its own, a `Party`, and passes it to its calls. Even if the threads call at the same time, all their calls are in
//! one legal history (`specs/History.antt`). The `.._within` calls never wait. The calls that take `Wait` try again until
//! they have a result.
#![tactic(auto)]

mod attempt;
mod calls;
mod effect;
mod history;
mod phaser;
mod rule;
mod waiting;

pub use calls::Raced;
pub use history::{Answer, Call, Entry, Kept, Known, Reply, Setup};
pub use phaser::{NewFault, Party, SharedPhaser};
pub use waiting::NotThere;
