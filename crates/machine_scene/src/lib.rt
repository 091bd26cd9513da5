//! What one turn of a thread does to the threads, cells, phasers and barriers of a program.
//!
//! A `Stage` stores these things. In contracts they are a *scene*, a plain value. `Stage::turn` plays one turn of a thread.
//! It plays the row at which the thread is, or pops one stack entry if the thread throws, or ends the thread's wait.
//! `Stage::expire` ends a timed wait because its time is over.
//!
//! To understand the crate, read `specs/Scene.antt` (what there is), `specs/Outcomes.antt` (what a turn does, by groups of
//! rows), and `specs/Ready.antt` (which threads can take a turn). Then read `stage`: its `turn` finds the row, and calls the
//! function of the row's group. The most frequent turns are in `common_turns`.
#![tactic(auto)]

mod law;
mod manner;
mod note;
mod patience;
mod reach;
mod ready_set;
mod stage;

pub use law::{a_first_scene_is_sound, who_is_ready};
pub use note::SceneNote;
pub use ready_set::set_at;
pub use stage::Stage;
