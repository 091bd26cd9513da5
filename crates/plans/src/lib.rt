//! Plans: texts in which a person says which thread takes the next step.
//!
//! `read_plan` returns the words of a plan (`specs/Plan.antt`, `specs/Tree.antt`), or the first fault with its line.
//! `plan_runs` plays these words on a program. `specs/Play.antt` says what a plan plays. `specs/Rules.antt` says which choice
//! is next if the plan doesn't name it. A plan makes at most 1,000,000 choices.
#![tactic(auto)]

// A plan's text.
pub mod cutting;
mod draft;
pub mod fault;
mod number;
mod part;
mod reading;
pub mod word;
pub mod words;

// What another choice than a run's own leads to.
pub mod others;

// A plan that is played: the schedule that it makes.
pub mod plan_runs;
pub mod planned;
mod player;
mod playing;
mod rules;
mod steps;

pub use draft::read_plan;
