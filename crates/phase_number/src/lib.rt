//! The phase numbers of `java.util.concurrent.Phaser`.
//!
//! Phases count from 0 to 2147483647, and then begin again at 0. `getPhase` returns the view of a phase. In phase n the view
//! is n. If the phaser is terminated in phase n, the view is n - 2147483648.
#![tactic(auto)]

mod phase;

pub use phase::Phase;
