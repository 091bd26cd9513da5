//! The commands that assemble, list, play, compare and debug programs. Each is a function over ports, which are sources and
//! sinks of bytes. It returns the exit status of the program.
//!
//! `asm_cmd` writes the image of a text, and `list_cmd` writes the canonical text of a program. `run_cmd`, `both_cmd` and
//! `live_cmd` play a program and write its trace. `compare_cmd` compares a trace with its run. `debug_cmd` replies to the
//! commands of a session. `race_cmd` lets real threads meet at a phaser.
#![tactic(auto)]

pub mod asm;
pub mod both;
pub mod companion;
pub mod compare;
pub mod debug;
pub mod done;
pub mod ending;
pub mod fault;
pub mod input;
pub mod list;
pub mod live;
pub mod program;
pub mod racing;
pub mod run;
pub mod run_line;
pub mod slice_source;

pub use asm::asm_cmd;
pub use both::both_cmd;
pub use compare::compare_cmd;
pub use debug::debug_cmd;
pub use list::list_cmd;
pub use live::live_cmd;
pub use program::{Program, a_file_is_one_program};
pub use racing::race_cmd;
pub use run::run_cmd;
