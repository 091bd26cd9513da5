//! A debugger for the machine: single steps, steps back and breakpoints.
//!
//! At each moment the debugger's machine is the result of the choices that were played and not taken back, word for word.
//! `command` carries out one line of input, and writes exactly the reply that `specs/Reply.antt` defines.
#![tactic(auto)]

mod command;
mod law;
mod marks;
mod number_line;
mod played;
mod session;
mod stop;
mod undos;

pub use command::{Command, command_of};
pub use law::{
    choices_in_a_row_extend_the_history, each_command_leaves_a_history,
    steps_and_as_many_back_are_nothing, what_is_not_taken_back_was_played,
};
pub use played::Played;
pub use session::{CommandFault, Debugger, say_stop};
pub use stop::{NoHistory, Stop};
