//! What the whole project promises, on two pages, and the functions that keep these promises.
//!
//! `specs/Headline.antt` is about the machine of a program, and names the calls of other crates that promise what is below it.
//! `specs/EndToEnd.antt` says what the commands then show. The module `play` plays what the rows say. The laws in `law` hold
//! whatever is chosen. The module `back` takes back what it has played. `trees` is about phasers whose words lag. `shown` is
//! about what commands show and what texts mean, and has the functions that the program calls.
#![tactic(auto)]

// What a program's choices leave.
pub mod machine;

// What holds whatever is chosen.
pub mod law;

// Choices that are played and taken back.
pub mod back;

// What is below the machine.
pub mod trees;

// What commands show.
pub mod shown;

pub use machine::play;
