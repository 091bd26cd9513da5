//! One `java.util.concurrent.Phaser` without tiers, packed into 64 bits.
//!
//! A `Word` is the state of a phaser. A call that changes the state returns a new word. `specs/Flat.antt` defines each call for
//! a state of plain values: the phase, the parties, how many of them have arrived, and whether the phaser is turned or
//! terminated. No call allocates memory.
//!
//! | Bits | Field | What it says |
//! |---|---|---|
//! | 0 to 15 | unarrived | how many parties are still to arrive in this phase |
//! | 16 to 31 | parties | how many parties are registered |
//! | 32 to 62 | phase | the number of the phase; 0 comes after 2147483647 |
//! | 63 | ended | 1 if the phaser is terminated |
//!
//! An arrival subtracts 1 from the word. If the party also leaves, the call subtracts 65537, which is 1 from each of the two
//! counts. A registration of n parties adds n to both counts. In four cases the counts have a special meaning:
//!
//! - If unarrived is 0, no party is still to arrive. The phaser is *turned*: its phase is about to end, and until then no party
//!   can arrive or register. `advance` ends the phase. After that, all parties have to arrive again.
//! - If parties is 0 and unarrived is 1, no party is registered, and the phaser is *empty*. This 1 isn't a party. No arrival
//!   may subtract it, because an empty phaser would then be turned. The first registration replaces it.
//! - If both are 0, the last party has left, and the phaser is turned. `advance` ends the phase. `vacate` makes the phaser
//!   empty instead, and keeps the phase.
//! - If ended is 1, unarrived has no meaning, and all parties count as arrived. After termination the phase doesn't change.
//!
//! *Why no field changes its neighbour.* Unarrived is at most parties, or at most 1 if parties is 0 (`IsWord`). So an arrival
//! never borrows from the next field. At most 65535 parties can be registered, so a sum never carries into the next field.
//!
//! In contracts a word is a 64-bit number, and `record_of` in `specs/Word.antt` gives the state that this number represents.
//! Each state of a phaser has a word, and only one word if the phaser isn't terminated. `Policy` says what `onAdvance` returns.
#![tactic(auto)]

mod law;
mod policy;
mod word;

pub use law::{each_record_has_a_word, each_word_has_a_record, words_of_a_live_record_are_equal};
pub use policy::Policy;
pub use word::{Arrived, Registered, Word};
