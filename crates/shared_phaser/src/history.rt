//! The parts of a history, and what a caller knows of it.

use packed_phaser::{Policy, Word};
use phase_number::Phase;
use std::collections::LinkedList;

/// A call, with its operands.
#[derive(Clone, Copy, PartialEq, Eq)]
pub enum Call {
    /// A look at the phaser, for all getters.
    Look,
    /// `register`, or `bulkRegister` with this number.
    Register(u32),
    /// `arrive`, or `arriveAndDeregister` if the party leaves.
    Arrive(bool),
    /// `forceTermination`.
    Force,
    /// `awaitAdvance` of this phase.
    Await(i32),
}

/// The result of a call that changes the phaser or is refused.
#[derive(Clone, Copy, PartialEq, Eq)]
pub enum Reply {
    /// The call was counted in the phase of this number.
    Counted(i32),
    /// The phaser is terminated, and this is its view.
    Dead(i32),
    /// There would be more than 65535 parties: Java's `IllegalStateException`.
    TooMany,
    /// No party is left that could arrive: Java's `IllegalStateException`.
    NotThere,
}

/// The result of a call.
#[derive(Clone, Copy, PartialEq, Eq)]
pub enum Answer {
    /// Of a look: the word that it found.
    Saw(Word),
    /// Of a registration, an arrival or a termination.
    Replied(Reply),
    /// Of a wait: the view afterwards.
    Passed(i32),
}

/// One call of one caller, with its result.
pub struct Entry {
    /// The number of the caller.
    pub by: u64,
    pub call: Call,
    pub answer: Answer,
}

/// A caller that was joined into the first one, with its calls.
pub struct Kept {
    pub number: u64,
    pub calls: LinkedList<Entry>,
}

/// How a shared phaser begins.
#[derive(Clone, Copy)]
pub struct Setup {
    pub parties: u16,
    pub phase: Phase,
    pub policy: Policy,
}

/// What a caller knows. The program never makes such a value: only contracts use it.
pub struct Known {
    /// 0 for the caller that came with the phaser, and n for the n-th that was split from it.
    pub number: u64,
    pub opening: Setup,
    /// How many callers were split from this one.
    pub splits: u64,
    /// The part of the history that was seen.
    pub seen: LinkedList<Entry>,
    /// The calls that this caller made.
    pub calls: LinkedList<Entry>,
    /// The callers that were joined into this one.
    pub joined: LinkedList<Kept>,
}

/// What the rule (`Law`) knows of a caller. `told`: what a join has told it and it hasn't seen yet. `live`: it can still call.
pub struct View {
    pub known: Known,
    pub told: LinkedList<Entry>,
    pub live: bool,
}
