//! One trial of a call, of which one request for memory is refused.

ghost use Rattle.std.specs.Prelude.{◌≡◌};

use crate::marks;
use std::alloc::{AllocError, Global};

/// What a call returned, and what is true afterwards.
#[derive(Clone, Copy)]
pub enum Answer {
    /// What it returns if no memory is refused.
    Right,
    /// That memory was refused. What the call promises for this case is true.
    Memory,
    /// Anything else.
    Wrong,
}

impl Answer {
    /// Returns this answer if the condition holds, and `Wrong` if not.
    pub fn provided(self, holds: bool) -> Answer {
        if holds { self } else { Answer::Wrong }
    }
}

/// The answer of a try. `Err`: something else than the call is out of memory, which counts as `Wrong`.
pub type Tried = Result<Answer, AllocError>;

/// A call that is tried once. What the call needs is made before `begin`. Its result, and what is true then, are checked after
/// `end`. Only the call comes between them, so memory is refused to nothing else.
#[derive(Clone, Copy)]
pub struct Trial {
    pub alloc: Global,
    pub request: u16,
    pub all: bool,
}

impl Trial {
    /// Begins the call: its request of number `request` will be refused, with `all` also the later ones. Returns its allocator.
    pub fn begin(&self) -> Global {
        marks::begin(self.alloc, self.request, self.all);
        self.alloc
    }

    /// Has the library refuse nothing more, and returns `answered`, the call's result. The library's answer is
    /// dropped, since `swept` asks again whether a request was refused.
    pub fn end<T>(&self, answered: T) -> T
        ensures { result ≡ answered }
    {
        marks::end(self.alloc);
        answered
    }
}
