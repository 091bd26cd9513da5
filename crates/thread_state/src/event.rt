/// What a choice did, as a trace shows it.
#[derive(Clone, Copy, PartialEq, Eq)]
pub struct Event {
    pub what: What,
    pub mark: Mark,
}

/// What happened to the thread.
#[derive(Clone, Copy, PartialEq, Eq)]
pub enum What {
    /// The choice was idle: nothing happened.
    Idle,
    /// A row without a result was done.
    Done,
    /// This number went into a register: the result of the row, or of a wait that is over.
    Value(i32),
    /// This number was put out.
    Out(i32),
    /// It begins to wait.
    Waits,
    /// It met this exception.
    Throws(i32),
    /// It enters an advance routine or a barrier's action.
    Enters,
    /// It is throwing, and left a call, a routine or an action.
    Unwinds,
    /// A handler caught this exception.
    Catches(i32),
    /// This exception found an empty stack: the thread is dead.
    Dies(i32),
    /// It ends.
    Ends,
}

/// What the choice changed besides its own thread, if a trace shows it.
#[derive(Clone, Copy, PartialEq, Eq)]
pub enum Mark {
    Nothing,
    /// The phase of this root phaser ended, or its tree was terminated. `view` is what `getPhase` returns after it.
    Phase { root: u8, view: i32 },
    /// This barrier was tripped.
    Tripped(u8),
    /// A generation of this barrier ended as broken.
    Broke(u8),
}
