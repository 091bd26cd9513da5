/// Which choice is next, if a plan leaves it open. None of these choices is idle.
#[derive(Clone, Copy, PartialEq, Eq)]
pub enum Rule {
    /// This thread, as long as it can take a turn: `ann.`
    Alone(u8),
    /// The threads turn about: `..`
    TurnAbout,
    /// Any thread that can go on, by the words of this seed: `?7`
    BySeed(u64),
}

/// A thread's turn, or the expiry of its timed wait.
#[derive(Clone, Copy, PartialEq, Eq)]
pub struct Chosen {
    pub thread: u8,
    pub expiry: bool,
}

/// What a plan asks for.
#[derive(Clone, Copy, PartialEq, Eq)]
pub enum Step {
    /// This choice, so many times: `ann`, `x3`, `ann*3`
    Make { chosen: Chosen, times: u32 },
    /// Choices by a rule, at most `most` of them. `None`: as many as the rule has.
    Follow { rule: Rule, most: Option<u32> },
}

/// A word of a plan.
#[derive(Clone, Copy, PartialEq, Eq)]
pub enum Word {
    Step(Step),
    /// `(`
    Open,
    /// `)`, and how often its group is played: `)*20`
    Close(u32),
}
