ghost use Rattle.std.specs.Prelude.{◌≡◌};
ghost use Rattle.plans.specs.FaultNumber.{plan_number};

/// What is wrong with a word of a plan.
#[derive(Clone, Copy, PartialEq, Eq)]
pub enum PlanFaultKind {
    /// No word of a plan is spelled so.
    BadWord,
    /// What follows the star isn't a number from 1 to 1,000,000.
    BadCount,
    /// What follows the question mark isn't a number below 2 to the 64th.
    BadSeed,
    /// No thread has this name.
    NotNamed,
    /// No thread has this number.
    NoThread,
    /// A parenthesis is opened inside sixteen others.
    TooDeep,
    /// A parenthesis is closed that wasn't opened.
    NotOpened,
    /// A parenthesis is never closed.
    NotClosed,
    /// Out of memory.
    Memory,
}

impl PlanFaultKind {
    /// Returns the number that a report has for this fault, or `None` for `Memory`.
    pub fn number(self) -> Option<u8>
        ensures { result ≡ plan_number self }
    {
        match self {
            PlanFaultKind::BadWord => Some(1),
            PlanFaultKind::BadCount => Some(2),
            PlanFaultKind::BadSeed => Some(3),
            PlanFaultKind::NotNamed => Some(4),
            PlanFaultKind::NoThread => Some(5),
            PlanFaultKind::TooDeep => Some(6),
            PlanFaultKind::NotOpened => Some(7),
            PlanFaultKind::NotClosed => Some(8),
            PlanFaultKind::Memory => None,
        }
    }
}

/// What is wrong with a plan, and in which line, from 1. For `NotClosed` it is the line of the outermost open parenthesis.
#[derive(Clone, Copy, PartialEq, Eq)]
pub struct PlanFault {
    pub line: u64,
    pub kind: PlanFaultKind,
}
