ghost use Rattle.std.specs.Prelude.{◌≡◌};
ghost use Rattle.thread_runner.specs.Endings.{standing_at};

use thread_machine::Standing;

/// How a run ended.
#[derive(Clone, Copy, PartialEq, Eq)]
pub enum Ending {
    /// Every thread has ended or died.
    AllEnded,
    /// Some thread hasn't, and no choice does anything any more.
    Stuck,
    /// Some choice can still take a step, but the limit of steps is reached.
    Limit,
}

impl Ending {
    /// Returns the state of a program whose run ended so: it has ended, it is stuck, or, at the limit of steps, it can go on.
    pub fn standing(self) -> Standing
        ensures { result ≡ standing_at self }
    {
        match self {
            Ending::AllEnded => Standing::All,
            Ending::Stuck => Standing::Stuck,
            Ending::Limit => Standing::Live,
        }
    }
}
