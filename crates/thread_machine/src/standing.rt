ghost use Rattle.std.specs.Prelude.{◌≡◌, ◌≢◌, All, MatchOption};
ghost use Rattle.thread_machine.specs.Standing.{name_of, names};

/// Whether a program has ended, is stuck, or can go on.
#[derive(Clone, Copy, PartialEq, Eq)]
pub enum Standing {
    /// Every thread has ended or died.
    All,
    /// Some thread hasn't, and no choice does anything any more.
    Stuck,
    /// Some choice can still take a step.
    Live,
}

impl Standing {
    /// Returns the word for it in the state line of a trace.
    pub fn name(self) -> &'static [u8]
        ensures { result.now ≡ name_of self }
    {
        match self {
            Standing::All => b"all",
            Standing::Stuck => b"stuck",
            Standing::Live => b"live",
        }
    }

    /// Returns the standing with this word: `all`, `stuck` or `live`. `None`: it is another word.
    pub fn named(name: &str) -> Option<Standing>
        ensures { MatchOption result (All (λ other. name.now ≢ other) names) (λ word. name.now ≡ name_of word) }
    {
        match name {
            "all" => Some(Standing::All),
            "stuck" => Some(Standing::Stuck),
            "live" => Some(Standing::Live),
            _ => None,
        }
    }
}
