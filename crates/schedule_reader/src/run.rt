//! Runs, each of a choice that is made once or more, and lists of them.
ghost use Rattle.std.specs.Prelude.{◌≡◌, ◌≤◌, ◌<◌, ◌+◌, ◌++◌, ◌∷◌, [], All, IfOk, MatchOption, OnOk, replicate};
ghost use Rattle.std.specs.Vec.{vec_len, vec_capacity};
ghost use Rattle.schedule_reader.specs.{Joined.AreJoined, Schedule.IsRun, Schedule.choices_of, Schedule.run_of};

use std::alloc::{AllocError, Global};
use thread_machine::Choice;

/// The most times that a run can repeat its choice. A run with so many is full.
const MOST_TIMES: u32 = 1_000_000_000;

/// One token of a schedule: a choice, and how often it is made.
#[derive(Clone, Copy, PartialEq, Eq)]
pub struct Run {
    pub choice: Choice,
    /// 1 to 1,000,000,000.
    pub times: u32,
}

impl Run {
    /// Returns the run in which this choice is made once.
    pub fn once(choice: Choice) -> Run
        ensures { result ≡ run_of choice 1 }
    {
        Run { choice, times: 1 }
    }

    /// Returns the run with this choice once more. `None`: this is a run of another choice, or it is full.
    pub fn with(self, choice: Choice) -> Option<Run>
        requires { self.times ≤ 1000000000 }
        ensures { MatchOption result (self.choice ≡ choice → self.times ≡ 1000000000)
            (λ more. (self.choice ≡ choice) × (self.times < 1000000000) × (more ≡ run_of choice (self.times + 1))) }
    {
        if self.choice.thread != choice.thread || self.choice.expiry != choice.expiry {
            return None;
        }
        if self.times == MOST_TIMES {
            return None;
        }
        Some(Run {
            choice,
            times: self.times + 1,
        })
    }
}

/// Appends one choice to runs: the last run gets longer, or if it is of another choice or full, a new one follows.
pub fn push_joined(runs: &mut Vec<Run>, choice: Choice)
    requires room { vec_len runs.old < vec_capacity runs.old }
    requires thread { choice.thread ≤ 63 }
    requires runs { All IsRun runs.old.items }
    ensures choices { choices_of runs.new.items ≡ choices_of runs.old.items ++ choice ∷ [] }
    ensures runs { All IsRun runs.new.items }
    ensures joined { AreJoined runs.old.items → AreJoined runs.new.items }
{
    let count = runs.len();
    if count > 0 {
        let last = runs[count - 1];
        if let Some(more) = last.with(choice) {
            runs[count - 1] = more;
            return;
        }
    }
    runs.push_reserved(Run::once(choice));
}

/// Returns runs with the same choices, in which equal neighbours are joined. The time is proportional to the number of choices.
pub fn joined(alloc: Global, runs: &[Run]) -> Result<Vec<Run>, AllocError>
    requires { All IsRun runs.now }
    ensures choices { IfOk result (λ all. choices_of all.items ≡ choices_of runs.now) }
    ensures runs { IfOk result (λ all. All IsRun all.items) }
    ensures joined { IfOk result (λ all. AreJoined all.items) }
{
    let mut all = Vec::new(alloc);
    for run in runs {
        push_run(&mut all, *run)?;
    }
    Ok(all)
}

/// Appends a run's choice, as often as it is made, to runs in which equal neighbours are joined, and keeps them so. It pushes
/// the choices one by one, because the last run may become full on the way, and then a new one begins.
fn push_run(runs: &mut Vec<Run>, run: Run) -> Result<(), AllocError>
    requires run { IsRun run }
    requires runs { All IsRun runs.old.items }
    requires joined { AreJoined runs.old.items }
    ensures choices { OnOk result (choices_of runs.new.items
        ≡ choices_of runs.old.items ++ replicate run.times run.choice) }
    ensures runs { OnOk result (All IsRun runs.new.items) }
    ensures joined { OnOk result (AreJoined runs.new.items) }
{
    for _done in 0..run.times {
        runs.reserve(1)?;
        push_joined(runs, run.choice);
    }
    Ok(())
}
