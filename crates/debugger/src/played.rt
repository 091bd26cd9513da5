// The choices that a session has played and not taken back.
ghost use Rattle.std.specs.Prelude.{◌≡◌, ◌↔◌, ◌≤◌, ◌<◌, ◌-◌, ◌++◌, ◌∷◌, [], true, All, IfOk, OnOk, length, min, replicate, take};
ghost use Rattle.std.specs.Vec.{vec_len, vec_capacity};
ghost use Rattle.schedule_reader.specs.{Joined.AreJoined, Schedule.IsRun, Schedule.choices_of, Schedule.run_of};

use schedule_reader::Run;
use std::alloc::{AllocError, Global};
use std::marker::Model;
use thread_machine::Choice;

/// How often a run names its choice at most.
const MOST_TIMES: u32 = 1_000_000_000;

/// The choices that a session has played and not taken back, with repeated choices as one run.
#[derive(Drop)]
pub struct Played {
    runs: Vec<Run>,
}

impl Model for Played {
    ghost use Rattle.std.specs.Prelude.{◌<◌, ◌≤◌, All, List};
    ghost use Rattle.schedule_reader.specs.{Joined.AreJoined, declared.run.Run.Run};

    ghost Value = { List Run };

    ghost view = { λ played. played.runs.items };

    ghost invariant = { λ played. All (λ run. (0 < run.times) × (run.times ≤ 1000000000)) played.runs.items
        × AreJoined played.runs.items };
}

/// Returns whether two choices are the same.
fn is_same(one: Choice, other: Choice) -> bool
    ensures { (result ≡ true) ↔ (one ≡ other) }
{
    one.thread == other.thread && one.expiry == other.expiry
}

/// Appends a new run of `choice`: `times` times, but at most 1,000,000,000. Returns how many. The caller has reserved room.
fn push_new_run(runs: &mut Vec<Run>, choice: Choice, times: u32) -> u32
    requires { vec_len runs.old < vec_capacity runs.old }
    ensures runs { runs.new.items ≡ runs.old.items ++ run_of choice result ∷ [] }
    ensures some { result ≡ min times 1000000000 }
{
    let some = times.min(MOST_TIMES);
    runs.push_reserved(Run {
        choice,
        times: some,
    });
    some
}

impl Played {
    /// Returns the choices of a session that has played none.
    pub fn new(alloc: Global) -> Played
        ensures { result ≡ [] }
    {
        Played {
            runs: Vec::new(alloc),
        }
    }

    /// Returns the choices as runs, in order. A choice that is repeated is one run, with up to 1,000,000,000 times.
    pub fn runs(&self) -> &[Run]
        ensures runs { result.now ≡ self.now }
        ensures joined { AreJoined result.now }
    {
        self.runs.as_slice()
    }

    /// Appends a choice as often as its run has room for, but at most `times` times. Returns how often. `Err`: no memory.
    fn push_some(&mut self, choice: Choice, times: u32) -> Result<u32, AllocError>
        requires { 0 < times }
        ensures choices { IfOk result (λ some. choices_of self.new ≡ choices_of self.old ++ replicate some choice) }
        ensures some { IfOk result (λ some. (0 < some) × (some ≤ times)) }
        ensures runs { choice.thread ≤ 63 → All IsRun self.old → All IsRun self.new }
    {
        self.runs.reserve(1)?;
        let Some(last) = self.runs.pop() else {
            return Ok(push_new_run(&mut self.runs, choice, times));
        };
        if is_same(last.choice, choice) && last.times < MOST_TIMES {
            let some = times.min(MOST_TIMES - last.times);
            self.runs.push_reserved(Run {
                choice,
                times: last.times + some,
            });
            return Ok(some);
        }
        self.runs.push_reserved(last);
        Ok(push_new_run(&mut self.runs, choice, times))
    }

    /// Appends the choices of a run, which may be none. If they repeat the last choice, they are joined to its run.
    fn push(&mut self, run: Run) -> Result<(), AllocError>
        ensures choices { OnOk result (choices_of self.new ≡ choices_of self.old ++ replicate run.times run.choice) }
        ensures runs { run.choice.thread ≤ 63 → All IsRun self.old → All IsRun self.new }
    {
        let mut left = run.times;
        while left > 0 {
            left -= self.push_some(run.choice, left)?;
        }
        Ok(())
    }

    /// Appends the first `count` choices of these runs, or all if there are fewer. Fails if it is out of memory.
    pub fn push_first(&mut self, runs: &[Run], count: u64) -> Result<(), AllocError>
        ensures choices { OnOk result (choices_of self.new ≡ choices_of self.old ++ take count (choices_of runs.now)) }
        ensures runs { All IsRun runs.now → All IsRun self.old → All IsRun self.new }
    {
        let mut left = count;
        for run in runs {
            let times = left.min(u64::from(run.times));
            self.push(Run {
                choice: run.choice,
                times: times as u32,
            })?;
            left -= times;
        }
        Ok(())
    }

    /// Drops the last choice, if there is one.
    pub fn pop(&mut self)
        ensures choices { choices_of self.new ≡ take (length (choices_of self.old) - 1) (choices_of self.old) }
        ensures runs { All IsRun self.old → All IsRun self.new }
    {
        let Some(last) = self.runs.pop() else {
            return;
        };
        if last.times > 1 {
            self.runs.push_reserved(Run {
                choice: last.choice,
                times: last.times - 1,
            });
        }
    }
}
