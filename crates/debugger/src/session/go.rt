// Plays several choices at once, up to a breakpoint or a refusal.
ghost use Rattle.std.specs.Prelude.{◌≡◌, ◌≤◌, ◌-◌, ◌∷◌, [], ◌++◌, ℕ, List, replicate, take};
ghost use Rattle.machine_scene.specs.Scene.{scene_of, thread_at};
ghost use Rattle.schedule_reader.specs.Schedule.{choices_of};
ghost use Rattle.thread_machine.specs.declared.choice.Choice.{Choice};
ghost use Rattle.debugger.specs.{Go.is_at_break, Go.Stops, Goes.Goes, Session.Session};

use crate::session::Debugger;
use crate::stop::Stop;
use schedule_reader::Run;
use thread_machine::{Choice, Status, StepFault};

/// How the playing of some choices ended.
pub enum Went {
    /// All were played.
    On,
    /// One of them left its thread at a breakpoint: it was the last that was played.
    Break,
    /// One was refused.
    Fault(StepFault),
}

impl Debugger {
    /// Plays choices up to a step that leaves its thread at a breakpoint, or up to a refused one.
    pub fn go(&mut self, runs: &[Run]) -> Stop
        ensures { Stops self.old (choices_of runs.now) result self.new }
    {
        let before = self.machine().choices();
        let went = self.go_runs(runs);
        self.stop_of(went, before)
    }

    /// Plays the first `most` of the choices, or all if there are fewer, and stops where `go` would stop.
    pub fn go_first(&mut self, runs: &[Run], most: u64) -> Stop
        ensures { Stops self.old (take most (choices_of runs.now)) result self.new }
    {
        let before = self.machine().choices();
        let went = self.go_some(runs, most);
        self.stop_of(went, before)
    }

    /// Returns why `go` stopped (`went`), with how many choices it played. `before` is the count of choices before `go`.
    fn stop_of(&self, went: Went, before: u64) -> Stop
        requires { before ≤ self.now.machine.choices }
        ensures { (session : Session) (choices : List Choice) → before ≡ session.machine.choices
            → Goes session choices went self.now → Stops session choices result self.now }
    {
        let played = self.machine().choices() - before;
        match went {
            Went::On => Stop::End(played),
            Went::Break => Stop::Break(played),
            Went::Fault(fault) => Stop::Fault(played, fault),
        }
    }

    /// Plays `choice` if `stop` says that all choices before it were played, and returns where this stops. Otherwise it returns
    /// `stop`. So a stream of choices stops where `go` would stop.
    pub fn go_on(&mut self, stop: Stop, choice: Choice) -> Stop
        requires few { (played : ℕ) → stop ≡ Stop.End played → played ≤ 1000000000000 }
        ensures { (before : Session) (choices : List Choice) → Stops before choices stop self.old
            → Stops before (choices ++ choice ∷ []) result self.new }
    {
        let Stop::End(played) = stop else {
            return stop;
        };
        match self.pass(choice) {
            Went::On => Stop::End(played + 1),
            Went::Break => Stop::Break(played + 1),
            Went::Fault(fault) => Stop::Fault(played, fault),
        }
    }

    /// Plays the choices of runs in order, up to a break or a refusal.
    fn go_runs(&mut self, runs: &[Run]) -> Went
        ensures { Goes self.old (choices_of runs.now) result self.new }
    {
        for run in runs {
            match self.go_run(*run) {
                Went::On => {}
                Went::Break => return Went::Break,
                Went::Fault(fault) => return Went::Fault(fault),
            }
        }
        Went::On
    }

    /// Plays the first `most` choices of runs in order, up to a break or a refusal.
    fn go_some(&mut self, runs: &[Run], most: u64) -> Went
        ensures { Goes self.old (take most (choices_of runs.now)) result self.new }
    {
        let mut left = most;
        for run in runs {
            let times = left.min(u64::from(run.times));
            let some = Run {
                choice: run.choice,
                times: times as u32,
            };
            match self.go_run(some) {
                Went::On => left -= times,
                Went::Break => return Went::Break,
                Went::Fault(fault) => return Went::Fault(fault),
            }
        }
        Went::On
    }

    /// Plays the choices of one run, up to a break or a refusal.
    fn go_run(&mut self, run: Run) -> Went
        ensures { Goes self.old (replicate run.times run.choice) result self.new }
    {
        let mut left = run.times;
        while left > 0 {
            match self.pass(run.choice) {
                Went::On => {}
                Went::Break => return Went::Break,
                Went::Fault(fault) => return Went::Fault(fault),
            }
            left -= 1;
        }
        Went::On
    }

    /// Plays one choice. It is a break if it was a step, not idle, and its thread then runs and is at a breakpoint.
    #[inline(always)]
    fn pass(&mut self, choice: Choice) -> Went
        ensures { Goes self.old (choice ∷ []) result self.new }
    {
        let before = self.machine().steps();
        match self.step(choice) {
            Ok(_) => {
                if self.stands_at_break(choice.thread) && self.machine().steps() != before {
                    Went::Break
                } else {
                    Went::On
                }
            }
            Err(fault) => Went::Fault(fault),
        }
    }

    /// Returns whether a thread runs and is at a breakpoint: false if there is no such thread.
    #[tactic(auto, using(crate::proofs::Unmarked::none_there))]
    fn stands_at_break(&self, thread: u8) -> bool
        ensures { result ≡ is_at_break self.now.breaks (thread_at (scene_of self.now.machine.scene) thread) }
    {
        if !self.marks.were_ever_set() {
            return false;
        }
        if thread as usize >= self.machine().thread_count() {
            return false;
        }
        matches!(self.machine().status(thread), Status::Runs)
            && self.marks.has(self.machine().pc(thread))
    }
}
