//! What the workers of a run share under its lock, and what each of them does with it.
ghost use Rattle.std.specs.Prelude.{◌≡◌, ◌⊎◌, ◌<◌, length, true, false, is_some, Some, None};
ghost use Rattle.thread_machine.specs.World.{World};
ghost use Rattle.thread_runner.specs.{Recording.recorded_world, Recording.with_choice, Recording.no_world, Turns.choice_in};
ghost use Rattle.thread_runner.specs.Waiting.{leaves, some_wakes, waits, wakes};
ghost use Rattle.machine_scene.specs.ReadySet.{IsSetAt};

use crate::fault::TakeFault;
use crate::journaled::Journaled;
use crate::sleepers::Sleepers;
use std::marker::{Brand, PhantomData};
use std::sync::Condvar;

/// Why a run was broken off.
#[derive(Clone, Copy, PartialEq, Eq)]
pub enum Break {
    /// A worker's step was out of memory.
    Memory,
    /// A worker's thread couldn't be started.
    Spawn,
}

/// The machine's state before the first choice of a live run. Each run names its own, and the program never makes such a
/// value: with it the type of what the lock protects says which program and limit it belongs to.
pub trait Origin {
    ghost first: { World };
}

impl Origin for Brand {
    ghost first = { no_world };
}

/// The state of a live run: its record, why it was broken off, if it was, and the workers that sleep.
#[derive(Drop)]
pub struct LiveState {
    pub journaled: Journaled,
    pub broken: Option<Break>,
    pub sleepers: Sleepers,
}

impl LiveState {
    /// Returns whether the worker of a thread stops: the run is over or broken off, or the thread has ended or died.
    fn leaves(&self, thread: u8) -> bool
        requires { thread < length self.now.journaled.first.scene.threads }
        ensures { result ≡ leaves self.now.broken (recorded_world self.now.journaled) thread }
    {
        self.broken.is_some()
            || self.journaled.has_finished(thread)
            || self.journaled.ending().is_some()
    }

    /// Returns whether the worker of a thread waits: it doesn't stop, and its thread has no choice to make.
    fn waits(&self, thread: u8) -> bool
        requires { thread < length self.now.journaled.first.scene.threads }
        ensures { result ≡ waits self.now.broken (recorded_world self.now.journaled) thread }
    {
        !self.journaled.may_choose(thread) && !self.leaves(thread)
    }

    /// Returns whether the worker of a thread waits, and notes this in `sleepers`. `has_few_threads` only helps the proof.
    fn falls_asleep(&mut self, thread: u8) -> bool
        requires { thread < length self.old.journaled.first.scene.threads }
        ensures waits { result ≡ waits self.old.broken (recorded_world self.old.journaled) thread }
        ensures sleepers { IsSetAt thread result self.old.sleepers self.new.sleepers }
        ensures journaled { self.new.journaled ≡ self.old.journaled }
        ensures broken { self.new.broken ≡ self.old.broken }
    {
        self.journaled.has_few_threads();
        let waits = self.waits(thread);
        self.sleepers.note(thread, waits);
        waits
    }

    /// Returns whether the worker of a thread sleeps, and needn't wait any longer. `has_few_threads` only helps the proof.
    fn wakes(&self, thread: u8) -> bool
        requires { thread < length self.now.journaled.first.scene.threads }
        ensures { result ≡ wakes self.now.broken (recorded_world self.now.journaled) self.now.sleepers thread }
    {
        self.journaled.has_few_threads();
        self.sleepers.has(thread) && !self.waits(thread)
    }

    /// Returns whether one of the workers that sleep needn't wait any longer.
    fn some_wakes(&self) -> bool
        ensures { result ≡ some_wakes self.now.broken (recorded_world self.now.journaled) self.now.sleepers }
    {
        for thread in 0..self.journaled.thread_count() {
            if self.wakes(thread as u8) {
                return true;
            }
        }
        false
    }

    /// Wakes all workers that sleep if one of them needn't wait any longer.
    #[tactic(auto, using(crate::proofs::Sleeping::none_sleeps))]
    fn wake(&mut self, changed: &Condvar)
        ensures woken { some_wakes self.new.broken (recorded_world self.new.journaled) self.new.sleepers ≡ false }
        ensures sleepers { (self.new.sleepers ≡ self.old.sleepers) ⊎ (self.new.sleepers ≡ 0) }
        ensures journaled { self.new.journaled ≡ self.old.journaled }
        ensures broken { self.new.broken ≡ self.old.broken }
    {
        if self.some_wakes() {
            self.sleepers.wake_all(changed);
        }
    }

    /// Lets a worker that needn't wait make its thread's choice, and returns true. It returns false if the worker has to stop:
    /// the run or its thread is over (`leaves`), or memory runs out, which breaks the run off.
    fn turn(&mut self, thread: u8) -> bool
        requires there { thread < length self.old.journaled.first.scene.threads }
        requires waits { waits self.old.broken (recorded_world self.old.journaled) thread ≡ false }
        ensures goes_on { result ≡ true
            → (leaves self.old.broken (recorded_world self.old.journaled) thread ≡ false)
            × (self.new.broken ≡ self.old.broken)
            × (self.new.journaled
            ≡ with_choice (choice_in (recorded_world self.old.journaled) thread) self.old.journaled) }
        ensures stops { result ≡ false → (self.new.journaled ≡ self.old.journaled)
            × (((leaves self.old.broken (recorded_world self.old.journaled) thread ≡ true)
            × (self.new.broken ≡ self.old.broken)) ⊎ (self.new.broken ≡ Some Break.Memory)) }
        ensures sleepers { self.new.sleepers ≡ self.old.sleepers }
    {
        if self.leaves(thread) {
            return false;
        }
        let choice = self.journaled.choice_of(thread);
        match self.journaled.take(choice) {
            Ok(_) => true,
            Err(TakeFault::Memory) => {
                self.broken = Some(Break::Memory);
                false
            }
            Err(_) => unreachable!(),
        }
    }
}

/// What the lock protects: the state of a run from this origin. Each time the lock is free, every worker that sleeps has to
/// wait: so whoever changes the state wakes those that needn't any longer.
#[derive(Drop)]
pub struct Live<O: Origin> {
    pub state: LiveState,
    pub of: PhantomData<O>,
    pub ghost begins: { state.journaled.first ≡ O.first },
    pub ghost woken: { some_wakes state.broken (recorded_world state.journaled) state.sleepers ≡ false },
}

impl<O: Origin> Live<O> {
    /// Makes the state of a run before its workers start: nothing has broken it off, and no worker sleeps.
    #[tactic(auto, using(crate::proofs::Sleeping::none_sleeps))]
    pub fn new(journaled: Journaled) -> Live<O>
        requires { journaled.first ≡ O.first }
        ensures journaled { result.state.journaled ≡ journaled }
        ensures broken { result.state.broken ≡ None }
        ensures sleepers { result.state.sleepers ≡ 0 }
    {
        Live {
            state: LiveState {
                journaled,
                broken: None,
                sleepers: Sleepers::none(),
            },
            of: PhantomData,
        }
    }

    /// A law: every worker that sleeps has to wait. The read of a field tells the proof what `woken` says.
    fn none_wakes(&self)
        ensures { some_wakes self.now.state.broken (recorded_world self.now.state.journaled) self.now.state.sleepers ≡ false }
    {
        let _ = &self.state;
    }

    /// Returns whether the worker of a thread waits, and notes this. The call of `none_wakes` only helps the proof.
    pub fn falls_asleep(&mut self, thread: u8) -> bool
        requires { thread < length O.first.scene.threads }
        ensures waits { result ≡ waits self.old.state.broken (recorded_world self.old.state.journaled) thread }
        ensures sleepers { IsSetAt thread result self.old.state.sleepers self.new.state.sleepers }
        ensures journaled { self.new.state.journaled ≡ self.old.state.journaled }
        ensures broken { self.new.state.broken ≡ self.old.state.broken }
    {
        self.none_wakes();
        self.state.falls_asleep(thread)
    }

    /// Lets a worker that needn't wait make its thread's choice, or stop, and wakes the others if one of them needn't wait any
    /// longer. Returns false if the worker has to stop: the run or its thread is over, or memory runs out, which breaks the run
    /// off.
    pub fn turn(&mut self, thread: u8, changed: &Condvar) -> bool
        requires there { thread < length O.first.scene.threads }
        requires waits { waits self.old.state.broken (recorded_world self.old.state.journaled) thread ≡ false }
        ensures goes_on { result ≡ true
            → (leaves self.old.state.broken (recorded_world self.old.state.journaled) thread ≡ false)
            × (self.new.state.broken ≡ self.old.state.broken)
            × (self.new.state.journaled
            ≡ with_choice (choice_in (recorded_world self.old.state.journaled) thread) self.old.state.journaled) }
        ensures stops { result ≡ false → (self.new.state.journaled ≡ self.old.state.journaled)
            × (((leaves self.old.state.broken (recorded_world self.old.state.journaled) thread ≡ true)
            × (self.new.state.broken ≡ self.old.state.broken)) ⊎ (self.new.state.broken ≡ Some Break.Memory)) }
        ensures sleepers { (self.new.state.sleepers ≡ self.old.state.sleepers) ⊎ (self.new.state.sleepers ≡ 0) }
    {
        let goes_on = self.state.turn(thread);
        self.state.wake(changed);
        goes_on
    }

    /// Breaks the run off because a thread can't be started, unless it was broken off before, and wakes the workers: all stop.
    pub fn refuse(&mut self, changed: &Condvar)
        ensures journaled { self.new.state.journaled ≡ self.old.state.journaled }
        ensures broken { is_some self.new.state.broken ≡ true }
        ensures before { is_some self.old.state.broken ≡ true → self.new.state.broken ≡ self.old.state.broken }
        ensures none { self.old.state.broken ≡ None → self.new.state.broken ≡ Some Break.Spawn }
        ensures sleepers { (self.new.state.sleepers ≡ self.old.state.sleepers) ⊎ (self.new.state.sleepers ≡ 0) }
    {
        if self.state.broken.is_none() {
            self.state.broken = Some(Break::Spawn);
        }
        self.state.wake(changed);
    }
}
