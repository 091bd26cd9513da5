ghost use Rattle.std.specs.Prelude.{◌≡◌, ◌<◌, ◌≤◌, length, count_by, replicate, slice_set, Some, None};
ghost use Rattle.cyclic_barrier.specs.declared.answer.WaitState.TheVariants.{Waiting, Tripped, Broken};
ghost use Rattle.cyclic_barrier.specs.Waits.{wait_at, is_waiting, release};

use crate::answer::WaitState;
use crate::thread_set::ThreadSet;
use std::marker::Model;

/// For each of 64 threads the state of its wait, if it has one. It is stored as three sets of threads: those that wait, those
/// that a trip released, and those that a breakage or a reset released.
#[derive(Clone, Copy)]
pub struct Waits {
    waiting: ThreadSet,
    tripped: ThreadSet,
    broken: ThreadSet,
}

impl Model for Waits {
    ghost use Rattle.std.specs.Prelude.{List, Option};
    ghost use Rattle.cyclic_barrier.specs.declared.answer.WaitState.{WaitState};
    ghost use Rattle.cyclic_barrier.specs.ShownWaits.{shown, threads_at, AreDisjoint, waiting_again, tripped_again, broken_again};
    ghost use Rattle.cyclic_barrier.specs.declared.answer.WaitState.TheVariants as state;

    ghost Value = { List (Option WaitState) };

    ghost view = { λ w. shown w.waiting.bits w.tripped.bits w.broken.bits };

    ghost invariant = { λ w. AreDisjoint w.waiting.bits w.tripped.bits w.broken.bits };

    ghost inverse = { λ waits. record {
      waiting = record { bits = threads_at state.Waiting waits };
      tripped = record { bits = threads_at state.Tripped waits };
      broken = record { bits = threads_at state.Broken waits };
    } };

    ghost inverse_ok = { λ w d i. record {
      waiting = record { bits = waiting_again w.waiting.bits w.tripped.bits w.broken.bits d i };
      tripped = record { bits = tripped_again w.waiting.bits w.tripped.bits w.broken.bits d i };
      broken = record { bits = broken_again w.waiting.bits w.tripped.bits w.broken.bits d i };
    } };
}

#[tactic(auto, using(crate::proofs::WaitsLemmas::shown_waits))]
impl Waits {
    /// Returns the waits of a new barrier: no thread has one.
    pub fn none() -> Waits
        ensures waits { result ≡ replicate 64 None }
        ensures none { count_by is_waiting result ≡ 0 }
    {
        Waits {
            waiting: ThreadSet::EMPTY,
            tripped: ThreadSet::EMPTY,
            broken: ThreadSet::EMPTY,
        }
    }

    /// Returns the state of the thread's wait, or `None` if it has none.
    pub fn get(&self, thread: u8) -> Option<WaitState>
        requires { thread < 64 }
        ensures { result ≡ wait_at self.now thread }
    {
        if self.waiting.contains(thread) {
            Some(WaitState::Waiting)
        } else if self.tripped.contains(thread) {
            Some(WaitState::Tripped)
        } else if self.broken.contains(thread) {
            Some(WaitState::Broken)
        } else {
            None
        }
    }

    /// Returns how many threads wait, without those that are released.
    pub fn count(&self) -> u32
        ensures { result ≡ count_by is_waiting self.now }
    {
        self.waiting.count()
    }

    /// Begins a wait of the thread, which has none.
    pub fn begin(&mut self, thread: u8)
        requires thread { thread < 64 }
        requires none { wait_at self.old thread ≡ None }
        ensures { self.new ≡ slice_set self.old thread (Some Waiting) }
    {
        self.waiting = self.waiting.with(thread);
    }

    /// Removes the thread's wait, whatever its state is.
    pub fn end(&mut self, thread: u8)
        requires { thread < 64 }
        ensures waits { self.new ≡ slice_set self.old thread None }
        ensures fewer { count_by is_waiting self.new ≤ count_by is_waiting self.old }
        ensures threads { length self.new ≡ 64 }
    {
        self.waiting = self.waiting.without(thread);
        self.tripped = self.tripped.without(thread);
        self.broken = self.broken.without(thread);
    }

    /// Releases all who wait, as a trip does: their state becomes `Tripped`.
    pub fn trip(&mut self)
        ensures waits { self.new ≡ release Tripped self.old }
        ensures none { count_by is_waiting self.new ≡ 0 }
        ensures threads { length self.new ≡ 64 }
    {
        self.tripped = self.tripped.union(self.waiting);
        self.waiting = ThreadSet::EMPTY;
    }

    /// Releases all who wait, as a breakage or a reset does: their state becomes `Broken`.
    pub fn break_all(&mut self)
        ensures waits { self.new ≡ release Broken self.old }
        ensures none { count_by is_waiting self.new ≡ 0 }
        ensures threads { length self.new ≡ 64 }
    {
        self.broken = self.broken.union(self.waiting);
        self.waiting = ThreadSet::EMPTY;
    }
}
