//! The ends of waits. They throw 3 (InterruptedException), 4 (BrokenBarrierException) and 5 (TimeoutException).
ghost use Rattle.std.specs.Prelude.{◌≡◌, ◌≢◌, ◌<◌, ◌≤◌, ℕ, length, pos, true, false, Some, None, is_some};
ghost use Rattle.cyclic_barrier.specs.{Waits.wait_at, Barrier.expire};
ghost use Rattle.thread_state.specs.Thread.{turn_of_throw};
ghost use Rattle.loader.specs.Program.{IsNamed};
ghost use Rattle.machine_scene.specs.Scene.{scene_of, counts_in, thread_at, barrier_at, with_barrier, outcome_marked};
ghost use Rattle.machine_scene.specs.{PhaserRows.is_past, Sound.CanPlay, Sound.is_wait_row};
ghost use Rattle.machine_scene.specs.Waits.{outcome_of_awaited, outcome_of_phase_wait, outcome_of_release, outcome_of_barrier_wait, outcome_of_phase_timeout, outcome_of_barrier_timeout};

use super::{Stage, alone};
use cyclic_barrier::WaitState;
use instruction_table::{Reg, Row};
use thread_state::{Event, Mark};

impl Stage {
    /// Returns whether the phaser isn't in this phase any more: another one is under way, or it is terminated.
    #[inline(always)]
    pub(super) fn is_past(&self, phaser: u16, phase: i32) -> bool
        requires phaser { phaser < length self.now.phasers }
        ensures { result ≡ is_past phaser phase (scene_of self.now) }
    {
        self.phasers.phase(self.phaser_id(phaser)) != phase
    }

    /// Ends a thread's wait for a phase, at this row. In the arms, `true` stands for an interruptible wait.
    #[inline(always)]
    pub(super) fn finish_phase_wait(&mut self, row: Row, phase: i32, t: usize) -> Event
        requires ready { is_some (outcome_of_phase_wait row phase t (scene_of self.old)) ≡ true }
        requires named { IsNamed (counts_in self.old) row }
        requires plays { CanPlay t self.old }
        ensures outcome { outcome_of_phase_wait row phase t (scene_of self.old)
            ≡ Some (record { scene = scene_of self.new; event = result }) }
        ensures phasers { self.new.phasers ≡ self.old.phasers }
        ensures ready { (self.new).ready ≡ self.old.ready }
    {
        match row {
            Row::Paaa { into, phaser } => self.finish_awaited(false, into, phaser, phase, t),
            Row::Pawait { into, phaser, .. } => self.finish_awaited(false, into, phaser, phase, t),
            Row::Pawaiti { into, phaser, .. } => self.finish_awaited(true, into, phaser, phase, t),
            Row::Pawaitt { into, phaser, .. } => self.finish_awaited(true, into, phaser, phase, t),
            _ => unreachable!(),
        }
    }

    /// Ends a wait for a phase. It returns the phaser's view if this isn't `phase`. Otherwise the thread was interrupted, and
    /// throws 3. `looks`, which only the contract uses, says whether the wait is interruptible.
    #[inline(always)]
    fn finish_awaited(&mut self, looks: bool, into: Reg, phaser: u16, phase: i32, t: usize) -> Event
        requires ready { is_some (outcome_of_awaited looks into phaser phase t (scene_of self.old)) ≡ true }
        requires phaser { phaser < length self.old.phasers }
        requires plays { CanPlay t self.old }
        ensures outcome { outcome_of_awaited looks into phaser phase t (scene_of self.old)
            ≡ Some (record { scene = scene_of self.new; event = result }) }
        ensures phasers { self.new.phasers ≡ self.old.phasers }
        ensures ready { (self.new).ready ≡ self.old.ready }
    {
        let view = self.phasers.phase(self.phaser_id(phaser));
        if view != phase {
            return alone(self.threads[t].answer(into, view));
        }
        alone(self.threads[t].take_interruption())
    }

    /// Returns whether the thread's wait at the barrier, which it must have, goes on, or has ended with a trip or a breakage.
    pub(super) fn wait_state(&self, barrier: u16, t: usize) -> WaitState
        requires there { barrier < length self.now.barriers }
        requires waits { wait_at (barrier_at (scene_of self.now) barrier).waits t ≢ None }
        requires thread { t < length self.now.threads }
        ensures { Some result ≡ wait_at (barrier_at (scene_of self.now) barrier).waits t }
    {
        self.barriers[barrier as usize].look(t as u8)
    }

    /// Ends a thread's wait at this row's barrier.
    #[inline(always)]
    pub(super) fn finish_barrier_wait(&mut self, row: Row, index: i32, t: usize) -> Event
        requires ready { is_some (outcome_of_barrier_wait row index t (scene_of self.old)) ≡ true }
        requires named { IsNamed (counts_in self.old) row }
        requires plays { CanPlay t self.old }
        ensures outcome { outcome_of_barrier_wait row index t (scene_of self.old)
            ≡ Some (record { scene = scene_of self.new; event = result }) }
        ensures phasers { self.new.phasers ≡ self.old.phasers }
    {
        match row {
            Row::Cawait { into, barrier } => self.finish_release(into, index, barrier, t),
            Row::Cawaitt { into, barrier, .. } => self.finish_release(into, index, barrier, t),
            _ => unreachable!(),
        }
    }

    /// Ends a wait at a barrier. After a trip it returns the arrival index. After a breakage it throws 4. Otherwise the thread
    /// was interrupted: the barrier breaks, and the thread throws 3.
    #[inline(always)]
    fn finish_release(&mut self, into: Reg, index: i32, barrier: u16, t: usize) -> Event
        requires ready { is_some (outcome_of_release (wait_at (barrier_at (scene_of self.old) barrier).waits t)
            into index barrier t (scene_of self.old)) ≡ true }
        requires there { barrier < length self.old.barriers }
        requires plays { CanPlay t self.old }
        ensures outcome { outcome_of_release (wait_at (barrier_at (scene_of self.old) barrier).waits t) into index
            barrier t (scene_of self.old) ≡ Some (record { scene = scene_of self.new; event = result }) }
        ensures phasers { self.new.phasers ≡ self.old.phasers }
    {
        match self.wait_state(barrier, t) {
            WaitState::Tripped => {
                self.barriers[barrier as usize].leave(t as u8);
                alone(self.threads[t].answer(into, index))
            }
            WaitState::Broken => {
                self.barriers[barrier as usize].leave(t as u8);
                alone(self.threads[t].throw(4))
            }
            WaitState::Waiting => {
                self.barriers[barrier as usize].interrupt(t as u8);
                Event {
                    what: self.threads[t].take_interruption(),
                    mark: Mark::Broke(barrier as u8),
                }
            }
        }
    }

    /// Ends a timed wait for a phase: the thread throws 5.
    pub(super) fn expire_phase_wait(&mut self, row: Row, t: usize) -> Event
        requires ready { is_some (outcome_of_phase_timeout row t (scene_of self.old)) ≡ true }
        requires thread { t < length self.old.threads }
        ensures outcome { outcome_of_phase_timeout row t (scene_of self.old)
            ≡ Some (record { scene = scene_of self.new; event = result }) }
        ensures phasers { self.new.phasers ≡ self.old.phasers }
    {
        match row {
            Row::Pawaitt { .. } => alone(self.threads[t].throw(5)),
            _ => unreachable!(),
        }
    }

    /// Ends a timed wait at this row's barrier: the barrier breaks, and the thread throws 5.
    #[tactic(auto, using(crate::proofs::Readiness::unreleased))]
    pub(super) fn expire_barrier_wait(&mut self, row: Row, index: i32, t: usize) -> Event
        requires ready { is_some (outcome_of_barrier_timeout row t (scene_of self.old)) ≡ true }
        requires not_ready { is_some (outcome_of_barrier_wait row index t (scene_of self.old)) ≡ false }
        requires waits { (b : ℕ) → is_wait_row b row ≡ true
            → wait_at (barrier_at (scene_of self.old) b).waits t ≢ None }
        requires named { IsNamed (counts_in self.old) row }
        requires thread { t < length self.old.threads }
        ensures outcome { outcome_of_barrier_timeout row t (scene_of self.old)
            ≡ Some (record { scene = scene_of self.new; event = result }) }
        ensures phasers { self.new.phasers ≡ self.old.phasers }
    {
        match row {
            Row::Cawaitt { barrier, .. } => self.expire_at_barrier(barrier, t),
            _ => unreachable!(),
        }
    }

    /// Ends the timed wait of a thread that the barrier hasn't released: the barrier breaks, and the thread throws 5.
    fn expire_at_barrier(&mut self, barrier: u16, t: usize) -> Event
        requires unreleased { wait_at (barrier_at (scene_of self.old) barrier).waits t ≡ Some WaitState.Waiting }
        requires no_runner { (barrier_at (scene_of self.old) barrier).runner ≡ None }
        requires there { barrier < length self.old.barriers }
        requires thread { t < length self.old.threads }
        ensures outcome { record { scene = scene_of self.new; event = result }
            ≡ outcome_marked (Mark.Broke barrier) (turn_of_throw (pos 5) (thread_at (scene_of self.old) t)) t
            (with_barrier (expire t (barrier_at (scene_of self.old) barrier)) barrier (scene_of self.old)) }
        ensures phasers { self.new.phasers ≡ self.old.phasers }
    {
        self.barriers[barrier as usize].expire(t as u8);
        Event {
            what: self.threads[t].throw(5),
            mark: Mark::Broke(barrier as u8),
        }
    }
}
