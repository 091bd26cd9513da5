ghost use Rattle.std.specs.Prelude.{◌≡◌, ◌≢◌, ℕ, ℤ, ◌<◌, ◌≤◌, length, true, None, is_some};
ghost use Rattle.instruction_table.specs.declared.register.Reg.{Reg};
ghost use Rattle.cyclic_barrier.specs.Waits.{wait_at};
ghost use Rattle.loader.specs.Program.{IsNamed};
ghost use Rattle.machine_scene.specs.{Scene.scene_of, Scene.counts_in, Scene.thread_at, Scene.barrier_at, Outcomes.timeout_in};
ghost use Rattle.machine_scene.specs.{BarrierRows.is_run_by_another, Sound.is_wait_row};
ghost use Rattle.machine_scene.specs.Waits.{outcome_of_phase_wait, outcome_of_release, outcome_of_barrier_wait};
ghost use Rattle.machine_scene.specs.Ready.{registration_is_held, is_blocked, may_be_blocked};

use super::Stage;
use cyclic_barrier::WaitState;
use instruction_table::Row;
use thread_state::Status;
use tier_tree::Registered;

/// Returns whether a thread may have to wait before it plays the row: at a registration, or at a call that waits while another
/// thread runs the barrier's action.
#[inline(always)]
pub(super) fn may_be_blocked(row: Row) -> bool
    ensures { result ≡ may_be_blocked row }
{
    match row {
        Row::Preg { .. }
        | Row::Pbulk { .. }
        | Row::Cawait { .. }
        | Row::Cawaitt { .. }
        | Row::Creset { .. }
        | Row::Cbroken { .. }
        | Row::Cwaiting { .. } => true,
        _ => false,
    }
}

/// Which rows can be played, and which waits can end.
impl Stage {
    /// Returns whether a running thread has to wait before it plays the row: a registration waits for the end of the phase, or
    /// another thread runs the barrier's action.
    #[inline(always)]
    pub(super) fn is_blocked(&self, row: Row, t: usize) -> bool
        requires named { IsNamed (counts_in self.now) row }
        requires thread { t < length self.now.threads }
        ensures { result ≡ is_blocked row t (scene_of self.now) }
    {
        match row {
            Row::Preg { phaser, .. } => self.is_held(phaser, 1, t),
            Row::Pbulk { phaser, count, .. } => self.is_held(
                phaser,
                self.threads[t].register(count),
                t,
            ),
            Row::Cawait { barrier, .. }
            | Row::Cawaitt { barrier, .. }
            | Row::Creset { barrier }
            | Row::Cbroken { barrier, .. }
            | Row::Cwaiting { barrier, .. } => self.is_busy(barrier, t),
            _ => false,
        }
    }

    /// Returns whether a registration would have to wait for the end of the phase. One that would throw doesn't wait.
    #[inline(never)]
    fn is_held(&self, phaser: u16, count: i32, t: usize) -> bool
        requires phaser { phaser < length self.now.phasers }
        requires thread { t < length self.now.threads }
        ensures { result ≡ registration_is_held phaser count t (scene_of self.now) }
    {
        if self.is_own_tree(phaser, t) || count < 0 {
            return false;
        }
        let answer = self
            .phasers
            .registration(self.phaser_id(phaser), count as u32);
        matches!(answer, Registered::Held)
    }

    /// Returns whether another thread runs the barrier's action.
    fn is_busy(&self, barrier: u16, t: usize) -> bool
        requires there { barrier < length self.now.barriers }
        ensures { result ≡ is_run_by_another t (barrier_at (scene_of self.now) barrier).runner }
    {
        match self.barriers[barrier as usize].runner() {
            Some(runner) => runner as usize != t,
            None => false,
        }
    }

    /// Returns whether a wait for a phase can end: the phase is over, or an interrupt ends a wait that is interruptible.
    #[inline(always)]
    pub(super) fn is_phase_wait_over(&self, row: Row, phase: i32, t: usize) -> bool
        requires named { IsNamed (counts_in self.now) row }
        requires thread { t < length self.now.threads }
        ensures { result ≡ is_some (outcome_of_phase_wait row phase t (scene_of self.now)) }
    {
        match row {
            Row::Paaa { phaser, .. } | Row::Pawait { phaser, .. } => self.is_past(phaser, phase),
            Row::Pawaiti { phaser, .. } | Row::Pawaitt { phaser, .. } => self.is_past(phaser, phase)
                || self.threads[t].interrupted(),
            _ => false,
        }
    }

    /// Returns whether a wait at this row's barrier can end.
    #[inline(always)]
    pub(super) fn is_barrier_wait_over(&self, row: Row, t: usize) -> bool
        requires named { IsNamed (counts_in self.now) row }
        requires waits { (b : ℕ) → is_wait_row b row ≡ true
            → wait_at (barrier_at (scene_of self.now) b).waits t ≢ None }
        requires thread { t < length self.now.threads }
        ensures { (index : ℤ) → result ≡ is_some (outcome_of_barrier_wait row index t (scene_of self.now)) }
    {
        match row {
            Row::Cawait { barrier, .. } => self.is_released(barrier, t),
            Row::Cawaitt { barrier, .. } => self.is_released(barrier, t),
            _ => false,
        }
    }

    /// Returns whether the barrier has released the thread, or an interrupt ends its wait. While the action runs, none does.
    #[inline(always)]
    fn is_released(&self, barrier: u16, t: usize) -> bool
        requires there { barrier < length self.now.barriers }
        requires waits { wait_at (barrier_at (scene_of self.now) barrier).waits t ≢ None }
        requires thread { t < length self.now.threads }
        ensures { (into : Reg) → (index : ℤ) → result
            ≡ is_some (outcome_of_release (wait_at (barrier_at (scene_of self.now) barrier).waits t)
            into index barrier t (scene_of self.now)) }
    {
        match self.wait_state(barrier, t) {
            WaitState::Waiting => self.threads[t].interrupted()
                && self.barriers[barrier as usize].runner().is_none(),
            WaitState::Tripped | WaitState::Broken => true,
        }
    }

    /// Returns whether the thread, which isn't ready, has a timed wait that can expire. At a barrier, no wait can expire while
    /// the action runs.
    pub(super) fn has_time(&self, row: Row, t: usize) -> bool
        requires named { IsNamed (counts_in self.now) row }
        requires thread { t < length self.now.threads }
        ensures { result ≡ is_some (timeout_in (thread_at (scene_of self.now) t).status row t
            (scene_of self.now)) }
    {
        match self.threads[t].status() {
            Status::AwaitsPhase(_) => matches!(row, Row::Pawaitt { .. }),
            Status::AwaitsBarrier(_) => match row {
                Row::Cawaitt { barrier, .. } => self.barriers[barrier as usize].runner().is_none(),
                _ => false,
            },
            _ => false,
        }
    }
}
