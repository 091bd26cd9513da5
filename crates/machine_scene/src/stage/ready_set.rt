//! The sets of ready (runnable) threads, exact after each step. To look at a thread is to compute its bits from the scene.
ghost use Rattle.std.specs.Prelude.{◌≡◌, ℕ, ◌<◌, length, true, false, None, IfSome};
ghost use Rattle.instruction_table.specs.LocalRows.{is_local_row};
ghost use Rattle.cyclic_barrier.specs.ThreadSet.{has};
ghost use Rattle.loader.specs.Program.{IsNamed, row_at};
ghost use Rattle.machine_scene.specs.{Scene.scene_of, Scene.counts_in, Scene.thread_at, Outcomes.is_ready};
ghost use Rattle.machine_scene.specs.Sound.{IsSound, SeesWait, most_after};
ghost use Rattle.machine_scene.specs.ReadySet.{AreReady, KnowsReady, IsSetAt, AreLooked, IsLooked, AreOthersReady, AreReadyBeside, is_registration, is_registering, interrupts, changes_tree, concerns_others, changes_all, is_local_turn, runs_on, is_wait};

use super::Stage;
use super::ready::may_be_blocked;
use crate::ready_set::{ReadySet, set_at};
use instruction_table::{Row, is_local};
use loader::Loaded;
use thread_state::{Event, Mark, Status, What};

/// Returns whether a thread is in the set: bit n is thread n.
#[inline(always)]
pub(super) fn is_in(set: u64, thread: usize) -> bool
    requires { thread < 64 }
    ensures { result ≡ has set thread }
{
    (set >> thread) & 1 == 1
}

/// Returns the lowest thread in the set, if there is one.
#[inline(always)]
#[tactic(auto, using(crate::proofs::ThreadSets::lowest))]
fn first_in(set: u64) -> Option<usize>
    ensures some { IfSome result (λ t. has set t ≡ true) }
    ensures none { result ≡ None → set ≡ 0 }
{
    if set == 0 {
        None
    } else {
        Some(set.trailing_zeros() as usize)
    }
}

/// Returns whether the row is `preg` or `pbulk`.
#[inline(always)]
fn is_registration(row: Row) -> bool
    ensures { result ≡ is_registration row }
{
    matches!(row, Row::Preg { .. } | Row::Pbulk { .. })
}

/// Returns whether the row may change the counts of a tree. `ret` does if it ends a routine.
#[inline(always)]
fn changes_tree(row: Row) -> bool
    ensures { result ≡ changes_tree row }
{
    match row {
        Row::Ret
        | Row::Preg { .. }
        | Row::Pbulk { .. }
        | Row::Parr { .. }
        | Row::Pdereg { .. }
        | Row::Paaa { .. }
        | Row::Pforce { .. } => true,
        _ => false,
    }
}

/// Returns whether a phase ends, a tree is terminated, a barrier trips or breaks, or a routine or an action begins. Then any
/// other thread may become ready, or cease to be.
#[inline(always)]
fn concerns_others(event: Event) -> bool
    ensures { result ≡ concerns_others event }
{
    !matches!(event.mark, Mark::Nothing) || matches!(event.what, What::Enters)
}

/// Returns whether a step may make other threads ready or not: then all bits are computed again. `pforce` and `creset` always
/// may, whatever the event shows.
#[inline(always)]
fn changes_all(row: Row, event: Event) -> bool
    ensures { result ≡ changes_all row event }
{
    match row {
        Row::Pforce { .. } | Row::Creset { .. } => true,
        _ => concerns_others(event),
    }
}

/// Whose turn is ready.
impl Stage {
    /// Returns whether the thread runs and its row uses only registers.
    #[inline(always)]
    pub(super) fn is_local_turn(&self, row: Row, t: usize) -> bool
        requires { t < length self.now.threads }
        ensures { result ≡ is_local_turn (thread_at (scene_of self.now) t).status row }
    {
        is_local(row) && matches!(self.threads[t].status(), Status::Runs)
    }

    /// Returns the row that a thread is at. Unlike `row_of`, it may be called after a step. `wait_is_placed` proves `SeesWait`.
    #[inline(always)]
    fn place(&self, program: &Loaded, t: usize) -> Row
        requires sound { IsSound program.now most_after (scene_of self.now) }
        requires thread { t < length self.now.threads }
        ensures row { result ≡ row_at program.now.rows (thread_at (scene_of self.now) t).pc }
        ensures sees { SeesWait result t self.now }
    {
        let row = program.rows()[self.threads[t].pc() as usize];
        self.wait_is_placed(program, row, t);
        row
    }

    /// Returns whether a thread is runnable, computed from the threads, phasers and barriers, and not from the sets.
    #[inline(always)]
    #[tactic(auto, using(crate::proofs::Readiness::row_is_ready))]
    fn goes_on(&self, program: &Loaded, t: usize) -> bool
        requires sound { IsSound program.now most_after (scene_of self.now) }
        requires thread { t < length self.now.threads }
        ensures { result ≡ is_ready t program.now (scene_of self.now) }
    {
        let row = self.place(program, t);
        match self.threads[t].status() {
            Status::Runs => !self.is_blocked(row, t),
            Status::Throws(_) => true,
            Status::AwaitsPhase(phase) => self.is_phase_wait_over(row, phase, t),
            Status::AwaitsBarrier(_) => self.is_barrier_wait_over(row, t),
            Status::Ended | Status::Died(_) => false,
        }
    }

    /// Returns whether a thread runs and is at a registration: `preg` or `pbulk`.
    #[inline(always)]
    fn is_registering(&self, program: &Loaded, t: usize) -> bool
        requires sound { IsSound program.now most_after (scene_of self.now) }
        requires thread { t < length self.now.threads }
        ensures { result ≡ is_registering t program.now (scene_of self.now) }
    {
        let row = self.place(program, t);
        match self.threads[t].status() {
            Status::Runs => is_registration(row),
            _ => false,
        }
    }

    /// Returns the sets `before` with the bits of thread `t` computed again from its row and its status.
    #[inline(always)]
    fn looked_closely(&self, program: &Loaded, before: ReadySet, t: usize) -> ReadySet
        requires sound { IsSound program.now most_after (scene_of self.now) }
        requires thread { t < length self.now.threads }
        ensures { IsLooked program.now t before result (scene_of self.now) }
    {
        ReadySet {
            turns: set_at(before.turns, t, self.goes_on(program, t)),
            registering: set_at(before.registering, t, self.is_registering(program, t)),
        }
    }

    /// Returns the sets `before` with the bits of thread `t` computed again. Most threads run and are at a row where no thread
    /// has to wait: their bits are known at once.
    #[inline(always)]
    #[tactic(auto, using(crate::proofs::ReadySets::looked_on))]
    fn looked(&self, program: &Loaded, before: ReadySet, t: usize) -> ReadySet
        requires sound { IsSound program.now most_after (scene_of self.now) }
        requires thread { t < length self.now.threads }
        ensures { IsLooked program.now t before result (scene_of self.now) }
    {
        if self.runs_on(program, t) {
            ReadySet {
                turns: set_at(before.turns, t, true),
                registering: set_at(before.registering, t, false),
            }
        } else {
            self.looked_closely(program, before, t)
        }
    }

    /// Computes the bits of thread `t` again, and stores them.
    #[inline(never)]
    fn refresh(&mut self, program: &Loaded, t: usize)
        requires sound { IsSound program.now most_after (scene_of self.old) }
        requires thread { t < length self.old.threads }
        ensures stored { self.new ≡ record self.old { ready = self.new.ready } }
        ensures looked { IsLooked program.now t self.old.ready self.new.ready (scene_of self.old) }
    {
        self.ready = self.looked_closely(program, self.ready, t);
    }

    /// Returns whether a thread runs and is at a row where no thread has to wait.
    #[inline(always)]
    fn runs_on(&self, program: &Loaded, t: usize) -> bool
        requires sound { IsSound program.now most_after (scene_of self.now) }
        requires thread { t < length self.now.threads }
        ensures { result ≡ runs_on (thread_at (scene_of self.now) t).status
            (row_at program.now.rows (thread_at (scene_of self.now) t).pc) }
    {
        match self.threads[t].status() {
            Status::Runs => !may_be_blocked(self.place(program, t)),
            _ => false,
        }
    }

    /// Updates the sets after a common turn of thread t at this row, with this event. Most such turns change only t's bits.
    #[inline(always)]
    pub(super) fn settle(&mut self, program: &Loaded, row: Row, event: Event, t: usize)
        requires sound { IsSound program.now most_after (scene_of self.old) }
        requires thread { t < length self.old.threads }
        requires turn { has self.old.ready.turns t ≡ true }
        requires apart { has self.old.ready.registering t ≡ false }
        requires local { is_local_row row ≡ true → concerns_others event ≡ false }
        requires beside { concerns_others event ≡ false → AreReadyBeside program.now t self.old.ready (scene_of self.old) }
        requires waits { is_wait event.what ≡ true → (is_ready t program.now (scene_of self.old) ≡ false)
            × (is_registering t program.now (scene_of self.old) ≡ false) }
        ensures stored { self.new ≡ record self.old { ready = self.new.ready } }
        ensures known { AreReady program.now self.new.ready (scene_of self.old) }
    {
        if is_local(row) {
            self.look_ahead(program, t);
        } else if concerns_others(event) {
            self.ready = self.ready_sets(program);
        } else if matches!(event.what, What::Waits) {
            self.leave_out(t);
        } else {
            self.look_ahead(program, t);
        }
    }

    /// Removes thread t from the ready threads: it has begun to wait.
    #[inline(never)]
    fn leave_out(&mut self, t: usize)
        requires { t < length self.old.threads }
        ensures stored { self.new ≡ record self.old { ready = self.new.ready } }
        ensures turns { IsSetAt t false self.old.ready.turns self.new.ready.turns }
        ensures registering { self.new.ready.registering ≡ self.old.ready.registering }
    {
        self.ready.turns = set_at(self.ready.turns, t, false);
    }

    /// Computes the bits of thread t again, unless it runs and is at a row where no thread has to wait: then its bits are
    /// right.
    #[inline(always)]
    fn look_ahead(&mut self, program: &Loaded, t: usize)
        requires sound { IsSound program.now most_after (scene_of self.old) }
        requires thread { t < length self.old.threads }
        requires turn { has self.old.ready.turns t ≡ true }
        requires apart { has self.old.ready.registering t ≡ false }
        requires beside { AreReadyBeside program.now t self.old.ready (scene_of self.old) }
        ensures stored { self.new ≡ record self.old { ready = self.new.ready } }
        ensures known { AreReady program.now self.new.ready (scene_of self.old) }
    {
        if !self.runs_on(program, t) {
            self.refresh(program, t);
        }
    }

    /// Returns the sets with the bits of all threads computed from the scene.
    #[inline(never)]
    pub(super) fn ready_sets(&self, program: &Loaded) -> ReadySet
        requires sound { IsSound program.now most_after (scene_of self.now) }
        ensures { AreReady program.now result (scene_of self.now) }
    {
        let mut set = ReadySet {
            turns: 0,
            registering: 0,
        };
        for u in 0..self.threads.len() {
            set = self.looked(program, set, u);
        }
        set
    }

    /// Returns the sets `before`. If the row is `intr`, the bits of the thread that it interrupts are computed again.
    #[inline(always)]
    fn with_interrupted(&self, program: &Loaded, before: ReadySet, row: Row) -> ReadySet
        requires sound { IsSound program.now most_after (scene_of self.now) }
        requires named { IsNamed (counts_in self.now) row }
        ensures { AreLooked program.now (λ u. interrupts u row) before result (scene_of self.now) }
    {
        match row {
            Row::Intr { thread } => self.looked(program, before, thread as usize),
            _ => before,
        }
    }

    /// Returns the sets `before` with new bits for thread `t`, which took a step, and for the thread that it interrupted, if
    /// any.
    #[inline(always)]
    fn with_few(&self, program: &Loaded, before: ReadySet, row: Row, t: usize) -> ReadySet
        requires sound { IsSound program.now most_after (scene_of self.now) }
        requires thread { t < length self.now.threads }
        requires named { IsNamed (counts_in self.now) row }
        requires free { changes_tree row ≡ true → before.registering ≡ 0 }
        requires others { AreOthersReady program.now t row before (scene_of self.now) }
        ensures { AreReady program.now result (scene_of self.now) }
    {
        let rest = self.with_interrupted(program, before, row);
        self.looked(program, rest, t)
    }

    /// Returns the sets after a step of thread `t` at this row, with this event. `before` are the sets before the step. All
    /// bits are computed again only if the step may have made any other thread ready or not.
    #[inline(always)]
    pub(super) fn ready_after(
        &self,
        program: &Loaded,
        before: ReadySet,
        row: Row,
        event: Event,
        t: usize,
    ) -> ReadySet
        requires sound { IsSound program.now most_after (scene_of self.now) }
        requires thread { t < length self.now.threads }
        requires named { IsNamed (counts_in self.now) row }
        requires others { changes_all row event ≡ false
            → AreOthersReady program.now t row before (scene_of self.now) }
        ensures { AreReady program.now result (scene_of self.now) }
    {
        if changes_all(row, event) || changes_tree(row) && before.registering != 0 {
            self.ready_sets(program)
        } else {
            self.with_few(program, before, row, t)
        }
    }

    /// Returns the lowest thread that can take a turn. `None`: no thread can.
    pub fn ready_thread(&self, program: &Loaded) -> Option<usize>
        requires known { KnowsReady program.now self.now }
        ensures there { IfSome result (λ t. t < length self.now.threads) }
        ensures ready { IfSome result (λ t. is_ready t program.now (scene_of self.now) ≡ true) }
        ensures none { result ≡ None → (u : ℕ) → is_ready u program.now (scene_of self.now) ≡ false }
    {
        // The result is passed on unchanged: each arm names its case for the proof.
        match first_in(self.ready.turns) {
            Some(t) => Some(t),
            None => None,
        }
    }
}
