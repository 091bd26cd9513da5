//! The rows that register at a phaser, arrive, wait or terminate. They throw 1 (IllegalStateException), 2
//! (IllegalArgumentException), 3 (InterruptedException), 5 (TimeoutException) and 6 (stack full).
ghost use Rattle.std.specs.Prelude.{◌≡◌, ℕ, ◌<◌, ◌≤◌, ◌&&◌, length, true, false, Some, None, is_some};
ghost use Rattle.tier_tree.specs.{Forest.phaser_at, Forest.flat_at, Forest.root_at, Stored.phasers_of, Stored.ChangedAt};
ghost use Rattle.instruction_table.specs.Registers.{value_in};
ghost use Rattle.loader.specs.Program.{IsNamed};
ghost use Rattle.thread_state.specs.Thread.{is_full, top_of};
ghost use Rattle.machine_scene.specs.{Scene.scene_of, Scene.counts_in, Scene.thread_at, Undo.PhasersWithin, Undo.reach_of_row};
ghost use Rattle.machine_scene.specs.PhaserRows.{turn_of_patience, turn_of_await, turn_of_arrival, is_own_tree, unless_own, has_routine, answer_of_policy, refusal_of_arrival, outcome_of_ended_phase, outcome_of_phase_end, outcome_of_pending_end, outcome_with_room, outcome_of_arrival, outcome_of_registration, outcome_of_bulk, outcome_of_await, outcome_of_force, outcome_of_phaser_row};
ghost use Rattle.machine_scene.specs.Sound.{CanPlay, most_after};

use super::{Stage, alone};
use crate::manner::{Manner, manner_of};
use crate::patience::Patience;
use instruction_table::{Reg, Row};
use loader::Loaded;
use packed_phaser::Policy;
use thread_state::{Event, Mark, Thread, What};
use tier_tree::{Arrived, PhaserId, Registered};

/// Begins to wait for the end of this phase, with this patience. A wait that isn't endless throws 3 (InterruptedException) if
/// the thread is interrupted. Otherwise a timed wait throws 5 (TimeoutException) if its time is 0 or less.
fn wait_with(thread: &mut Thread, patience: Patience, phase: i32) -> What
    ensures { record { thread = thread.new; what = result } ≡ turn_of_patience patience phase thread.old }
{
    match patience {
        Patience::Endless => thread.wait(phase),
        Patience::Interruptible => {
            if thread.interrupted() {
                return thread.take_interruption();
            }
            thread.wait(phase)
        }
        Patience::Timed(time) => {
            if thread.interrupted() {
                return thread.take_interruption();
            }
            if 0 < time {
                thread.wait(phase)
            } else {
                thread.throw(5)
            }
        }
    }
}

/// Plays `awaitAdvance`: returns `phase` if it is negative, or `view`, what `getPhase` returns, if that differs. Else it waits.
fn await_phase(thread: &mut Thread, patience: Patience, into: Reg, phase: i32, view: i32) -> What
    requires { thread.old.pc < 65535 }
    ensures { record { thread = thread.new; what = result }
        ≡ turn_of_await patience into phase view thread.old }
{
    if phase < 0 {
        return thread.answer(into, phase);
    }
    if view != phase {
        return thread.answer(into, view);
    }
    wait_with(thread, patience, phase)
}

/// Plays what follows an arrival that isn't the last: `paaa` waits for the end of the phase, and other rows return the phase.
fn wait_or_answer(thread: &mut Thread, manner: Manner, phase: i32) -> What
    requires { thread.old.pc < 65535 }
    ensures { record { thread = thread.new; what = result } ≡ turn_of_arrival manner phase thread.old }
{
    if manner.waits {
        thread.wait(phase)
    } else {
        thread.answer(manner.into, phase)
    }
}

impl Stage {
    /// Plays a row that registers at a phaser, arrives, waits or terminates.
    pub(super) fn phaser_row(&mut self, program: &Loaded, row: Row, t: usize) -> Event
        requires ready { is_some (outcome_of_phaser_row row t program.now (scene_of self.old)) ≡ true }
        requires named { IsNamed (counts_in self.old) row }
        requires routines { length program.now.routines ≡ length self.old.phasers }
        requires ends { (p : ℕ) → (phaser_at (phasers_of self.old.phasers) p).ends < most_after }
        requires plays { CanPlay t self.old }
        ensures outcome { outcome_of_phaser_row row t program.now (scene_of self.old)
            ≡ Some (record { scene = scene_of self.new; event = result }) }
        ensures phasers { PhasersWithin (reach_of_row row (top_of (thread_at (scene_of self.old) t).stack))
            self.old.phasers self.new.phasers }
    {
        match row {
            Row::Preg { into, phaser } => self.register(into, phaser, t),
            Row::Pbulk {
                into,
                phaser,
                count,
            } => self.register_many(into, phaser, count, t),
            Row::Parr { phaser, .. } | Row::Pdereg { phaser, .. } | Row::Paaa { phaser, .. } => {
                self.arrival(program, manner_of(row), phaser, t)
            }
            Row::Pawait {
                into,
                phaser,
                phase,
            } => self.await_unless_own(Patience::Endless, into, phaser, phase, t),
            Row::Pawaiti {
                into,
                phaser,
                phase,
            } => self.await_unless_own(Patience::Interruptible, into, phaser, phase, t),
            Row::Pawaitt {
                into,
                phaser,
                phase,
                timeout,
            } => {
                let time = self.threads[t].register(timeout);
                self.await_unless_own(Patience::Timed(time), into, phaser, phase, t)
            }
            Row::Pforce { phaser } => self.force(phaser, t),
            _ => unreachable!(),
        }
    }

    /// Returns whether the thread runs the routine of this phaser's tree. Then most calls throw 1.
    pub(super) fn is_own_tree(&self, phaser: u16, t: usize) -> bool
        requires phaser { phaser < length self.now.phasers }
        requires thread { t < length self.now.threads }
        ensures { result ≡ is_own_tree phaser (thread_at (scene_of self.now) t) (scene_of self.now) }
    {
        let root = self.phasers.root(self.phaser_id(phaser));
        self.threads[t].advances(root.0)
    }

    /// Plays `preg`: registers one party, or throws 1 inside the tree's own routine.
    #[tactic(auto, using(tier_tree::proofs::Changed::changed_nothing))]
    fn register(&mut self, into: Reg, phaser: u16, t: usize) -> Event
        requires ready { is_some (unless_own phaser t (scene_of self.old)
            (outcome_of_registration into phaser 1 t (scene_of self.old))) ≡ true }
        requires phaser { phaser < length self.old.phasers }
        requires plays { CanPlay t self.old }
        ensures outcome { unless_own phaser t (scene_of self.old)
            (outcome_of_registration into phaser 1 t (scene_of self.old))
            ≡ Some (record { scene = scene_of self.new; event = result }) }
        ensures phasers { ChangedAt phaser self.old.phasers self.new.phasers }
    {
        if self.is_own_tree(phaser, t) {
            return alone(self.threads[t].throw(1));
        }
        self.registration(into, phaser, 1, t)
    }

    /// Plays `pbulk`: registers parties. Throws 1 inside the tree's own routine, and 2 for a negative count.
    #[tactic(auto, using(tier_tree::proofs::Changed::changed_nothing))]
    fn register_many(&mut self, into: Reg, phaser: u16, count: Reg, t: usize) -> Event
        requires ready { is_some (unless_own phaser t (scene_of self.old)
            (outcome_of_bulk into phaser (value_in (thread_at (scene_of self.old) t).registers count) t (scene_of self.old)))
            ≡ true }
        requires phaser { phaser < length self.old.phasers }
        requires plays { CanPlay t self.old }
        ensures outcome { unless_own phaser t (scene_of self.old)
            (outcome_of_bulk into phaser (value_in (thread_at (scene_of self.old) t).registers count) t (scene_of self.old))
            ≡ Some (record { scene = scene_of self.new; event = result }) }
        ensures phasers { ChangedAt phaser self.old.phasers self.new.phasers }
    {
        if self.is_own_tree(phaser, t) {
            return alone(self.threads[t].throw(1));
        }
        let count = self.threads[t].register(count);
        if count < 0 {
            return alone(self.threads[t].throw(2));
        }
        self.registration(into, phaser, count as u32, t)
    }

    /// Registers parties; the registration isn't held (`ready`). Returns the phase, or the negative view of a terminated
    /// phaser. Throws 1 if the phaser would have too many parties.
    fn registration(&mut self, into: Reg, phaser: u16, count: u32, t: usize) -> Event
        requires ready { is_some (outcome_of_registration into phaser count t (scene_of self.old)) ≡ true }
        requires phaser { phaser < length self.old.phasers }
        requires plays { CanPlay t self.old }
        ensures outcome { outcome_of_registration into phaser count t (scene_of self.old)
            ≡ Some (record { scene = scene_of self.new; event = result }) }
        ensures phasers { ChangedAt phaser self.old.phasers self.new.phasers }
    {
        let id = self.phaser_id(phaser);
        match self.phasers.register(id, count) {
            Registered::At(phase) => alone(self.threads[t].answer(into, phase)),
            Registered::Dead(view) => alone(self.threads[t].answer(into, view)),
            Registered::TooMany => alone(self.threads[t].throw(1)),
            Registered::Held => unreachable!(),
        }
    }

    /// Arrives, or throws: 1 inside the tree's own routine, and 6 if the tree has a routine and the stack is full.
    #[inline(always)]
    #[tactic(auto, using(tier_tree::proofs::Changed::changed_nothing, crate::proofs::Arrivals::refused, crate::proofs::Arrivals::comes))]
    pub(super) fn arrival(
        &mut self,
        program: &Loaded,
        manner: Manner,
        phaser: u16,
        t: usize,
    ) -> Event
        requires phaser { phaser < length self.old.phasers }
        requires routines { length program.now.routines ≡ length self.old.phasers }
        requires ends { (p : ℕ) → (phaser_at (phasers_of self.old.phasers) p).ends < most_after }
        requires plays { CanPlay t self.old }
        ensures outcome { unless_own phaser t (scene_of self.old)
            (Some (outcome_of_arrival manner phaser t program.now (scene_of self.old)))
            ≡ Some (record { scene = scene_of self.new; event = result }) }
        ensures phasers { ChangedAt phaser self.old.phasers self.new.phasers }
        ensures ready { (self.new).ready ≡ self.old.ready }
    {
        match self.refusal(phaser, t) {
            Some(code) => alone(self.threads[t].throw(code)),
            None => self.arrive(program, manner, phaser, t),
        }
    }

    /// Returns the exception that an arrival throws before it reaches the phaser. `None`: none, as always with an empty stack.
    #[inline(always)]
    #[tactic(auto, using(crate::proofs::Arrivals::free))]
    fn refusal(&self, phaser: u16, t: usize) -> Option<i32>
        requires phaser { phaser < length self.now.phasers }
        requires thread { t < length self.now.threads }
        ensures { result ≡ refusal_of_arrival phaser (thread_at (scene_of self.now) t) (scene_of self.now) }
    {
        if self.threads[t].stack().is_empty() {
            None
        } else {
            self.refusal_by_stack(phaser, t)
        }
    }

    /// Returns 1 inside the tree's own routine, and 6 if the tree has a routine and the stack is full. `None`: it throws none.
    #[inline(never)]
    fn refusal_by_stack(&self, phaser: u16, t: usize) -> Option<i32>
        requires phaser { phaser < length self.now.phasers }
        requires thread { t < length self.now.threads }
        ensures { result ≡ refusal_of_arrival phaser (thread_at (scene_of self.now) t) (scene_of self.now) }
    {
        if self.is_own_tree(phaser, t) {
            Some(1)
        } else if self.has_routine(phaser) && self.threads[t].is_full() {
            Some(6)
        } else {
            None
        }
    }

    /// Returns whether the end of a phase in the phaser's tree calls a routine.
    fn has_routine(&self, phaser: u16) -> bool
        requires phaser { phaser < length self.now.phasers }
        ensures { result ≡ has_routine phaser (scene_of self.now) }
    {
        let root = self.phasers.root(self.phaser_id(phaser));
        matches!(self.phasers.policy(root), Policy::Routine)
    }

    /// Arrives, and plays what follows: a wait, a result, the end of the phase, or an exception if no party is left to arrive.
    #[inline(always)]
    fn arrive(&mut self, program: &Loaded, manner: Manner, phaser: u16, t: usize) -> Event
        requires phaser { phaser < length self.old.phasers }
        requires room { (has_routine phaser (scene_of self.old) && is_full (thread_at (scene_of self.old) t)) ≡ false }
        requires routines { length program.now.routines ≡ length self.old.phasers }
        requires ends { (p : ℕ) → (phaser_at (phasers_of self.old.phasers) p).ends < most_after }
        requires plays { CanPlay t self.old }
        ensures outcome { record { scene = scene_of self.new; event = result }
            ≡ outcome_with_room manner phaser t program.now (scene_of self.old) }
        ensures phasers { ChangedAt phaser self.old.phasers self.new.phasers }
        ensures ready { (self.new).ready ≡ self.old.ready }
    {
        self.phasers.is_forest();
        match self.phasers.arrive(PhaserId(phaser as u8), manner.leaves) {
            Arrived::At(phase) => alone(wait_or_answer(&mut self.threads[t], manner, phase)),
            Arrived::Turning { root, phase, .. } => {
                self.phasers.is_forest();
                self.pending_end(program, manner, root, phase, t)
            }
            Arrived::Dead(view) => alone(self.threads[t].answer(manner.into, view)),
            Arrived::NotThere => alone(self.threads[t].throw(1)),
        }
    }

    /// Plays what follows the last arrival: ends the phase as the policy says, or enters the routine, which decides later. The
    /// root isn't terminated (`live`), and the stack has room for a routine.
    #[inline(always)]
    #[tactic(auto, using(tier_tree::proofs::Changed::changed_nothing))]
    fn pending_end(
        &mut self,
        program: &Loaded,
        manner: Manner,
        root: PhaserId,
        phase: i32,
        t: usize,
    ) -> Event
        requires there { root.0 < length self.old.phasers }
        requires top { root_at (phasers_of self.old.phasers) root.0 ≡ root.0 }
        requires turned { (flat_at (phasers_of self.old.phasers) root.0).turned ≡ true }
        requires live { (flat_at (phasers_of self.old.phasers) root.0).ended ≡ false }
        requires ends { (phaser_at (phasers_of self.old.phasers) root.0).ends < most_after }
        requires room { answer_of_policy root.0 (scene_of self.old) ≡ None
            → is_full (thread_at (scene_of self.old) t) ≡ false }
        requires routines { root.0 < length program.now.routines }
        requires plays { CanPlay t self.old }
        ensures outcome { record { scene = scene_of self.new; event = result }
            ≡ outcome_of_pending_end (answer_of_policy root.0 (scene_of self.old)) manner root.0 phase t
            program.now (scene_of self.old) }
        ensures phasers { ChangedAt root.0 self.old.phasers self.new.phasers }
        ensures ready { (self.new).ready ≡ self.old.ready }
    {
        let parties = self.phasers.parties(root);
        let answer = self
            .phasers
            .policy(root)
            .ends(self.phasers.phase_number(root), parties);
        match answer {
            Some(terminates) => self.end_phase(manner, root, phase, terminates, t),
            None => {
                let first = program.routines()[root.0 as usize];
                alone(self.threads[t].enter_advance(root.0, phase, parties, first))
            }
        }
    }

    /// Ends the phase of a root at which all have arrived, and terminates its tree if `terminates`. Answers the last arrival.
    #[inline(always)]
    pub(super) fn end_phase(
        &mut self,
        manner: Manner,
        root: PhaserId,
        phase: i32,
        terminates: bool,
        t: usize,
    ) -> Event
        requires there { root.0 < length self.old.phasers }
        requires top { root_at (phasers_of self.old.phasers) root.0 ≡ root.0 }
        requires turned { (flat_at (phasers_of self.old.phasers) root.0).turned ≡ true }
        requires live { (flat_at (phasers_of self.old.phasers) root.0).ended ≡ false }
        requires ends { (phaser_at (phasers_of self.old.phasers) root.0).ends < most_after }
        requires plays { CanPlay t self.old }
        ensures outcome { record { scene = scene_of self.new; event = result }
            ≡ outcome_of_phase_end manner root.0 phase terminates t (scene_of self.old) }
        ensures phasers { ChangedAt root.0 self.old.phasers self.new.phasers }
        ensures ready { (self.new).ready ≡ self.old.ready }
    {
        self.phasers.finish_turn(root, terminates);
        self.answer_last(manner, root, phase, t)
    }

    /// Answers the last arrival: for `paaa` what `getPhase` returns now, else the ended phase's number. The event shows the
    /// end.
    #[inline(always)]
    fn answer_last(&mut self, manner: Manner, root: PhaserId, phase: i32, t: usize) -> Event
        requires there { root.0 < length self.old.phasers }
        requires plays { CanPlay t self.old }
        ensures outcome { record { scene = scene_of self.new; event = result }
            ≡ outcome_of_ended_phase manner root.0 phase t (scene_of self.old) }
        ensures phasers { self.new.phasers ≡ self.old.phasers }
        ensures ready { (self.new).ready ≡ self.old.ready }
    {
        let view = self.phasers.phase(root);
        let what = self.threads[t].answer(manner.into, if manner.waits { view } else { phase });
        Event {
            what,
            mark: Mark::Phase { root: root.0, view },
        }
    }

    /// Waits for the end of the phase in the register `phase`, if the phaser is in it. Throws 1 inside the tree's own routine.
    fn await_unless_own(
        &mut self,
        patience: Patience,
        into: Reg,
        phaser: u16,
        phase: Reg,
        t: usize,
    ) -> Event
        requires phaser { phaser < length self.old.phasers }
        requires plays { CanPlay t self.old }
        ensures outcome { unless_own phaser t (scene_of self.old)
            (Some (outcome_of_await patience into phaser
            (value_in (thread_at (scene_of self.old) t).registers phase) t (scene_of self.old)))
            ≡ Some (record { scene = scene_of self.new; event = result }) }
        ensures phasers { self.new.phasers ≡ self.old.phasers }
    {
        if self.is_own_tree(phaser, t) {
            return alone(self.threads[t].throw(1));
        }
        let view = self.phasers.phase(self.phaser_id(phaser));
        let phase = self.threads[t].register(phase);
        alone(await_phase(&mut self.threads[t], patience, into, phase, view))
    }

    /// Plays `pforce`: terminates the phaser's tree. The event shows the termination, unless the tree was terminated before.
    fn force(&mut self, phaser: u16, t: usize) -> Event
        requires phaser { phaser < length self.old.phasers }
        requires plays { CanPlay t self.old }
        ensures outcome { record { scene = scene_of self.new; event = result }
            ≡ outcome_of_force phaser t (scene_of self.old) }
        ensures phasers { ChangedAt phaser self.old.phasers self.new.phasers }
    {
        let id = self.phaser_id(phaser);
        let ended = self.phasers.is_terminated(id);
        let root = self.phasers.root(id);
        self.phasers.force(id);
        let mark = if ended {
            Mark::Nothing
        } else {
            Mark::Phase {
                root: root.0,
                view: self.phasers.phase(root),
            }
        };
        Event {
            what: self.threads[t].done(),
            mark,
        }
    }
}
