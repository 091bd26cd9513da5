//! The rows that call a barrier. Inside the barrier's own action, `cawait`, `cawaitt`, `creset` and `cwaiting` throw 1
//! (IllegalStateException). Entering also throws 3 to 5, as Java's `await` does, and 6 (stack full).
ghost use Rattle.std.specs.Prelude.{◌≡◌, ℕ, pos, ◌<◌, ◌&&◌, length, true, false, Some, None, is_some};
ghost use Rattle.cyclic_barrier.specs.{Waits.wait_at, Barrier.number_waiting};
ghost use Rattle.loader.specs.Program.{IsNamed};
ghost use Rattle.thread_state.specs.Thread.{is_full, turn_of_answer};
ghost use Rattle.machine_scene.specs.Scene.{scene_of, counts_in, thread_at, barrier_at, outcome_of_turn};
ghost use Rattle.machine_scene.specs.Sound.{CanPlay};
ghost use Rattle.machine_scene.specs.BarrierRows.{is_run_by, unless_busy, unless_runner, outcome_of_entry, outcome_of_await_at, outcome_of_reset, outcome_of_barrier_row};

use super::{Stage, alone};
use cyclic_barrier::Entered;
use instruction_table::{Reg, Row};
use loader::Loaded;
use thread_state::{Event, Mark};

impl Stage {
    /// Plays a row that calls a barrier. `cawaitt` with a time of 0 or less doesn't wait: `no_wait` is true.
    pub(super) fn barrier_row(&mut self, program: &Loaded, row: Row, t: usize) -> Event
        requires ready { is_some (outcome_of_barrier_row row t program.now (scene_of self.old)) ≡ true }
        requires named { IsNamed (counts_in self.old) row }
        requires actions { length program.now.actions ≡ length self.old.barriers }
        requires no_wait { (b : ℕ) → wait_at (barrier_at (scene_of self.old) b).waits t ≡ None }
        requires plays { CanPlay t self.old }
        ensures outcome { outcome_of_barrier_row row t program.now (scene_of self.old)
            ≡ Some (record { scene = scene_of self.new; event = result }) }
        ensures phasers { self.new.phasers ≡ self.old.phasers }
    {
        match row {
            // `false`: the thread may wait.
            Row::Cawait { into, barrier } => self.come(program, false, into, barrier, t),
            Row::Cawaitt {
                into,
                barrier,
                timeout,
            } => {
                let no_wait = self.threads[t].register(timeout) <= 0;
                self.come(program, no_wait, into, barrier, t)
            }
            Row::Creset { barrier } => self.reset(barrier, t),
            Row::Cbroken { into, barrier } => {
                let broken = self.barriers[barrier as usize].is_broken();
                alone(self.threads[t].answer(into, i32::from(broken)))
            }
            Row::Cwaiting { into, barrier } => self.number_waiting(into, barrier, t),
            Row::Cparties { into, barrier } => {
                let parties = self.barriers[barrier as usize].parties();
                alone(self.threads[t].answer(into, i32::from(parties)))
            }
            _ => unreachable!(),
        }
    }

    /// Returns whether the thread runs the barrier's action.
    fn is_runner(&self, barrier: u16, t: usize) -> bool
        requires there { barrier < length self.now.barriers }
        ensures { result ≡ is_run_by t (barrier_at (scene_of self.now) barrier).runner }
    {
        match self.barriers[barrier as usize].runner() {
            Some(runner) => runner as usize == t,
            None => false,
        }
    }

    /// Plays `cawait` or `cawaitt`: it throws 1 inside the barrier's action. If there is an action and the stack is full, it
    /// throws 6. Otherwise it enters the barrier.
    #[inline(always)]
    fn come(&mut self, program: &Loaded, no_wait: bool, into: Reg, barrier: u16, t: usize) -> Event
        requires ready { is_some (unless_busy barrier t (scene_of self.old) (unless_runner barrier t (scene_of self.old)
            (outcome_of_await_at no_wait into barrier t program.now (scene_of self.old)))) ≡ true }
        requires there { barrier < length self.old.barriers }
        requires actions { length program.now.actions ≡ length self.old.barriers }
        requires no_wait { (b : ℕ) → wait_at (barrier_at (scene_of self.old) b).waits t ≡ None }
        requires plays { CanPlay t self.old }
        ensures outcome { unless_busy barrier t (scene_of self.old) (unless_runner barrier t (scene_of self.old)
            (outcome_of_await_at no_wait into barrier t program.now (scene_of self.old)))
            ≡ Some (record { scene = scene_of self.new; event = result }) }
        ensures phasers { self.new.phasers ≡ self.old.phasers }
    {
        if self.is_runner(barrier, t) {
            return alone(self.threads[t].throw(1));
        }
        if self.barriers[barrier as usize].has_action() && self.threads[t].is_full() {
            return alone(self.threads[t].throw(6));
        }
        self.enter(program, no_wait, into, barrier, t)
    }

    /// Enters the barrier. The thread waits, begins the action, gets index 0 as the last, or throws what Java's `await` throws.
    #[inline(always)]
    fn enter(&mut self, program: &Loaded, no_wait: bool, into: Reg, barrier: u16, t: usize) -> Event
        requires ready { is_some (outcome_of_entry no_wait into barrier t program.now (scene_of self.old)) ≡ true }
        requires there { barrier < length self.old.barriers }
        requires room { ((barrier_at (scene_of self.old) barrier).action
            && is_full (thread_at (scene_of self.old) t)) ≡ false }
        requires actions { length program.now.actions ≡ length self.old.barriers }
        requires no_wait { (b : ℕ) → wait_at (barrier_at (scene_of self.old) b).waits t ≡ None }
        requires plays { CanPlay t self.old }
        ensures outcome { outcome_of_entry no_wait into barrier t program.now (scene_of self.old)
            ≡ Some (record { scene = scene_of self.new; event = result }) }
        ensures phasers { self.new.phasers ≡ self.old.phasers }
    {
        let interrupted = self.threads[t].interrupted();
        let entered = self.barriers[barrier as usize].enter_timed(t as u8, interrupted, no_wait);
        let broke = Mark::Broke(barrier as u8);
        match entered {
            Entered::Wait(index) => alone(self.threads[t].wait_at_barrier(index)),
            Entered::Run => {
                let first = program.actions()[barrier as usize];
                alone(self.threads[t].enter_action(barrier as u8, first))
            }
            Entered::Tripped => Event {
                what: self.threads[t].answer(into, 0),
                mark: Mark::Tripped(barrier as u8),
            },
            Entered::Broken => alone(self.threads[t].throw(4)),
            Entered::Interrupted => Event {
                what: self.threads[t].take_interruption(),
                mark: broke,
            },
            Entered::TimedOut => Event {
                what: self.threads[t].throw(5),
                mark: broke,
            },
            Entered::Own => alone(self.threads[t].throw(1)),
            Entered::Busy => unreachable!(),
        }
    }

    /// Plays `creset`: resets the barrier, or throws 1 inside its action. If threads waited, the event shows that it broke.
    fn reset(&mut self, barrier: u16, t: usize) -> Event
        requires ready { is_some (unless_busy barrier t (scene_of self.old) (unless_runner barrier t (scene_of self.old)
            (Some (outcome_of_reset barrier t (scene_of self.old))))) ≡ true }
        requires there { barrier < length self.old.barriers }
        requires plays { CanPlay t self.old }
        ensures outcome { unless_busy barrier t (scene_of self.old) (unless_runner barrier t (scene_of self.old)
            (Some (outcome_of_reset barrier t (scene_of self.old))))
            ≡ Some (record { scene = scene_of self.new; event = result }) }
        ensures phasers { self.new.phasers ≡ self.old.phasers }
    {
        if self.is_runner(barrier, t) {
            return alone(self.threads[t].throw(1));
        }
        let mark = if 0 < self.barriers[barrier as usize].number_waiting() {
            Mark::Broke(barrier as u8)
        } else {
            Mark::Nothing
        };
        self.barriers[barrier as usize].reset();
        Event {
            what: self.threads[t].done(),
            mark,
        }
    }

    /// Plays `cwaiting`: puts into a register how many threads wait, or throws 1 inside the barrier's action.
    fn number_waiting(&mut self, into: Reg, barrier: u16, t: usize) -> Event
        requires ready { is_some (unless_busy barrier t (scene_of self.old) (unless_runner barrier t (scene_of self.old)
            (Some (outcome_of_turn (turn_of_answer into (pos (number_waiting (barrier_at (scene_of self.old) barrier)))
            (thread_at (scene_of self.old) t)) t (scene_of self.old))))) ≡ true }
        requires there { barrier < length self.old.barriers }
        requires plays { CanPlay t self.old }
        ensures outcome { unless_busy barrier t (scene_of self.old) (unless_runner barrier t (scene_of self.old)
            (Some (outcome_of_turn (turn_of_answer into (pos (number_waiting (barrier_at (scene_of self.old) barrier)))
            (thread_at (scene_of self.old) t)) t (scene_of self.old))))
            ≡ Some (record { scene = scene_of self.new; event = result }) }
        ensures phasers { self.new.phasers ≡ self.old.phasers }
    {
        if self.is_runner(barrier, t) {
            return alone(self.threads[t].throw(1));
        }
        let waiting = self.barriers[barrier as usize].number_waiting();
        alone(self.threads[t].answer(into, i32::from(waiting)))
    }
}
