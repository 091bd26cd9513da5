//! Calls, handlers, thrown exceptions, and the way back from calls, routines and actions.
ghost use Rattle.std.specs.Prelude.{◌≡◌, ◌+◌, ◌<◌, ◌≤◌, length, true, Some, is_some};
ghost use Rattle.tier_tree.specs.{Forest.phaser_at, Forest.flat_at, Forest.root_at, Stored.phasers_of, Stored.ChangedAt};
ghost use Rattle.tier_tree.specs.Trees.{is_pending};
ghost use Rattle.loader.specs.Program.{row_at};
ghost use Rattle.thread_state.specs.declared.frame.Frame.TheVariants as frame;
ghost use Rattle.thread_state.specs.Thread.{top_of};
ghost use Rattle.machine_scene.specs.Scene.{scene_of, thread_at, barrier_at};
ghost use Rattle.machine_scene.specs.CallRows.{outcome_of_routine_end, outcome_of_ret, outcome_of_call_row};
ghost use Rattle.machine_scene.specs.Sound.{CanPlay, IsSound, most_after, most_before};
ghost use Rattle.machine_scene.specs.Undo.{PhasersWithin, reach_of_ret, reach_of_row};

use super::{Stage, alone};
use crate::manner::{Manner, manner_of};
use instruction_table::{Reg, Regs, Row};
use loader::Loaded;
use thread_state::{Event, Frame, Mark};
use tier_tree::PhaserId;

impl Stage {
    /// Plays `call`, `ret`, `try`, `endtry` or `throw`.
    pub(super) fn call_row(&mut self, program: &Loaded, row: Row, t: usize) -> Event
        requires ready { is_some (outcome_of_call_row row t program.now (scene_of self.old)) ≡ true }
        requires sound { IsSound program.now most_before (scene_of self.old) }
        requires plays { CanPlay t self.old }
        ensures outcome { outcome_of_call_row row t program.now (scene_of self.old)
            ≡ Some (record { scene = scene_of self.new; event = result }) }
        ensures phasers { PhasersWithin (reach_of_row row (top_of (thread_at (scene_of self.old) t).stack))
            self.old.phasers self.new.phasers }
    {
        match row {
            Row::Call { target } => alone(self.threads[t].call(target)),
            Row::Ret => self.ret(program, t),
            Row::Try { handler } => alone(self.threads[t].begin_try(handler)),
            Row::Endtry => alone(self.threads[t].end_try()),
            Row::Throw { code } => {
                let code = self.threads[t].register(code);
                alone(self.threads[t].throw(code))
            }
            _ => unreachable!(),
        }
    }

    /// Plays `ret`: returns from the call, routine or action on top of the stack. If a handler or nothing is on top, it throws
    /// 7.
    fn ret(&mut self, program: &Loaded, t: usize) -> Event
        requires sound { IsSound program.now most_before (scene_of self.old) }
        requires thread { t < length self.old.threads }
        ensures outcome { record { scene = scene_of self.new; event = result }
            ≡ outcome_of_ret (top_of (thread_at (scene_of self.old) t).stack) t program.now
            (scene_of self.old) }
        ensures phasers { PhasersWithin (reach_of_ret (top_of (thread_at (scene_of self.old) t).stack))
            self.old.phasers self.new.phasers }
    {
        let top = self.threads[t].top();
        self.top_is_placed(program, &top, t);
        match &top {
            Some(Frame::Call(row)) => alone(self.threads[t].return_to(*row)),
            Some(Frame::Advance(root, registers, row)) => self.end_routine(
                program,
                PhaserId(*root),
                registers,
                *row,
                t,
            ),
            Some(Frame::Action(barrier, registers, row)) => self.end_action(
                program, *barrier, registers, *row, t,
            ),
            _ => alone(self.threads[t].throw(7)),
        }
    }

    /// Ends a routine, which asks to terminate the tree if R0 isn't 0. The thread gets back its arrival's `row` and
    /// `registers`.
    fn end_routine(
        &mut self,
        program: &Loaded,
        root: PhaserId,
        registers: &Regs,
        row: u16,
        t: usize,
    ) -> Event
        requires top { top_of (thread_at (scene_of self.old) t).stack
            ≡ Some (frame.Advance root.0 registers.now row) }
        requires row { row + 1 < length program.now.rows }
        requires rows { length program.now.rows < 65536 }
        requires there { root.0 < length self.old.phasers }
        requires root { root_at (phasers_of self.old.phasers) root.0 ≡ root.0 }
        requires pending { is_pending (flat_at (phasers_of self.old.phasers) root.0) ≡ true }
        requires ends { (phaser_at (phasers_of self.old.phasers) root.0).ends < most_after }
        requires thread { t < length self.old.threads }
        ensures outcome { record { scene = scene_of self.new; event = result }
            ≡ outcome_of_ret (top_of (thread_at (scene_of self.old) t).stack) t program.now
            (scene_of self.old) }
        ensures phasers { ChangedAt root.0 self.old.phasers self.new.phasers }
    {
        let terminates = self.threads[t].register(Reg::R0) != 0;
        let manner = manner_of(program.rows()[row as usize]);
        self.threads[t].leave_routine(registers, row);
        self.take_answer(manner, root, terminates, t)
    }

    /// Ends the phase, and terminates the tree if the routine asked for it. If the tree was terminated while the routine ran,
    /// the arrival only gets its result. For `paaa` this is the negative view, otherwise the number of the phase.
    #[tactic(auto, using(tier_tree::proofs::Changed::changed_nothing))]
    fn take_answer(&mut self, manner: Manner, root: PhaserId, terminates: bool, t: usize) -> Event
        requires there { root.0 < length self.old.phasers }
        requires root { root_at (phasers_of self.old.phasers) root.0 ≡ root.0 }
        requires pending { is_pending (flat_at (phasers_of self.old.phasers) root.0) ≡ true }
        requires ends { (phaser_at (phasers_of self.old.phasers) root.0).ends < most_after }
        requires plays { CanPlay t self.old }
        ensures outcome { record { scene = scene_of self.new; event = result }
            ≡ outcome_of_routine_end (flat_at (phasers_of self.old.phasers) root.0).ended manner root.0
            terminates t (scene_of self.old) }
        ensures phasers { ChangedAt root.0 self.old.phasers self.new.phasers }
    {
        let phase = self.phasers.phase_number(root).number();
        if self.phasers.is_terminated(root) {
            let answer = if manner.waits {
                self.phasers.phase(root)
            } else {
                phase
            };
            return alone(self.threads[t].answer(manner.into, answer));
        }
        self.end_phase(manner, root, phase, terminates, t)
    }

    /// Ends an action that has returned: its thread goes back to its arrival, which returns 0, and the barrier trips.
    fn end_action(
        &mut self,
        program: &Loaded,
        barrier: u8,
        registers: &Regs,
        row: u16,
        t: usize,
    ) -> Event
        requires top { top_of (thread_at (scene_of self.old) t).stack
            ≡ Some (frame.Action barrier registers.now row) }
        requires row { row + 1 < length program.now.rows }
        requires rows { length program.now.rows < 65536 }
        requires there { barrier < length self.old.barriers }
        requires runs { is_some (barrier_at (scene_of self.old) barrier).runner ≡ true }
        requires thread { t < length self.old.threads }
        ensures outcome { record { scene = scene_of self.new; event = result }
            ≡ outcome_of_ret (top_of (thread_at (scene_of self.old) t).stack) t program.now
            (scene_of self.old) }
        ensures phasers { self.new.phasers ≡ self.old.phasers }
    {
        let manner = manner_of(program.rows()[row as usize]);
        self.threads[t].leave_routine(registers, row);
        // `true`: the action returned.
        self.barriers[barrier as usize].end_action(true);
        Event {
            what: self.threads[t].answer(manner.into, 0),
            mark: Mark::Tripped(barrier),
        }
    }
}
