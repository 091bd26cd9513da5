//! The rows on outputs, cells, thread numbers and interrupted statuses.
ghost use Rattle.std.specs.Prelude.{◌≡◌, ◌<◌, length, pos, true, Some, is_some, IsErr, IfOk, OnErr};
ghost use Rattle.thread_state.specs.Thread.{turn_of_out, turn_of_answer, turn_of_intrd};
ghost use Rattle.machine_scene.specs.Scene.{scene_of, counts_in, thread_at, cell_at, outcome_of_turn};
ghost use Rattle.machine_scene.specs.Sound.{CanPlay};
ghost use Rattle.machine_scene.specs.DataRows.{outcome_of_store, outcome_of_interrupt, outcome_of_data_row, runs, may_grow};
ghost use Rattle.loader.specs.Program.{IsNamed};

use super::{Stage, alone};
use instruction_table::{Reg, Row};
use std::alloc::AllocError;
use thread_state::Event;

impl Stage {
    /// Plays a row on outputs, cells, thread numbers or interrupted statuses. `Err`: no memory for `out`.
    pub(super) fn data_row(&mut self, row: Row, t: usize) -> Result<Event, AllocError>
        requires ready { is_some (outcome_of_data_row row t (scene_of self.old)) ≡ true }
        requires named { IsNamed (counts_in self.old) row }
        requires plays { CanPlay t self.old }
        requires runs { runs (thread_at (scene_of self.old) t).status ≡ true }
        ensures ok { IfOk result (λ event. outcome_of_data_row row t (scene_of self.old)
            ≡ Some (record { scene = scene_of self.new; event = event })) }
        ensures err { OnErr result (self.new ≡ self.old) }
        ensures memory { IsErr result → may_grow row (thread_at (scene_of self.old) t) ≡ true }
        ensures phasers { self.new.phasers ≡ self.old.phasers }
    {
        match row {
            Row::Out { value } => self.out(value, t),
            Row::Lds { into, cell } => Ok(self.load(into, cell, t)),
            Row::Sts { from, cell } => Ok(self.store(from, cell, t)),
            Row::SelfNumber { into } => Ok(self.own_number(into, t)),
            Row::Intr { thread } => Ok(self.interrupt(thread as usize, t)),
            Row::Intrd { into } => Ok(self.take_interrupt(into, t)),
            _ => unreachable!(),
        }
    }

    /// Plays `out`: appends a register's number to the thread's output. `Err`: no memory, and nothing has changed.
    fn out(&mut self, value: Reg, t: usize) -> Result<Event, AllocError>
        requires plays { CanPlay t self.old }
        ensures ok { IfOk result (λ event. record { scene = scene_of self.new; event = event }
            ≡ outcome_of_turn (turn_of_out value (thread_at (scene_of self.old) t)) t (scene_of self.old)) }
        ensures err { OnErr result (self.new ≡ self.old) }
        ensures memory { IsErr result → length (thread_at (scene_of self.old) t).output < 4096 }
        ensures phasers { self.new.phasers ≡ self.old.phasers }
    {
        Ok(alone(self.threads[t].out(value)?))
    }

    /// Plays `lds`: puts a cell's number into a register.
    fn load(&mut self, into: Reg, cell: u16, t: usize) -> Event
        requires cell { cell < 32 }
        requires plays { CanPlay t self.old }
        ensures outcome { record { scene = scene_of self.new; event = result }
            ≡ outcome_of_turn (turn_of_answer into (cell_at (scene_of self.old) cell) (thread_at (scene_of self.old) t)) t (scene_of self.old) }
        ensures phasers { self.new.phasers ≡ self.old.phasers }
    {
        let number = self.cells[cell as usize];
        alone(self.threads[t].answer(into, number))
    }

    /// Plays `self`: puts the thread's own number into a register.
    fn own_number(&mut self, into: Reg, t: usize) -> Event
        requires plays { CanPlay t self.old }
        ensures outcome { record { scene = scene_of self.new; event = result }
            ≡ outcome_of_turn (turn_of_answer into (pos t) (thread_at (scene_of self.old) t)) t (scene_of self.old) }
        ensures phasers { self.new.phasers ≡ self.old.phasers }
    {
        alone(self.threads[t].answer(into, t as i32))
    }

    /// Plays `intrd`: puts the thread's interrupted status, 1 or 0, into a register, and clears it.
    fn take_interrupt(&mut self, into: Reg, t: usize) -> Event
        requires plays { CanPlay t self.old }
        ensures outcome { record { scene = scene_of self.new; event = result }
            ≡ outcome_of_turn (turn_of_intrd into (thread_at (scene_of self.old) t)) t (scene_of self.old) }
        ensures phasers { self.new.phasers ≡ self.old.phasers }
    {
        alone(self.threads[t].take_interrupt(into))
    }

    /// Plays `sts`: puts a register's number into a cell.
    fn store(&mut self, from: Reg, cell: u16, t: usize) -> Event
        requires cell { cell < 32 }
        requires plays { CanPlay t self.old }
        ensures outcome { record { scene = scene_of self.new; event = result } ≡ outcome_of_store from cell t (scene_of self.old) }
        ensures phasers { self.new.phasers ≡ self.old.phasers }
    {
        self.cells[cell as usize] = self.threads[t].register(from);
        alone(self.threads[t].done())
    }

    /// Plays `intr`: thread t interrupts thread `other`, which may be itself.
    fn interrupt(&mut self, other: usize, t: usize) -> Event
        requires other { other < length self.old.threads }
        requires plays { CanPlay t self.old }
        ensures outcome { record { scene = scene_of self.new; event = result } ≡ outcome_of_interrupt other t (scene_of self.old) }
        ensures phasers { self.new.phasers ≡ self.old.phasers }
    {
        self.threads[other].interrupt();
        alone(self.threads[t].done())
    }
}
