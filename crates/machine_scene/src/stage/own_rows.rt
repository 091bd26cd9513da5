//! The rows that use only the registers and the row number of their own thread.
ghost use Rattle.std.specs.Prelude.{◌≡◌, ◌<◌, length, true, false, Some, is_some};
ghost use Rattle.instruction_table.specs.LocalRows.{is_local_row};
ghost use Rattle.machine_scene.specs.{Scene.scene_of, Scene.thread_at, Sound.CanPlay, OwnRows.outcome_of_own_row};

use super::{Stage, alone};
use instruction_table::{Row, is_local};
use thread_state::Event;

impl Stage {
    /// Plays a local row: one that uses only the thread's registers and the number of its next row.
    #[inline(always)]
    #[tactic(auto, using(crate::proofs::LocalTurns::own_outcome))]
    pub(super) fn local_row(&mut self, row: Row, t: usize) -> Event
        requires local { is_local_row row ≡ true }
        requires plays { CanPlay t self.old }
        ensures outcome { outcome_of_own_row row t (scene_of self.old)
            ≡ Some (record { scene = scene_of self.new; event = result }) }
        ensures phasers { self.new.phasers ≡ self.old.phasers }
        ensures ready { (self.new).ready ≡ self.old.ready }
    {
        alone(self.threads[t].local_row(row))
    }

    /// Plays a row that concerns only its own thread: a local one, or `halt`.
    pub(super) fn own_row(&mut self, row: Row, t: usize) -> Event
        requires ready { is_some (outcome_of_own_row row t (scene_of self.old)) ≡ true }
        requires plays { CanPlay t self.old }
        ensures outcome { outcome_of_own_row row t (scene_of self.old)
            ≡ Some (record { scene = scene_of self.new; event = result }) }
        ensures phasers { self.new.phasers ≡ self.old.phasers }
    {
        if is_local(row) {
            self.local_row(row, t)
        } else {
            self.halt_row(row, t)
        }
    }

    /// Plays `halt`, which ends the thread. It is the only row of this group that isn't local.
    fn halt_row(&mut self, row: Row, t: usize) -> Event
        requires ready { is_some (outcome_of_own_row row t (scene_of self.old)) ≡ true }
        requires apart { is_local_row row ≡ false }
        requires thread { t < length self.old.threads }
        ensures outcome { outcome_of_own_row row t (scene_of self.old)
            ≡ Some (record { scene = scene_of self.new; event = result }) }
        ensures phasers { self.new.phasers ≡ self.old.phasers }
    {
        match row {
            Row::Halt => alone(self.threads[t].halt()),
            _ => unreachable!(),
        }
    }
}
