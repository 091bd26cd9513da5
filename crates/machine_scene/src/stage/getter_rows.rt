//! The rows that read a phaser.
ghost use Rattle.std.specs.Prelude.{◌≡◌, ◌<◌, ◌≤◌, length, slice_get, true, Some, is_some};
ghost use Rattle.tier_tree.specs.{Forest.phaser_at, Stored.phasers_of};
ghost use Rattle.loader.specs.Program.{IsNamed};
ghost use Rattle.machine_scene.specs.{Scene.scene_of, Scene.counts_in, Scene.thread_at, Sound.CanPlay};
ghost use Rattle.machine_scene.specs.GetterRows.{number_or_none, outcome_of_getter_row};

use super::{Stage, alone};
use instruction_table::Row;
use thread_state::Event;

impl Stage {
    /// Plays a row that reads a phaser: puts what Java's getter returns into a register, booleans as 1 or 0.
    pub(super) fn getter_row(&mut self, row: Row, t: usize) -> Event
        requires ready { is_some (outcome_of_getter_row row t (scene_of self.old)) ≡ true }
        requires named { IsNamed (counts_in self.old) row }
        requires plays { CanPlay t self.old }
        ensures outcome { outcome_of_getter_row row t (scene_of self.old)
            ≡ Some (record { scene = scene_of self.new; event = result }) }
        ensures phasers { self.new.phasers ≡ self.old.phasers }
    {
        let (into, answer) = match row {
            Row::Pphase { into, phaser } => (into, self.phasers.phase(self.phaser_id(phaser))),
            Row::Pparties { into, phaser } => (
                into,
                i32::from(self.phasers.parties(self.phaser_id(phaser))),
            ),
            Row::Parrived { into, phaser } => (
                into,
                i32::from(self.phasers.arrived(self.phaser_id(phaser))),
            ),
            Row::Punarr { into, phaser } => (
                into,
                i32::from(self.phasers.unarrived(self.phaser_id(phaser))),
            ),
            Row::Pterm { into, phaser } => (
                into,
                i32::from(self.phasers.is_terminated(self.phaser_id(phaser))),
            ),
            Row::Pparent { into, phaser } => (into, self.parent(phaser)),
            Row::Proot { into, phaser } => (
                into,
                i32::from(self.phasers.root(self.phaser_id(phaser)).0),
            ),
            _ => unreachable!(),
        };
        alone(self.threads[t].answer(into, answer))
    }

    /// Returns the number of a phaser's parent, or -1 if it has none.
    fn parent(&self, phaser: u16) -> i32
        requires phaser { phaser < length self.now.phasers }
        ensures { result ≡ number_or_none (slice_get (phaser_at (phasers_of self.now.phasers) phaser).line 1) }
    {
        match self.phasers.parent(self.phaser_id(phaser)) {
            Some(parent) => i32::from(parent.0),
            None => -1,
        }
    }
}
