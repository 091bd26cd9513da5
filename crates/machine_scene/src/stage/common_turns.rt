ghost use Rattle.std.specs.Prelude.{◌≡◌, ◌≢◌, ◌<◌, length, true, Some, None, is_some, IfSome};
ghost use Rattle.std.specs.Option.{OnSome};
ghost use Rattle.loader.specs.Program.{row_at};
ghost use Rattle.thread_state.specs.Thread.{top_of};
ghost use Rattle.machine_scene.specs.{Scene.scene_of, Scene.thread_at, Sound.IsSound, Sound.StandsAt, Sound.most_before};
ghost use Rattle.machine_scene.specs.Outcomes.{outcome_in, outcome_of, outcome_of_row, is_ready};
ghost use Rattle.machine_scene.specs.{ReadySet.KnowsReady, ReadySet.is_arrival, ReadySet.is_common, Played.IsPlayed};
ghost use Rattle.machine_scene.specs.Undo.{PhasersWithin, reach_of_row, reach_in};

use super::Stage;
use crate::manner::manner_of;
use instruction_table::Row;
use loader::Loaded;
use thread_state::{Event, Status};

/// The turns that are most frequent in most programs: rows that use only registers, arrivals of parties that stay, and the ends
/// of waits for phases.
impl Stage {
    /// Plays a thread's turn if it is common: one of those above. `None`: it isn't. Nothing has changed: the caller calls
    /// `turn`.
    #[inline(always)]
    pub fn common_turn(&mut self, program: &Loaded, t: usize) -> Option<Event>
        requires sound { IsSound program.now most_before (scene_of self.old) }
        requires known { KnowsReady program.now self.old }
        requires thread { t < length self.old.threads }
        requires ready { is_ready t program.now (scene_of self.old) ≡ true }
        ensures none { result ≡ None → self.new ≡ self.old }
        ensures ok { IfSome result (λ event.
            IsPlayed (outcome_of t program.now (scene_of self.old)) t program.now self.old self.new event) }
        ensures known { OnSome result (KnowsReady program.now self.new) }
    {
        let row = self.row_of(program, t);
        self.phasers_are_stored();
        match self.common_by_status(program, row, t) {
            Some(event) => {
                self.settle(program, row, event, t);
                Some(event)
            }
            None => None,
        }
    }

    /// Plays a common turn. The caller updates the sets of ready threads. `None`: it isn't common, and nothing has changed.
    #[inline(always)]
    fn common_by_status(&mut self, program: &Loaded, row: Row, t: usize) -> Option<Event>
        requires at { StandsAt program.now row t self.old }
        requires ready { is_some (outcome_in (thread_at (scene_of self.old) t).status row t program.now
            (scene_of self.old)) ≡ true }
        ensures none { result ≡ None → self.new ≡ self.old }
        ensures ok { IfSome result (λ event. outcome_in (thread_at (scene_of self.old) t).status row t
            program.now (scene_of self.old)
            ≡ Some (record { scene = scene_of self.new; event = event })) }
        ensures phasers { OnSome result (PhasersWithin (reach_in (thread_at (scene_of self.old) t).status row
            (top_of (thread_at (scene_of self.old) t).stack)) self.old.phasers self.new.phasers) }
        ensures common { OnSome result (is_common (thread_at (scene_of self.old) t).status row ≡ true) }
        ensures trees { OnSome result (self.old.ready.registering ≢ 0 → self.new.phasers ≡ self.old.phasers) }
        ensures ready { OnSome result ((self.new).ready ≡ self.old.ready) }
    {
        if self.is_local_turn(row, t) {
            return Some(self.local_row(row, t));
        }
        if matches!(self.threads[t].status(), Status::Runs) {
            return self.common_arrival(program, row, t);
        }
        match self.threads[t].status() {
            Status::AwaitsPhase(phase) => Some(self.finish_phase_wait(row, phase, t)),
            _ => None,
        }
    }

    /// Plays `parr` or `paaa`. `None`: the row is another one, or some thread is about to register, and an arrival may change
    /// whether that thread is ready. Then nothing has changed.
    #[inline(always)]
    fn common_arrival(&mut self, program: &Loaded, row: Row, t: usize) -> Option<Event>
        requires at { StandsAt program.now row t self.old }
        ensures none { result ≡ None → self.new ≡ self.old }
        ensures ok { IfSome result (λ event. outcome_of_row row t program.now (scene_of self.old)
            ≡ Some (record { scene = scene_of self.new; event = event })) }
        ensures phasers { OnSome result (PhasersWithin (reach_of_row row
            (top_of (thread_at (scene_of self.old) t).stack)) self.old.phasers self.new.phasers) }
        ensures common { OnSome result (is_arrival row ≡ true) }
        ensures trees { OnSome result (self.old.ready.registering ≡ 0) }
        ensures ready { OnSome result ((self.new).ready ≡ self.old.ready) }
    {
        if self.ready.registering != 0 {
            return None;
        }
        match row {
            Row::Parr { phaser, .. } | Row::Paaa { phaser, .. } => {
                Some(self.arrival(program, manner_of(row), phaser, t))
            }
            _ => None,
        }
    }
}
