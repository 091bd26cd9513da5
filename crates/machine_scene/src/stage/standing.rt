//! What is known of a sound stage. Each function is called for its contract, which a proof cites. It only reads a field, which
//! brings the invariant of `Stage` into that proof.
ghost use Rattle.std.specs.Prelude.{◌≡◌, ◌<◌, length};
ghost use Rattle.tier_tree.specs.Stored.{IsStored};
ghost use Rattle.loader.specs.Program.{row_at};
ghost use Rattle.thread_state.specs.Thread.{top_of};
ghost use Rattle.machine_scene.specs.Scene.{scene_of, thread_at};
ghost use Rattle.machine_scene.specs.Sound.{IsSound, SeesWait, StandsAt, IsTop, most_after, most_before};

use super::Stage;
use instruction_table::Row;
use loader::Loaded;
use thread_state::Frame;

impl Stage {
    /// A law: the stored phasers fulfil the invariant of a forest. It only calls the forest's own statement.
    pub(super) fn phasers_are_stored(&self)
        ensures { IsStored self.now.phasers }
    {
        self.phasers.is_forest();
    }

    /// States `StandsAt`: what the thread's row names exists, and each tree may end one more phase. The read serves the proof.
    pub(super) fn turn_is_placed(&self, program: &Loaded, row: Row, t: usize)
        requires sound { IsSound program.now most_before (scene_of self.now) }
        requires thread { t < length self.now.threads }
        requires row { row ≡ row_at program.now.rows (thread_at (scene_of self.now) t).pc }
        ensures { StandsAt program.now row t self.now }
    {
        let _ = &self.threads;
    }

    /// States `SeesWait`: what the row names exists, and the barrier of a waiting thread knows its wait. The read serves the
    /// proof.
    pub(super) fn wait_is_placed(&self, program: &Loaded, row: Row, t: usize)
        requires sound { IsSound program.now most_after (scene_of self.now) }
        requires thread { t < length self.now.threads }
        requires row { row ≡ row_at program.now.rows (thread_at (scene_of self.now) t).pc }
        ensures { SeesWait row t self.now }
    {
        let _ = &self.threads;
    }

    /// A law: if a routine is on top of the stack, its root is turned or terminated. If an action is, some thread runs this
    /// barrier's action. The read of a field serves the proof.
    #[tactic(auto, using(crate::proofs::Placed::top_placed))]
    pub(super) fn top_is_placed(&self, program: &Loaded, top: &Option<Frame>, t: usize)
        requires sound { IsSound program.now most_before (scene_of self.now) }
        requires thread { t < length self.now.threads }
        requires top { top.now ≡ top_of (thread_at (scene_of self.now) t).stack }
        ensures { IsTop program.now self.now top.now }
    {
        let _ = &self.threads;
    }
}
