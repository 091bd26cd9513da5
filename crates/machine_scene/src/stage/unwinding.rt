//! The turns of a thread that throws an exception.
ghost use Rattle.std.specs.Prelude.{◌≡◌, ◌<◌, length};
ghost use Rattle.machine_scene.specs.{Scene.scene_of, Unwinding.outcome_of_pop, Sound.IsSound, Sound.most_before};

use super::{Stage, alone};
use loader::Loaded;
use thread_state::{Event, Frame, Mark};

impl Stage {
    /// Plays a turn of a thread that throws this exception: it pops one stack entry. If that is an action's, the barrier
    /// breaks.
    pub(super) fn unwind(&mut self, program: &Loaded, code: i32, t: usize) -> Event
        requires sound { IsSound program.now most_before (scene_of self.old) }
        requires thread { t < length self.old.threads }
        ensures outcome { record { scene = scene_of self.new; event = result }
            ≡ outcome_of_pop code t (scene_of self.old) }
        ensures phasers { self.new.phasers ≡ self.old.phasers }
    {
        let top = self.threads[t].top();
        self.top_is_placed(program, &top, t);
        match &top {
            Some(Frame::Action(barrier, _, _)) => {
                // `false`: the action threw.
                self.barriers[*barrier as usize].end_action(false);
                Event {
                    what: self.threads[t].pop(code),
                    mark: Mark::Broke(*barrier),
                }
            }
            _ => alone(self.threads[t].pop(code)),
        }
    }
}
