ghost use Rattle.std.specs.Prelude.{◌≡◌, None};
ghost use Rattle.machine_scene.specs.declared.note.Touched.TheVariants.{Nothing};

use crate::ready_set::ReadySet;
use cyclic_barrier::Barrier;
use std::marker::Model;
use thread_state::ThreadNote;
use tier_tree::Saved;

/// What is saved of the one thing, besides its own thread, that a turn may change.
#[derive(Drop)]
pub enum Touched {
    Nothing,
    Cell { cell: u16, number: i32 },
    Thread { thread: u16, before: ThreadNote },
    Tree(Saved),
    Barrier { barrier: u16, before: Barrier },
}

impl Touched {
    /// Sets the note to `Nothing`: only the thread itself may change. Most notes already say so, and then nothing is written.
    #[inline(always)]
    pub(crate) fn clear(&mut self)
        ensures { self.new ≡ Nothing }
    {
        if !matches!(self, Touched::Nothing) {
            *self = Touched::Nothing;
        }
    }
}

/// What is saved of a stage before a turn, or before the expiry of a wait, so that it can be undone. It has a fixed size.
/// `number` and `own` are of the turn's thread, and `beside` is of what else may change.
#[derive(Drop)]
pub struct SceneNote {
    pub(crate) number: u8,
    pub(crate) own: ThreadNote,
    pub(crate) beside: Touched,
    pub(crate) ready: ReadySet,
}

impl Model for SceneNote {
    ghost use Rattle.machine_scene.specs.Undo.{Note};

    ghost Value = { Note };

    ghost view = { λ note. record {
      thread = note.number;
      before = note.own;
      touched = note.beside;
      ready = note.ready;
    } };
}

impl SceneNote {
    /// Makes an empty note. `Stage::note` overwrites its fields before anybody reads them.
    pub fn new() -> SceneNote
        ensures top { result.before.top ≡ None }
        ensures touched { result.touched ≡ Nothing }
    {
        SceneNote {
            number: 0,
            own: ThreadNote::new(),
            beside: Touched::Nothing,
            ready: ReadySet {
                turns: 0,
                registering: 0,
            },
        }
    }
}
