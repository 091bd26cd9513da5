use machine_scene::SceneNote;
use std::marker::Model;

/// What is saved of a choice so that it can be undone. It has a fixed size, and a step overwrites it in place: moving one costs
/// as much as half a step.
#[derive(Drop)]
pub struct Undo {
    /// Whether the choice was a step: a turn or an expiry. If it was idle, the note says nothing.
    pub(crate) is_turn: bool,
    pub(crate) note: SceneNote,
}

impl Model for Undo {
    ghost use Rattle.std.specs.Prelude.{Option, Some, None, if◌then◌else◌};
    ghost use Rattle.machine_scene.specs.Undo.{Note};

    ghost Value = { Option Note };

    ghost view = { λ undo. if undo.is_turn then Some undo.note else None };
}

impl Undo {
    ghost use Rattle.std.specs.Prelude.{◌≡◌, None};

    /// Makes an undo of an idle choice, for `Machine::step_into` to overwrite.
    pub fn new() -> Undo
        ensures { result ≡ None }
    {
        Undo {
            is_turn: false,
            note: SceneNote::new(),
        }
    }
}
