//! What a turn may change is saved before the turn, and restored when the turn is undone.
ghost use Rattle.std.specs.Prelude.{◌≡◌, ◌<◌, length};
ghost use Rattle.thread_state.specs.Thread.{top_of};
ghost use Rattle.machine_scene.specs.{Scene.scene_of, Scene.thread_at, Sound.IsSound, Sound.most_before};
ghost use Rattle.machine_scene.specs.Undo.{IsThere, CanPutBack, CanUndo, reach_of, touched_by, with_touched, note_of, undone};

use super::Stage;
use crate::note::{SceneNote, Touched};
use crate::reach::{Reach, reach_in};
use loader::Loaded;
use thread_state::ThreadNote;

impl Stage {
    /// Saves in a note what a thread's turn or the expiry of its wait may change, so that either can be undone.
    #[inline(always)]
    #[tactic(auto, using(crate::proofs::Reaches::local_reach))]
    pub fn note(&self, program: &Loaded, t: usize, note: &mut SceneNote)
        requires sound { IsSound program.now most_before (scene_of self.now) }
        requires thread { t < length self.now.threads }
        ensures { note.new ≡ note_of t program.now self.now }
    {
        let row = self.row_of(program, t);
        note.number = t as u8;
        self.threads[t].note(&mut note.own);
        if self.is_local_turn(row, t) {
            note.beside.clear();
        } else {
            self.note_beside(program, t, &mut note.beside);
        }
        note.ready = self.ready;
    }

    /// Saves what the turn of a thread may change besides the thread.
    #[inline(never)]
    #[tactic(auto, using(crate::proofs::Reaches::reach_there))]
    fn note_beside(&self, program: &Loaded, t: usize, touched: &mut Touched)
        requires sound { IsSound program.now most_before (scene_of self.now) }
        requires thread { t < length self.now.threads }
        ensures { touched.new ≡ touched_by (reach_of t program.now (scene_of self.now)) self.now }
    {
        let row = self.row_of(program, t);
        let top = self.threads[t].top();
        self.top_is_placed(program, &top, t);
        self.touched(reach_in(self.threads[t].status(), row, &top), touched);
    }

    /// Saves in `touched` what this reach names: nothing, a cell, a thread, a phaser's words up to the root's, or a barrier.
    fn touched(&self, reach: Reach, touched: &mut Touched)
        requires { IsThere reach self.now }
        ensures { touched.new ≡ touched_by reach self.now }
    {
        match reach {
            Reach::Nothing => touched.clear(),
            Reach::Cell(cell) => {
                *touched = Touched::Cell {
                    cell,
                    number: self.cells[cell as usize],
                };
            }
            Reach::Thread(thread) => {
                let mut before = ThreadNote::new();
                self.threads[thread as usize].note(&mut before);
                *touched = Touched::Thread { thread, before };
            }
            Reach::Tree(phaser) => {
                *touched = Touched::Tree(self.phasers.save(self.phaser_id(phaser)));
            }
            Reach::Barrier(barrier) => {
                *touched = Touched::Barrier {
                    barrier,
                    before: self.barriers[barrier as usize],
                };
            }
        }
    }

    /// Undoes a turn or an expiry: everything is as it was when the note was taken.
    pub fn undo(&mut self, note: &SceneNote)
        requires { CanUndo note.now self.old }
        ensures { self.new ≡ undone note.now self.old }
    {
        self.put_back(&note.beside);
        self.threads[note.number as usize].undo(&note.own);
        self.ready = note.ready;
    }

    /// Restores what the turn changed besides its own thread.
    fn put_back(&mut self, touched: &Touched)
        requires { CanPutBack touched.now self.old }
        ensures scene { self.new ≡ with_touched touched.now self.old }
        ensures threads { length self.new.threads ≡ length self.old.threads }
    {
        match touched {
            Touched::Nothing => {}
            Touched::Cell { cell, number } => self.cells[*cell as usize] = *number,
            Touched::Thread { thread, before } => self.threads[*thread as usize].undo(before),
            Touched::Tree(saved) => self.phasers.put_back(saved),
            Touched::Barrier { barrier, before } => self.barriers[*barrier as usize] = *before,
        }
    }
}
