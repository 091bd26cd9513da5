// What takes back the last choices, in a ring.
ghost use Rattle.std.specs.Prelude.{◌≡◌, ◌<◌, ◌-◌, [], length, slice_get, option_copied, IfOk, OnOk, OnErr, Option};
ghost use Rattle.machine_scene.specs.Undo.{Note};
ghost use Rattle.thread_machine.specs.Stepped.{IsStep};
ghost use Rattle.debugger.specs.Undos.{with_note, without_newest};

use circular_buffer::HeapCircularBuffer;
use std::alloc::{AllocError, Global};
use std::marker::Model;
use thread_machine::{Choice, Event, Machine, StepFault, Undo};

/// What undoes the last choices, the newest first, in one block that is allocated whole and written as choices are played.
/// The first place of the ring is for what undoes the next choice.
#[derive(Drop)]
pub struct Undos {
    kept: HeapCircularBuffer<Undo>,
}

impl Model for Undos {
    ghost use Rattle.std.specs.Prelude.{◌<◌, ◌-◌, drop, length};
    ghost use Rattle.debugger.specs.Undos.{Kept};

    ghost Value = { Kept };

    ghost view = { λ undos. record { notes = drop 1 undos.kept.items; most = undos.kept.capacity - 1 } };

    ghost invariant = { λ undos. (0 < length undos.kept.items) × (1 < undos.kept.capacity) };
}

impl Undos {
    /// Makes an empty ring with room to undo `most` choices.
    pub fn new(alloc: Global, most: u16) -> Result<Undos, AllocError>
        requires { 0 < most }
        ensures { IfOk result (λ undos. undos ≡ record { notes = []; most = most }) }
    {
        Undos::with_places(alloc, most as usize + 1)
    }

    /// Makes an empty ring with the same room.
    pub fn emptied(&self, alloc: Global) -> Result<Undos, AllocError>
        ensures { IfOk result (λ undos. undos ≡ record self.now { notes = [] }) }
    {
        Undos::with_places(alloc, self.kept.capacity())
    }

    /// Makes an empty ring of this many places.
    fn with_places(alloc: Global, places: usize) -> Result<Undos, AllocError>
        requires { 1 < places }
        ensures { IfOk result (λ undos. undos ≡ record { notes = []; most = places - 1 }) }
    {
        let mut kept = HeapCircularBuffer::with_capacity(alloc, places)?;
        let _ = kept.push_front(Undo::new());
        Ok(Undos { kept })
    }

    /// Plays one choice. The step writes what undoes it directly into the ring: a copy would cost half as much as the step. If
    /// the ring is full, what undoes the oldest choice is lost. If the choice is refused, what is kept stays.
    #[inline(always)]
    #[tactic(auto, using(crate::proofs::Rings::written_and_pushed))]
    pub fn play(&mut self, machine: &mut Machine, choice: Choice) -> Result<Event, StepFault>
        ensures step { (undo : Option Note) × (IsStep machine.old choice result undo machine.new
            × OnOk result (self.new ≡ with_note undo self.old)) }
        ensures err { OnErr result (self.new ≡ self.old) }
    {
        let Some(undo) = self.kept.get_mut(0) else {
            unreachable!()
        };
        let played = machine.step_into(choice, undo);
        if played.is_ok() {
            // A place for the next choice. If the ring is full, it returns what undoes the oldest one, which is lost.
            let _ = self.kept.push_front(Undo::new());
        }
        played
    }

    /// Returns how many choices can be undone.
    pub fn len(&self) -> usize
        ensures { result ≡ length self.now.notes }
    {
        self.kept.len() - 1
    }

    /// Returns what undoes the last choice. `None`: that isn't kept.
    pub fn newest(&self) -> Option<&Undo>
        ensures { option_copied result ≡ slice_get self.now.notes 0 }
    {
        self.kept.get(1)
    }

    /// Drops what undoes the last choice, if it is kept.
    pub fn drop_newest(&mut self)
        ensures { self.new ≡ without_newest self.old }
    {
        if self.kept.len() > 1 {
            let _ = self.kept.pop_front();
        }
    }
}
