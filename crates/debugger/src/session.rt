// A session: a machine, what takes back its last choices, and its breakpoints.
ghost use Rattle.std.specs.Prelude.{◌≡◌, ◌↔◌, ◌+◌, ◌-◌, ◌<◌, ◌≤◌, ◌++◌, ◌∷◌, [], List, length, take, replicate, slice_set, nat_lt, IfOk, OnOk, OnErr, IsErr, true, false, Some, None};
ghost use Rattle.thread_machine.specs.{World.World, World.world_of, Step.played, Step.refusal_of, Step.puts_out};
ghost use Rattle.debugger.specs.Session.{IsHistory, went_on, went_back};

use crate::marks::Marks;
use crate::stop::NoHistory;
use crate::undos::Undos;
use std::alloc::{AllocError, Global};
use std::marker::Model;
use thread_machine::{Choice, Event, Machine, StepFault};

mod again;
mod go;
mod reply;

pub use reply::{CommandFault, say_stop};

/// A machine that can be stepped back, with or without a breakpoint at each row.
#[derive(Drop)]
pub struct Debugger {
    played: Machine,
    undos: Undos,
    marks: Marks,
    alloc: Global,
}

impl Model for Debugger {
    ghost use Rattle.debugger.specs.Session.{Session, past_of, IsTrail};

    ghost Value = { Session };

    ghost view = { λ debugger. record {
      machine = debugger.played;
      past = past_of debugger.played debugger.undos.notes;
      kept = debugger.undos.most;
      breaks = debugger.marks;
    } };

    ghost invariant = { λ debugger. IsTrail debugger.played debugger.undos.notes };
}

/// What a debugger allocates.
#[derive(Drop)]
struct Room {
    undos: Undos,
    marks: Marks,
}

impl Room {
    /// Allocates room to take back `kept` choices, and a mark for each row.
    fn new(alloc: Global, rows: usize, kept: u16) -> Result<Room, AllocError>
        requires { 0 < kept }
        ensures undos { IfOk result (λ room. room.undos ≡ record { notes = []; most = kept }) }
        ensures marks { IfOk result (λ room. room.marks ≡ replicate rows false) }
    {
        let marks = Marks::new(alloc, rows)?;
        let undos = Undos::new(alloc, kept)?;
        Ok(Room { undos, marks })
    }
}

impl Debugger {
    /// Makes a debugger without breakpoints that can take back the last `kept` choices.
    pub fn new(alloc: Global, machine: Machine, kept: u16) -> Result<Debugger, AllocError>
        requires some { 0 < kept }
        requires few { kept ≤ 4096 }
        ensures { IfOk result (λ debugger. debugger ≡ record {
          machine = machine;
          past = [];
          kept = kept;
          breaks = replicate (length machine.program.rows) false;
        }) }
    {
        match Room::new(alloc, machine.loaded().rows().len(), kept) {
            Ok(Room { undos, marks }) => Ok(Debugger {
                played: machine,
                undos,
                marks,
                alloc,
            }),
            Err(failed) => Err(failed),
        }
    }

    /// Returns a debugger of the same machine with the same breakpoints. The copy can't take back any choice made so far.
    pub fn copy(&self) -> Result<Debugger, AllocError>
        ensures { IfOk result (λ copy. copy ≡ record self.now { past = [] }) }
    {
        Ok(Debugger {
            played: self.played.copy(self.alloc)?,
            undos: self.undos.emptied(self.alloc)?,
            marks: self.marks.copy(self.alloc)?,
            alloc: self.alloc,
        })
    }

    /// Returns the machine that the debugger plays.
    pub fn machine(&self) -> &Machine
        ensures { result.now ≡ self.now.machine }
    {
        &self.played
    }

    /// Plays one choice, and keeps what takes it back. If the machine refuses it or is out of memory, nothing has changed.
    #[inline(always)]
    pub fn step(&mut self, choice: Choice) -> Result<Event, StepFault>
        ensures played { IfOk result (λ event. record { world = world_of (self.new).machine; event = event }
            ≡ played (world_of (self.old).machine) choice) }
        ensures session { OnOk result (self.new ≡ went_on self.old (self.new).machine) }
        ensures history { OnOk result ((first : World) (choices : List Choice) → IsHistory first choices self.old
            → IsHistory first (choices ++ choice ∷ []) self.new) }
        ensures no_thread { (result ≡ Err StepFault.NoSuchThread)
            ↔ (refusal_of (world_of self.old.machine) choice ≡ Some StepFault.NoSuchThread) }
        ensures limit { (result ≡ Err StepFault.StepLimit)
            ↔ (refusal_of (world_of self.old.machine) choice ≡ Some StepFault.StepLimit) }
        ensures accepted { OnOk result (refusal_of (world_of self.old.machine) choice ≡ None) }
        ensures memory { result ≡ Err StepFault.Memory → puts_out (world_of self.old.machine) choice ≡ true }
        ensures err { OnErr result (self.new ≡ self.old) }
    {
        let event = match self.undos.play(&mut self.played, choice) {
            Ok(event) => event,
            Err(fault) => return Err(fault),
        };
        Ok(event)
    }

    /// Takes back the last choice. The breakpoints stay. `Err`: nothing is kept to take back, and nothing has changed.
    pub fn back(&mut self) -> Result<(), NoHistory>
        ensures session { self.new ≡ went_back self.old }
        ensures none { IsErr result ↔ (self.old.past ≡ []) }
        ensures history { OnOk result ((first : World) (choices : List Choice) → IsHistory first choices self.old
            → IsHistory first (take (length choices - 1) choices) self.new) }
    {
        match self.undos.newest() {
            Some(undo) => {
                self.played.take_back(undo);
                self.undos.drop_newest();
                Ok(())
            }
            None => Err(NoHistory),
        }
    }

    /// Sets a breakpoint at a row. Returns false if the program has no such row.
    pub fn set_break(&mut self, row: u16) -> bool
        ensures row { result ≡ nat_lt row (length self.old.breaks) }
        ensures session { self.new ≡ record self.old { breaks = slice_set self.old.breaks row true } }
    {
        self.marks.put(row as usize, true)
    }

    /// Clears the breakpoint at a row, if there is one. Returns false if the program has no such row.
    pub fn clear_break(&mut self, row: u16) -> bool
        ensures row { result ≡ nat_lt row (length self.old.breaks) }
        ensures session { self.new ≡ record self.old { breaks = slice_set self.old.breaks row false } }
    {
        self.marks.put(row as usize, false)
    }
}
