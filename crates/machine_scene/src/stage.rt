ghost use Rattle.std.specs.Prelude.{◌≡◌, ◌<◌, ◌≤◌, length, replicate, pos, true, false, Ok, Some, None, is_some, IfSome, IsErr, IfOk, OnErr, OnOk};
ghost use Rattle.std.specs.{Option.OnSome, List.list_all};
ghost use Rattle.instruction_table.specs.{Group.group_of, LocalRows.is_local_row};
ghost use Rattle.tier_tree.specs.Stored.{phasers_of};
ghost use Rattle.loader.specs.Program.{row_at};
ghost use Rattle.thread_state.specs.Thread.{ThreadState, is_finished, top_of};
ghost use Rattle.machine_scene.specs.{Scene.scene_of, Scene.thread_at, Scene.cell_at, Scene.barrier_at, Played.IsPlayed};
ghost use Rattle.machine_scene.specs.{DataRows.runs, DataRows.may_grow, Undo.PhasersWithin, Undo.reach_of_row, Undo.reach_in};
ghost use Rattle.machine_scene.specs.Outcomes.{outcome_in, outcome_of, outcome_of_row, outcome_of_expiry, is_ready, timeout_in};
ghost use Rattle.machine_scene.specs.Sound.{IsSound, StandsAt, most_before, most_after};
ghost use Rattle.machine_scene.specs.ReadySet.{KnowsReady, AreOthersReady, changes_all};

use crate::ready_set::ReadySet;
use cyclic_barrier::Barrier;
use instruction_table::{Group, Row, group_of};
use loader::Loaded;
use std::alloc::{AllocError, Global};
use std::marker::Model;
use thread_state::{Event, Mark, Status, Thread, What};
use tier_tree::{Forest, PhaserId};

mod barrier_rows;
mod call_rows;
mod common_turns;
mod data_rows;
mod getter_rows;
mod own_rows;
mod phaser_rows;
mod ready;
mod ready_set;
mod standing;
mod undo;
mod unwinding;
mod waits;

/// What the rows act on: the shared cells, the threads, the phasers in their trees, and the barriers.
#[derive(Drop)]
pub struct Stage {
    cells: [i32; 32],
    threads: Vec<Thread>,
    phasers: Forest,
    barriers: Vec<Barrier>,
    ready: ReadySet,
}

impl Model for Stage {
    ghost use Rattle.std.specs.Prelude.{◌≤◌, length};
    ghost use Rattle.machine_scene.specs.Scene.{StoredScene};

    ghost Value = { StoredScene };

    ghost view = { λ stage. record {
      cells = stage.cells;
      threads = stage.threads.items;
      phasers = stage.phasers;
      barriers = stage.barriers.items;
      ready = stage.ready;
    } };

    ghost invariant = { λ stage.
        (length stage.threads.items ≤ 64) × (length stage.barriers.items ≤ 64) };
}

/// Returns an event without a mark: a trace shows only what the turn did to its own thread.
fn alone(what: What) -> Event
    ensures { result ≡ record { what = what; mark = Mark.Nothing } }
{
    Event {
        what,
        mark: Mark::Nothing,
    }
}

/// Returns copies of the threads, word for word.
fn copies(alloc: Global, threads: &[Thread]) -> Result<Vec<Thread>, AllocError>
    ensures { IfOk result (λ copies. copies.items ≡ threads.now) }
{
    let mut copies = Vec::with_capacity(alloc, threads.len())?;
    for thread in threads {
        copies.push(thread.copy(alloc)?)?;
    }
    Ok(copies)
}

impl Stage {
    /// Makes a stage with these threads, phasers and barriers, which fit the program. All cells are 0. The sets of ready
    /// threads are empty at first, since `ready_sets` computes them from the finished stage.
    pub fn new(
        program: &Loaded,
        threads: Vec<Thread>,
        phasers: Forest,
        barriers: Vec<Barrier>,
    ) -> Stage
        requires threads { length threads.items ≤ 64 }
        requires barriers { length barriers.items ≤ 64 }
        requires sound { IsSound program.now most_after (record {
          cells = replicate 32 (pos 0);
          threads = threads.items;
          phasers = phasers_of phasers;
          barriers = barriers.items;
        }) }
        ensures stage { result ≡ record {
          cells = replicate 32 (pos 0);
          threads = threads.items;
          phasers = phasers;
          barriers = barriers.items;
          ready = result.ready;
        } }
        ensures ready { KnowsReady program.now result }
    {
        let mut stage = Stage {
            cells: [0; 32],
            threads,
            phasers,
            barriers,
            ready: ReadySet {
                turns: 0,
                registering: 0,
            },
        };
        stage.ready = stage.ready_sets(program);
        stage
    }

    /// Returns a copy of the stage: cells, threads, phasers, barriers and the ready threads, word for word.
    pub fn copy(&self, alloc: Global) -> Result<Stage, AllocError>
        ensures { IfOk result (λ copy. copy ≡ self.now) }
    {
        Ok(Stage {
            cells: self.cells,
            threads: copies(alloc, self.threads.as_slice())?,
            phasers: self.phasers.copy(alloc)?,
            barriers: Vec::from_slice(alloc, self.barriers.as_slice())?,
            ready: self.ready,
        })
    }

    /// Returns how many threads there are.
    pub fn thread_count(&self) -> usize
        ensures count { result ≡ length self.now.threads }
        ensures few { result ≤ 64 }
    {
        self.threads.len()
    }

    /// Returns thread `t`.
    pub fn thread(&self, t: usize) -> &Thread
        requires { t < length self.now.threads }
        ensures { result.now ≡ thread_at (scene_of self.now) t }
    {
        &self.threads[t]
    }

    /// Returns the phasers.
    pub fn forest(&self) -> &Forest
        ensures { result.now ≡ self.now.phasers }
    {
        &self.phasers
    }

    /// Returns this phaser's number as the forest's functions take it. The phaser exists: by `is_forest`, its number fits a
    /// `u8`.
    fn phaser_id(&self, phaser: u16) -> PhaserId
        requires { phaser < length self.now.phasers }
        ensures { result.0 ≡ phaser }
    {
        self.phasers.is_forest();
        PhaserId(phaser as u8)
    }

    /// Returns how many barriers there are.
    pub fn barrier_count(&self) -> usize
        ensures count { result ≡ length self.now.barriers }
        ensures few { result ≤ 64 }
    {
        self.barriers.len()
    }

    /// Returns barrier `b`.
    pub fn barrier(&self, b: usize) -> &Barrier
        requires { b < length self.now.barriers }
        ensures { result.now ≡ barrier_at (scene_of self.now) b }
    {
        &self.barriers[b]
    }

    /// Returns the numbers in the 32 cells.
    pub fn cells(&self) -> &[i32; 32]
        ensures { result.now ≡ self.now.cells }
    {
        &self.cells
    }

    /// Returns whether every thread has ended or died.
    pub fn has_ended(&self) -> bool
        ensures { result ≡ list_all (λ (thread : ThreadState). is_finished thread.status) self.now.threads }
    {
        self.threads.iter().all(|thread| thread.is_finished())
    }

    /// Returns the row that a thread is at, before a step. `turn_is_placed` proves `StandsAt`: what the row names exists.
    #[inline(always)]
    pub(crate) fn row_of(&self, program: &Loaded, t: usize) -> Row
        requires sound { IsSound program.now most_before (scene_of self.now) }
        requires thread { t < length self.now.threads }
        ensures row { result ≡ row_at program.now.rows (thread_at (scene_of self.now) t).pc }
        ensures at { StandsAt program.now result t self.now }
    {
        let row = program.rows()[self.threads[t].pc() as usize];
        self.turn_is_placed(program, row, t);
        row
    }

    /// Returns the number in a cell.
    pub fn cell(&self, number: usize) -> i32
        requires { number < 32 }
        ensures { result ≡ cell_at (scene_of self.now) number }
    {
        self.cells[number]
    }

    /// Returns whether thread `t` can take a turn now. The stored set tells this: only the contract uses `program`.
    #[inline(always)]
    pub fn is_ready(&self, program: &Loaded, t: usize) -> bool
        requires ready { KnowsReady program.now self.now }
        requires thread { t < length self.now.threads }
        ensures { result ≡ is_ready t program.now (scene_of self.now) }
    {
        ready_set::is_in(self.ready.turns, t)
    }

    /// Returns whether a thread's timed wait can expire now: the thread isn't runnable, and the action of the barrier that it
    /// waits at isn't running.
    pub fn can_expire(&self, program: &Loaded, t: usize) -> bool
        requires sound { IsSound program.now most_before (scene_of self.now) }
        requires known { KnowsReady program.now self.now }
        requires thread { t < length self.now.threads }
        ensures { result ≡ is_some (outcome_of_expiry t program.now (scene_of self.now)) }
    {
        if self.is_ready(program, t) {
            return false;
        }
        let row = self.row_of(program, t);
        self.has_time(row, t)
    }

    /// Plays the turn of a thread that can take one, and updates the sets of ready threads. `Err`: no memory for the value that
    /// `out` appends, and nothing has changed. `IsPlayed` says that scene and event are those of `outcome_of`, and that the
    /// turn can be undone.
    #[inline(always)]
    pub fn turn(&mut self, program: &Loaded, t: usize) -> Result<Event, AllocError>
        requires sound { IsSound program.now most_before (scene_of self.old) }
        requires known { KnowsReady program.now self.old }
        requires thread { t < length self.old.threads }
        requires ready { is_ready t program.now (scene_of self.old) ≡ true }
        ensures ok { IfOk result (λ event.
            IsPlayed (outcome_of t program.now (scene_of self.old)) t program.now self.old self.new event) }
        ensures known { OnOk result (KnowsReady program.now self.new) }
        ensures memory { IsErr result → may_grow
            (row_at program.now.rows (thread_at (scene_of self.old) t).pc)
            (thread_at (scene_of self.old) t) ≡ true }
        ensures err { OnErr result (self.new ≡ self.old) }
    {
        let row = self.row_of(program, t);
        let before = self.ready;
        match self.play(program, row, t) {
            Ok(event) => {
                self.ready = self.ready_after(program, before, row, event, t);
                Ok(event)
            }
            Err(refused) => Err(refused),
        }
    }

    /// Plays the turn of a thread that is at this row. The caller then updates the sets of ready threads. `Err` as in `turn`.
    #[inline(always)]
    fn play(&mut self, program: &Loaded, row: Row, t: usize) -> Result<Event, AllocError>
        requires sound { IsSound program.now most_before (scene_of self.old) }
        requires thread { t < length self.old.threads }
        requires row { row ≡ row_at program.now.rows (thread_at (scene_of self.old) t).pc }
        requires at { StandsAt program.now row t self.old }
        requires ready { is_ready t program.now (scene_of self.old) ≡ true }
        ensures ok { IfOk result (λ event.
            IsPlayed (outcome_of t program.now (scene_of self.old)) t program.now self.old self.new event) }
        ensures err { OnErr result (self.new ≡ self.old) }
        ensures memory { IsErr result → may_grow row (thread_at (scene_of self.old) t) ≡ true }
        ensures others { IfOk result (λ event. KnowsReady program.now self.old → changes_all row event ≡ false
            → AreOthersReady program.now t row self.old.ready (scene_of self.new)) }
    {
        self.phasers_are_stored();
        // The result is passed on unchanged: each arm names its case for the proof.
        match self.play_by_status(program, row, t) {
            Ok(event) => Ok(event),
            Err(refused) => Err(refused),
        }
    }

    /// Plays a turn by what the thread is doing: it plays its row, pops a stack entry, or ends its wait. `Err` as in `turn`.
    #[inline(always)]
    #[tactic(auto, using(crate::proofs::Reaches::within_same))]
    fn play_by_status(&mut self, program: &Loaded, row: Row, t: usize) -> Result<Event, AllocError>
        requires sound { IsSound program.now most_before (scene_of self.old) }
        requires thread { t < length self.old.threads }
        requires at { StandsAt program.now row t self.old }
        requires ready { is_some (outcome_in (thread_at (scene_of self.old) t).status row t program.now
            (scene_of self.old)) ≡ true }
        ensures ok { IfOk result (λ event. outcome_in (thread_at (scene_of self.old) t).status row t
            program.now (scene_of self.old)
            ≡ Some (record { scene = scene_of self.new; event = event })) }
        ensures err { OnErr result (self.new ≡ self.old) }
        ensures memory { IsErr result → may_grow row (thread_at (scene_of self.old) t) ≡ true }
        ensures phasers { PhasersWithin (reach_in (thread_at (scene_of self.old) t).status row
            (top_of (thread_at (scene_of self.old) t).stack)) self.old.phasers self.new.phasers }
    {
        match self.threads[t].status() {
            Status::Runs => self.play_row(program, row, t),
            Status::Throws(code) => Ok(self.unwind(program, code, t)),
            Status::AwaitsPhase(phase) => Ok(self.finish_phase_wait(row, phase, t)),
            Status::AwaitsBarrier(index) => Ok(self.finish_barrier_wait(row, index, t)),
            Status::Ended | Status::Died(_) => unreachable!(),
        }
    }

    /// Plays the row of a running thread, by the function of the row's group. `Err` as in `turn`. Only the words (packed
    /// states) from the phaser of the row's `Reach` up to its root change (`phasers`), so that they can be restored.
    #[tactic(auto, using(crate::proofs::Reaches::within_same))]
    fn play_row(&mut self, program: &Loaded, row: Row, t: usize) -> Result<Event, AllocError>
        requires sound { IsSound program.now most_before (scene_of self.old) }
        requires thread { t < length self.old.threads }
        requires at { StandsAt program.now row t self.old }
        requires ready { is_some (outcome_of_row row t program.now (scene_of self.old)) ≡ true }
        requires runs { (thread_at (scene_of self.old) t).status ≡ Status.Runs }
        ensures ok { IfOk result (λ event. outcome_of_row row t program.now (scene_of self.old)
            ≡ Some (record { scene = scene_of self.new; event = event })) }
        ensures err { OnErr result (self.new ≡ self.old) }
        ensures memory { IsErr result → may_grow row (thread_at (scene_of self.old) t) ≡ true }
        ensures phasers { PhasersWithin (reach_of_row row (top_of (thread_at (scene_of self.old) t).stack))
            self.old.phasers self.new.phasers }
    {
        match group_of(row) {
            Group::Own => Ok(self.own_row(row, t)),
            Group::Calls => Ok(self.call_row(program, row, t)),
            Group::Data => self.data_row(row, t),
            Group::Phasers => Ok(self.phaser_row(program, row, t)),
            Group::Getters => Ok(self.getter_row(row, t)),
            Group::Barriers => Ok(self.barrier_row(program, row, t)),
        }
    }

    /// Ends a timed wait that can expire: the thread throws `TimeoutException`. It also updates the sets of ready threads.
    pub fn expire(&mut self, program: &Loaded, t: usize) -> Event
        requires sound { IsSound program.now most_before (scene_of self.old) }
        requires known { KnowsReady program.now self.old }
        requires thread { t < length self.old.threads }
        requires ready { is_some (outcome_of_expiry t program.now (scene_of self.old)) ≡ true }
        ensures ok { IsPlayed (outcome_of_expiry t program.now (scene_of self.old)) t program.now self.old self.new result }
        ensures known { KnowsReady program.now self.new }
    {
        let row = self.row_of(program, t);
        let before = self.ready;
        let event = self.run_out(program, row, t);
        self.ready = self.ready_after(program, before, row, event, t);
        event
    }

    /// Ends a timed wait that can expire: the thread throws `TimeoutException`. The caller updates the sets of ready threads.
    fn run_out(&mut self, program: &Loaded, row: Row, t: usize) -> Event
        requires sound { IsSound program.now most_before (scene_of self.old) }
        requires thread { t < length self.old.threads }
        requires row { row ≡ row_at program.now.rows (thread_at (scene_of self.old) t).pc }
        requires at { StandsAt program.now row t self.old }
        requires ready { is_some (outcome_of_expiry t program.now (scene_of self.old)) ≡ true }
        ensures ok { IsPlayed (outcome_of_expiry t program.now (scene_of self.old)) t program.now self.old self.new result }
        ensures others { KnowsReady program.now self.old → changes_all row result ≡ false
            → AreOthersReady program.now t row self.old.ready (scene_of self.new) }
    {
        self.phasers_are_stored();
        self.run_out_by_status(program, row, t)
    }

    /// Ends a timed wait by what the thread waits for: a phase, or a barrier, which breaks.
    fn run_out_by_status(&mut self, program: &Loaded, row: Row, t: usize) -> Event
        requires thread { t < length self.old.threads }
        requires at { StandsAt program.now row t self.old }
        requires not_ready { is_some (outcome_in (thread_at (scene_of self.old) t).status row t program.now
            (scene_of self.old)) ≡ false }
        requires ready { is_some (timeout_in (thread_at (scene_of self.old) t).status row t
            (scene_of self.old)) ≡ true }
        ensures outcome { timeout_in (thread_at (scene_of self.old) t).status row t (scene_of self.old)
            ≡ Some (record { scene = scene_of self.new; event = result }) }
        ensures phasers { self.new.phasers ≡ self.old.phasers }
    {
        match self.threads[t].status() {
            Status::AwaitsPhase(_) => self.expire_phase_wait(row, t),
            Status::AwaitsBarrier(index) => self.expire_barrier_wait(row, index, t),
            _ => unreachable!(),
        }
    }
}
