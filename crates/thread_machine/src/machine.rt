//! The machine: it plays choices, counts them, and takes them back. A `Stage` plays the rows.
ghost use Rattle.std.specs.Prelude.{◌≡◌, ℕ, ◌+◌, ◌<◌, ◌≤◌, length, map, IfOk, IfErr, Ok, Err, true, false, Some, None};
ghost use Rattle.cyclic_barrier.specs.ThreadSet.{has};
ghost use Rattle.machine_scene.specs.{Scene.scene_of, Scene.first_scene, Scene.starting, Outcomes.is_ready};
ghost use Rattle.machine_scene.specs.ReadySet.{KnowsReady};
ghost use Rattle.thread_machine.specs.{World.world_of, World.first_world, Idle.idle_event, Standing.standing_of, Step.played};
ghost use Rattle.thread_machine.specs.Ready.{can_expire, is_choice_ready, has_ended, is_stuck, some_ready};
ghost use Rattle.thread_machine.specs.{Sound.IsMachine, Undo.undone, Undo.CanUndo};
ghost use Rattle.thread_machine.specs.Stepped.{HasPlayed, IsStep, kept_of};

mod getters;
mod idle;

use crate::choice::Choice;
use crate::fault::StepFault;
use crate::standing::Standing;
use crate::undo::Undo;
use loader::Loaded;
use machine_scene::{Stage, a_first_scene_is_sound, set_at};
use row_code::DeclaredThread;
use std::alloc::{AllocError, Global};
use std::marker::Model;
use thread_state::{Event, Mark, Thread, What};

/// The event of an idle choice.
const IDLE: Event = Event {
    what: What::Idle,
    mark: Mark::Nothing,
};

/// The most choices that a machine takes.
const MOST_CHOICES: u64 = 1_000_000_000_000;

/// A loaded program with its threads, cells, phasers and barriers, and the counts of its choices and steps.
#[derive(Drop)]
pub struct Machine {
    program: Loaded,
    stage: Stage,
    limit: u32,
    choices: u64,
    steps: u32,
}

impl Model for Machine {
    ghost use Rattle.thread_machine.specs.{World.StoredWorld, Sound.IsMachine};

    ghost Value = { StoredWorld };

    ghost view = { λ machine. record {
      program = machine.program;
      limit = machine.limit;
      scene = machine.stage;
      choices = machine.choices;
      steps = machine.steps;
    } };

    ghost invariant = { λ machine. IsMachine (record {
      program = machine.program;
      limit = machine.limit;
      scene = machine.stage;
      choices = machine.choices;
      steps = machine.steps;
    }) };
}

/// Makes the threads, each at its first row.
fn new_threads(alloc: Global, declared: &[DeclaredThread]) -> Result<Vec<Thread>, AllocError>
    ensures { IfOk result (λ threads. threads.items ≡ map starting declared.now) }
{
    let mut threads = Vec::with_capacity(alloc, declared.len())?;
    for thread in declared {
        threads.push(Thread::new(alloc, thread.first_row)?)?;
    }
    Ok(threads)
}

/// Makes the stage of the program before the first choice. The first two calls only help to prove that the stage is sound.
fn first_stage(alloc: Global, program: &Loaded) -> Result<Stage, AllocError>
    ensures stored { IfOk result (λ stage. stage.phasers ≡ program.now.phasers) }
    ensures scene { IfOk result (λ stage. scene_of stage ≡ first_scene program.now) }
    ensures ready { IfOk result (λ stage. KnowsReady program.now stage) }
{
    program.each_program_is_whole();
    a_first_scene_is_sound(program);
    let threads = new_threads(alloc, program.threads())?;
    let forest = program.phasers().copy(alloc)?;
    let barriers = Vec::from_slice(alloc, program.barriers())?;
    Ok(Stage::new(program, threads, forest, barriers))
}

impl Machine {
    /// Makes the machine of a program, for at most `limit` effective steps. Later the machine allocates memory only for values
    /// that threads put out. `each_program_is_whole` and `is_forest` only serve the proof.
    pub fn new(alloc: Global, program: Loaded, limit: u32) -> Result<Machine, AllocError>
        requires { limit ≤ 1000000000 }
        ensures { IfOk result (λ machine. world_of machine ≡ first_world program limit) }
    {
        program.each_program_is_whole();
        let stage = first_stage(alloc, &program)?;
        stage.forest().is_forest();
        Ok(Machine {
            program,
            stage,
            limit,
            choices: 0,
            steps: 0,
        })
    }

    /// Returns a copy of the machine, word for word.
    pub fn copy(&self, alloc: Global) -> Result<Machine, AllocError>
        ensures { IfOk result (λ copy. copy ≡ self.now) }
    {
        Ok(Machine {
            program: self.program.copy(alloc)?,
            stage: self.stage.copy(alloc)?,
            limit: self.limit,
            choices: self.choices,
            steps: self.steps,
        })
    }

    /// Plays one choice. The turn of a thread that isn't runnable, or the expiry of a wait that can't expire, is idle: it is
    /// only counted. `Memory` is returned only at the row `out`.
    #[inline(always)]
    pub fn step(&mut self, choice: Choice) -> Result<Event, StepFault>
        ensures { IsStep self.old choice result (kept_of choice self.old) self.new }
    {
        self.is_sound();
        if choice.thread as usize >= self.stage.thread_count() {
            return Err(StepFault::NoSuchThread);
        }
        self.play(choice)
    }

    /// Plays one choice: idle and common turns (`Stage::common_turn`) itself, all others by `seldom`. It first checks that a
    /// choice is left.
    #[inline(always)]
    fn play(&mut self, choice: Choice) -> Result<Event, StepFault>
        requires there { choice.thread < length self.old.scene.threads }
        ensures { HasPlayed self.old choice result self.new }
    {
        let t = choice.thread as usize;
        if self.choices == MOST_CHOICES {
            return Err(StepFault::StepLimit);
        }
        if choice.expiry {
            return self.seldom(choice);
        }
        if !self.stage.is_ready(&self.program, t) {
            self.stay(choice);
            return Ok(IDLE);
        }
        if self.steps == self.limit {
            return Err(StepFault::StepLimit);
        }
        match self.stage.common_turn(&self.program, t) {
            Some(event) => {
                self.choices += 1;
                self.steps += 1;
                Ok(event)
            }
            None => self.seldom(choice),
        }
    }

    /// Plays a turn that isn't common, or an expiry. `seldom_step` writes the result to the variable `told`, which a common
    /// turn doesn't need: so only `seldom` has it.
    #[inline(always)]
    fn seldom(&mut self, choice: Choice) -> Result<Event, StepFault>
        requires there { choice.thread < length self.old.scene.threads }
        requires choices { self.old.choices < 1000000000000 }
        requires turn { choice.expiry ≡ false → (self.old.steps < self.old.limit)
            × (is_ready choice.thread self.old.program (scene_of self.old.scene) ≡ true) }
        ensures { HasPlayed self.old choice result self.new }
    {
        let mut told = Ok(IDLE);
        self.seldom_step(choice, &mut told);
        told
    }

    /// Plays a turn that isn't common, or an expiry. `told` gets the result. The caller has put the result of an idle choice
    /// into it, so that an idle choice writes nothing.
    #[inline(never)]
    fn seldom_step(&mut self, choice: Choice, told: &mut Result<Event, StepFault>)
        requires there { choice.thread < length self.old.scene.threads }
        requires choices { self.old.choices < 1000000000000 }
        requires turn { choice.expiry ≡ false → (self.old.steps < self.old.limit)
            × (is_ready choice.thread self.old.program (scene_of self.old.scene) ≡ true) }
        requires told { told.old ≡ Ok idle_event }
        ensures { HasPlayed self.old choice told.new self.new }
    {
        if !choice.expiry {
            self.turn(choice, told);
        } else if !self.can_expire(choice.thread) {
            self.stay(choice);
        } else if self.steps == self.limit {
            *told = Err(StepFault::StepLimit);
        } else {
            self.expire(choice, told);
        }
    }

    /// Plays the turn of a thread that can take one, counts it, and writes the result to `told`. The result is `Memory` if
    /// memory runs out at the row `out`. Then nothing else changes.
    fn turn(&mut self, choice: Choice, told: &mut Result<Event, StepFault>)
        requires there { choice.thread < length self.old.scene.threads }
        requires choices { self.old.choices < 1000000000000 }
        requires steps { self.old.steps < self.old.limit }
        requires turn { choice.expiry ≡ false }
        requires ready { is_ready choice.thread self.old.program (scene_of self.old.scene) ≡ true }
        ensures { HasPlayed self.old choice told.new self.new }
    {
        match self.stage.turn(&self.program, choice.thread as usize) {
            Ok(event) => {
                self.choices += 1;
                self.steps += 1;
                *told = Ok(event);
            }
            Err(_) => *told = Err(StepFault::Memory),
        }
    }

    /// Ends a timed wait that can expire, counts the choice, and writes the event to `told`.
    fn expire(&mut self, choice: Choice, told: &mut Result<Event, StepFault>)
        requires there { choice.thread < length self.old.scene.threads }
        requires choices { self.old.choices < 1000000000000 }
        requires steps { self.old.steps < self.old.limit }
        requires expiry { choice.expiry ≡ true }
        requires ready { can_expire choice.thread self.old.program (scene_of self.old.scene) ≡ true }
        ensures { HasPlayed self.old choice told.new self.new }
    {
        let event = self.stage.expire(&self.program, choice.thread as usize);
        self.choices += 1;
        self.steps += 1;
        *told = Ok(event);
    }

    /// Plays one choice, and `undo` gets what `take_back` needs. After `Err` the machine is as before, and `undo` is useless.
    #[inline(always)]
    pub fn step_into(&mut self, choice: Choice, undo: &mut Undo) -> Result<Event, StepFault>
        ensures { IsStep self.old choice result undo.new self.new }
    {
        self.is_sound();
        let t = choice.thread as usize;
        if t >= self.stage.thread_count() {
            return Err(StepFault::NoSuchThread);
        }
        self.stage.note(&self.program, t, &mut undo.note);
        let is_turn = self.is_choice_ready(choice);
        let played = self.play(choice);
        undo.is_turn = is_turn;
        played
    }

    /// Plays one choice. Returns its event, and what `back` needs to undo it.
    pub fn step_noting(&mut self, choice: Choice) -> Result<(Event, Undo), StepFault>
        ensures step { IfOk result (λ both. IsStep self.old choice (Ok both.0) both.1 self.new) }
        ensures refused { IfErr result (λ fault. IsStep self.old choice (Err fault) None self.new) }
    {
        let mut undo = Undo::new();
        match self.step_into(choice, &mut undo) {
            Ok(event) => Ok((event, undo)),
            Err(fault) => Err(fault),
        }
    }

    /// Undoes the last choice with what was saved of it: the machine is as before, word for word.
    pub fn back(&mut self, undo: Undo)
        requires { CanUndo undo self.old }
        ensures { self.new ≡ undone undo self.old }
    {
        self.take_back(&undo);
    }

    /// Undoes the last choice: its count, and if it was a step, what the step changed. `undo` can then be used again.
    pub fn take_back(&mut self, undo: &Undo)
        requires { CanUndo undo.now self.old }
        ensures { self.new ≡ undone undo.now self.old }
    {
        self.choices -= 1;
        if undo.is_turn {
            self.stage.undo(&undo.note);
            self.steps = self.steps.saturating_sub(1);
        }
    }

    /// Plays an idle choice: it only counts it.
    #[tactic(auto, using(crate::proofs::Readiness::idle_choice))]
    fn stay(&mut self, choice: Choice)
        requires choices { self.old.choices < 1000000000000 }
        requires idle { is_choice_ready self.old.program choice (scene_of self.old.scene) ≡ false }
        ensures played { record { world = world_of self.new; event = idle_event } ≡ played (world_of self.old) choice }
        ensures stored { self.new ≡ record self.old { choices = self.old.choices + 1 } }
    {
        self.choices += 1;
    }

    /// Returns whether a choice would be a step: the turn of a runnable thread, or the expiry of a wait that can expire.
    fn is_choice_ready(&self, choice: Choice) -> bool
        requires { choice.thread < length self.now.scene.threads }
        ensures { result ≡ is_choice_ready self.now.program choice (scene_of self.now.scene) }
    {
        if choice.expiry {
            self.can_expire(choice.thread)
        } else {
            self.stage.is_ready(&self.program, choice.thread as usize)
        }
    }

    /// A law: every machine fulfils `IsMachine`. The read of a field brings the invariant of `Machine` into the proof.
    fn is_sound(&self)
        ensures { IsMachine self.now }
    {
        let _ = &self.limit;
    }

    /// Returns whether a thread can take a step, so that its turn wouldn't be idle.
    pub fn is_ready(&self, thread: u8) -> bool
        requires { thread < length self.now.scene.threads }
        ensures { result ≡ is_ready thread self.now.program (scene_of self.now.scene) }
    {
        self.stage.is_ready(&self.program, thread as usize)
    }

    /// Returns whether a thread's timed wait can expire: the thread isn't runnable, and no thread runs the action of the
    /// barrier that it waits at.
    pub fn can_expire(&self, thread: u8) -> bool
        requires { thread < length self.now.scene.threads }
        ensures { result ≡ can_expire thread self.now.program (scene_of self.now.scene) }
    {
        self.stage.can_expire(&self.program, thread as usize)
    }

    /// Returns the choices that would be steps, and not idle, as two sets with bit t for thread t: turns and expiries.
    pub fn enabled(&self) -> (u64, u64)
        ensures turns { (t : ℕ) → has result.0 t ≡ is_ready t self.now.program (scene_of self.now.scene) }
        ensures expiries { (t : ℕ) → has result.1 t ≡ can_expire t self.now.program (scene_of self.now.scene) }
    {
        let mut turns = 0;
        let mut expiries = 0;
        for t in 0..self.thread_count() {
            turns = set_at(turns, t, self.is_ready(t as u8));
            expiries = set_at(expiries, t, self.can_expire(t as u8));
        }
        (turns, expiries)
    }

    /// Returns whether every thread has ended or died.
    pub fn ended(&self) -> bool
        ensures { result ≡ has_ended (world_of self.now) }
    {
        self.stage.has_ended()
    }

    /// Returns whether some thread hasn't ended or died, but no choice can take a step.
    pub fn stuck(&self) -> bool
        ensures { result ≡ is_stuck (world_of self.now) }
    {
        !self.ended() && !self.some_ready()
    }

    /// Returns whether the program has ended, is stuck, or can go on.
    pub fn standing(&self) -> Standing
        ensures { result ≡ standing_of (world_of self.now) }
    {
        if self.ended() {
            Standing::All
        } else if self.stuck() {
            Standing::Stuck
        } else {
            Standing::Live
        }
    }

    /// Returns whether some choice can take a step.
    fn some_ready(&self) -> bool
        ensures { result ≡ some_ready self.now.program (scene_of self.now.scene) }
    {
        if self.stage.ready_thread(&self.program).is_some() {
            return true;
        }
        for t in 0..self.thread_count() {
            if self.can_expire(t as u8) {
                return true;
            }
        }
        false
    }
}
