ghost use Rattle.std.specs.Prelude.{◌≡◌, ◌≢◌, ◌↔◌, ℕ, ◌+◌, ◌*◌, ◌<◌, ◌≤◌, ◌++◌, ◌∷◌, [], length, IfOk, IfErr, OnOk, OnErr, Err, true, false, Some, None};
ghost use Rattle.thread_machine.specs.{World.world_of, World.first_world, Step.played};
ghost use Rattle.schedule_reader.specs.{Schedule.choices_of, Schedule.finished_schedule, Record.record_text};
ghost use Rattle.thread_runner.specs.Recording.{recorded_world, begun, recording_of, with_choice};
ghost use Rattle.thread_runner.specs.Turns.{turn_of, expiry_of, choice_in, is_ready_in, can_expire_in, is_due, may_choose, some_turn, some_lower, IsDue, IsNext};
ghost use Rattle.thread_runner.specs.{Replay.IsRecordOf, Replay.IsReplay, Endings.ending_of, Waiting.has_finished};

use crate::ending::Ending;
use crate::fault::TakeFault;
use loader::Loaded;
use schedule_reader::{MOST_CHOICE_BYTES, push_choice};
use std::alloc::{AllocError, Global};
use std::marker::Model;
use thread_machine::{Choice, Event, Machine, Status};

/// A machine, and the choices that led to it, each of them a step.
#[derive(Drop)]
pub struct Journaled {
    machine: Machine,
    schedule: Vec<u8>,
}

impl Model for Journaled {
    ghost use Rattle.thread_machine.specs.World.{world_of, first_world};
    ghost use Rattle.thread_runner.specs.{Recording.Recording, Recording.recording_of, Replay.IsRecordOf};

    ghost Value = { Recording };

    ghost view = { λ journaled. recording_of
        (first_world journaled.machine.program journaled.machine.limit) journaled.schedule.items };

    ghost invariant = { λ journaled. IsRecordOf
        (first_world journaled.machine.program journaled.machine.limit) journaled.schedule.items
        (world_of journaled.machine) };
}

impl Journaled {
    /// Makes the machine of a program that takes at most `limit` steps, before the first choice.
    pub fn new(alloc: Global, program: Loaded, limit: u32) -> Result<Journaled, AllocError>
        requires { limit ≤ 1000000000 }
        ensures { IfOk result (λ journaled. journaled ≡ begun (first_world program limit)) }
    {
        Ok(Journaled {
            machine: Machine::new(alloc, program, limit)?,
            schedule: Vec::new(alloc),
        })
    }

    /// Takes a thread's turn, and records it. It fails if the thread isn't runnable, at the limit of steps, or without memory.
    pub fn take_step(&mut self, thread: u8) -> Result<Event, TakeFault>
        requires { thread < length self.old.first.scene.threads }
        ensures played { IfOk result (λ event. record { world = recorded_world self.new; event = event }
            ≡ played (recorded_world self.old) (turn_of thread)) }
        ensures recorded { OnOk result (self.new ≡ with_choice (turn_of thread) self.old) }
        ensures not_ready { (result ≡ Err TakeFault.NotReady)
            ↔ (is_ready_in (recorded_world self.old) thread ≡ false) }
        ensures limit { (result ≡ Err TakeFault.StepLimit) ↔ ((is_ready_in (recorded_world self.old) thread ≡ true)
            × ((recorded_world self.old).limit ≤ (recorded_world self.old).steps)) }
        ensures err { OnErr result (self.new ≡ self.old) }
    {
        if !self.machine.is_ready(thread) {
            return Err(TakeFault::NotReady);
        }
        self.take(Choice {
            thread,
            expiry: false,
        })
    }

    /// Lets a thread's timed wait expire, and records it. It fails if the wait isn't the next to expire (`is_due`), at the
    /// limit of steps, or without memory. The call of `has_few_threads` only helps the proof.
    pub fn take_expiry(&mut self, thread: u8) -> Result<Event, TakeFault>
        requires { thread < length self.old.first.scene.threads }
        ensures played { IfOk result (λ event. record { world = recorded_world self.new; event = event }
            ≡ played (recorded_world self.old) (expiry_of thread)) }
        ensures recorded { OnOk result (self.new ≡ with_choice (expiry_of thread) self.old) }
        ensures not_ready { (result ≡ Err TakeFault.NotReady)
            ↔ (is_due (recorded_world self.old) thread ≡ false) }
        ensures limit { (result ≡ Err TakeFault.StepLimit) ↔ ((is_due (recorded_world self.old) thread ≡ true)
            × ((recorded_world self.old).limit ≤ (recorded_world self.old).steps)) }
        ensures err { OnErr result (self.new ≡ self.old) }
    {
        self.has_few_threads();
        if !self.is_due(thread) {
            return Err(TakeFault::NotReady);
        }
        self.take(Choice {
            thread,
            expiry: true,
        })
    }

    /// Makes a choice that its thread has to make, and records it. It makes room in the record first, so that after a failure
    /// nothing has changed. The call of `has_few_threads` only helps the proof.
    pub(crate) fn take(&mut self, choice: Choice) -> Result<Event, TakeFault>
        requires thread { choice.thread < length self.old.first.scene.threads }
        requires due { IsDue (recorded_world self.old) choice }
        ensures played { IfOk result (λ event. record { world = recorded_world self.new; event = event }
            ≡ played (recorded_world self.old) choice) }
        ensures recorded { OnOk result (self.new ≡ with_choice choice self.old) }
        ensures ready { result ≢ Err TakeFault.NotReady }
        ensures limit { (result ≡ Err TakeFault.StepLimit)
            ↔ ((recorded_world self.old).limit ≤ (recorded_world self.old).steps) }
        ensures err { OnErr result (self.new ≡ self.old) }
    {
        self.has_few_threads();
        if self.machine.steps() == self.machine.limit() {
            return Err(TakeFault::StepLimit);
        }
        if self.schedule.reserve(MOST_CHOICE_BYTES).is_err() {
            return Err(TakeFault::Memory);
        }
        match self.machine.step(choice) {
            Ok(event) => {
                push_choice(&mut self.schedule, choice);
                Ok(event)
            }
            // The thread exists, and the limit isn't reached: only memory can be missing.
            Err(_) => Err(TakeFault::Memory),
        }
    }

    /// Returns how many threads there are, 1 to 64.
    pub fn thread_count(&self) -> usize
        ensures count { result ≡ length self.now.first.scene.threads }
        ensures now { result ≡ length (recorded_world self.now).scene.threads }
        ensures few { result ≤ 64 }
    {
        self.machine.thread_count()
    }

    /// A law: there are at most 64 threads, as many as at first. It calls `thread_count` only for what its contract says.
    pub(crate) fn has_few_threads(&self)
        ensures few { length self.now.first.scene.threads ≤ 64 }
        ensures now { length (recorded_world self.now).scene.threads ≡ length self.now.first.scene.threads }
    {
        let _ = self.thread_count();
    }

    /// Returns whether a thread's turn would be a step: whether it is runnable.
    pub fn is_ready(&self, thread: u8) -> bool
        requires { thread < length self.now.first.scene.threads }
        ensures { result ≡ is_ready_in (recorded_world self.now) thread }
    {
        self.machine.is_ready(thread)
    }

    /// Returns whether a thread's timed wait is the next to expire: nobody is runnable, and no lower thread's wait can expire.
    pub fn is_due(&self, thread: u8) -> bool
        requires { thread < length self.now.first.scene.threads }
        ensures { result ≡ is_due (recorded_world self.now) thread }
    {
        self.can_expire(thread) && !self.some_turn() && !self.some_lower(thread)
    }

    /// Returns whether the thread's timed wait can expire.
    fn can_expire(&self, thread: u8) -> bool
        requires { thread < length self.now.first.scene.threads }
        ensures { result ≡ can_expire_in (recorded_world self.now) thread }
    {
        self.machine.can_expire(thread)
    }

    /// Returns whether a thread has a choice to make: it is runnable, or its wait is the next to expire.
    pub fn may_choose(&self, thread: u8) -> bool
        requires { thread < length self.now.first.scene.threads }
        ensures { result ≡ may_choose (recorded_world self.now) thread }
    {
        self.is_ready(thread) || self.is_due(thread)
    }

    /// Returns whether a thread has ended or died.
    pub fn has_finished(&self, thread: u8) -> bool
        requires { thread < length self.now.first.scene.threads }
        ensures { result ≡ has_finished (recorded_world self.now) thread }
    {
        matches!(self.machine.status(thread), Status::Ended | Status::Died(_))
    }

    /// Returns the choice that a thread has to make, if it has one: its turn, or if it isn't runnable, its wait's expiry.
    pub(crate) fn choice_of(&self, thread: u8) -> Choice
        requires { thread < length self.now.first.scene.threads }
        ensures { result ≡ choice_in (recorded_world self.now) thread }
    {
        Choice {
            thread,
            expiry: !self.is_ready(thread),
        }
    }

    /// Makes the choice of the lowest thread that has one, and records it. The run isn't over: so only memory can be missing.
    #[tactic(auto, using(crate::proofs::Choosing::step_left))]
    pub fn take_next(&mut self) -> Result<Event, TakeFault>
        requires { ending_of (recorded_world self.old) ≡ None }
        ensures first { self.new.first ≡ self.old.first }
        ensures more { OnOk result (length self.new.choices ≡ length self.old.choices + 1) }
        ensures recorded { OnOk result ((t : ℕ) × (IsNext (recorded_world self.old) t
            × (self.new ≡ with_choice (choice_in (recorded_world self.old) t) self.old))) }
        ensures memory { IfErr result (λ fault. fault ≡ TakeFault.Memory) }
        ensures err { OnErr result (self.new ≡ self.old) }
    {
        for t in 0..self.thread_count() {
            if self.may_choose(t as u8) {
                return self.take(self.choice_of(t as u8));
            }
        }
        unreachable!()
    }

    /// A law: the machine of every record is the one to which the recorded choices lead. The function does nothing.
    pub fn each_record_is_a_replay(&self)
        ensures { IsReplay self.now (recorded_world self.now) }
    {
        // Naming a field tells the proof what always holds for a record.
        let _ = &self.schedule;
    }

    /// Returns whether some thread is runnable.
    fn some_turn(&self) -> bool
        ensures { result ≡ some_turn (recorded_world self.now) }
    {
        for t in 0..self.thread_count() {
            if self.is_ready(t as u8) {
                return true;
            }
        }
        false
    }

    /// Returns whether the timed wait of some lower thread can expire.
    fn some_lower(&self, thread: u8) -> bool
        requires { thread < length self.now.first.scene.threads }
        ensures { result ≡ some_lower (recorded_world self.now) thread }
    {
        for t in 0..thread {
            if self.can_expire(t) {
                return true;
            }
        }
        false
    }

    /// Returns the machine to which the recorded choices lead.
    pub fn machine(&self) -> &Machine
        ensures world { world_of result.now ≡ recorded_world self.now }
        ensures threads { length result.now.scene.threads ≡ length self.now.first.scene.threads }
    {
        &self.machine
    }

    /// Returns the recorded choices as a schedule: a token for each, one space between them.
    pub fn schedule(&self) -> &[u8]
        ensures text { result.now ≡ record_text self.now.choices }
        ensures few { length result.now ≤ 4 * length self.now.choices }
        ensures fault { (finished_schedule result.now).fault ≡ None }
        ensures choices { choices_of (finished_schedule result.now).runs ≡ self.now.choices }
    {
        self.schedule.as_slice()
    }

    /// Returns the record as a schedule, and the machine to which it leads. Neither is copied.
    pub fn into_parts(self) -> (Vec<u8>, Machine)
        ensures first { self.first ≡ first_world result.1.program result.1.limit }
        ensures choices { self ≡ recording_of self.first result.0.items }
        ensures record { IsRecordOf self.first result.0.items (world_of result.1) }
        ensures machine { world_of result.1 ≡ recorded_world self }
    {
        (self.schedule, self.machine)
    }

    /// Returns how the run has ended. `None`: some choice can still take a step, and the limit isn't reached.
    pub fn ending(&self) -> Option<Ending>
        ensures { result ≡ ending_of (recorded_world self.now) }
    {
        if self.machine.ended() {
            return Some(Ending::AllEnded);
        }
        if self.machine.stuck() {
            return Some(Ending::Stuck);
        }
        if self.machine.steps() == self.machine.limit() {
            return Some(Ending::Limit);
        }
        None
    }
}
