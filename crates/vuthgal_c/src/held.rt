//! A debugger, its last reply, and its program.
ghost use Rattle.std.specs.Prelude.{◌≡◌, ◌≢◌, ◌<◌, ◌++◌, List, ℕ, [], Some, Err, true, false, IfErr, IfOk, OnErr, OnOk, length, take};
ghost use Rattle.std.specs.Io.KnownBytes.{Appends};
ghost use Rattle.debugger.specs.{Command.line_order, Go.Refuses, Reply.Replies, Session.went_back};
ghost use Rattle.machine_scene.specs.Scene.{scene_of, thread_at};
ghost use Rattle.thread_machine.specs.World.{world_of};
ghost use Rattle.schedule_reader.specs.Schedule.{choices_of};
ghost use Rattle.vuthgal_c.specs.Sessions.{HasLongReply, HasStepped, IsAgain, IsRefusedAgain, copy_of};

use crate::look::{EventLook, event_look};
use crate::session_sink::SessionSink;
use debugger::Debugger;
use row_code::Image;
use schedule_reader::Run;
use std::alloc::{AllocError, Global};
use std::marker::Model;
use thread_machine::{Choice, Machine, StepFault};
use trace_text::start::first_machine;

/// A debugger, the reply to its last command, and the program that it plays.
#[derive(Drop)]
pub struct Held {
    debugger: Debugger,
    reply: Vec<u8>,
    image: Image,
}

impl Model for Held {
    ghost use Rattle.vuthgal_c.specs.Sessions.{Kept};

    ghost Value = { Kept };

    ghost view = { λ held. record { debugger = held.debugger; reply = held.reply.items; image = held.image } };
}

/// How a command ended that has no reply, because it was out of memory.
pub enum Unanswered {
    /// It was not carried out.
    NotCarriedOut,
    /// It was carried out, and its reply is lost.
    ReplyLost,
}

/// Carries out a command and writes its reply to `shown`, which never fails. Returns false, and does nothing, without memory.
fn is_answered(debugger: &mut Debugger, command: &[u8], shown: &mut SessionSink) -> bool
    ensures done { result ≡ true → (text : List ℕ) × (Replies debugger.old (line_order command.now) debugger.new text
        × Appends (Some shown.old) (Some shown.new) text) }
    ensures none { result ≡ false → debugger.new ≡ debugger.old }
{
    match debugger.command(command, shown) {
        Ok(_) => true,
        Err(_) => false,
    }
}

/// Returns the row that a thread is at, or 0 if there is no such thread.
fn row_of(machine: &Machine, thread: u8) -> u16
    ensures { thread < length machine.now.scene.threads → result ≡ (thread_at (scene_of machine.now.scene) thread).pc }
{
    if usize::from(thread) < machine.thread_count() {
        machine.pc(thread)
    } else {
        0
    }
}

impl Held {
    /// Returns a session with this debugger, of this program, and an empty reply.
    pub fn new(alloc: Global, debugger: Debugger, image: Image) -> Held
        ensures { result ≡ record { debugger = debugger; reply = []; image = image } }
    {
        Held {
            debugger,
            reply: Vec::new(alloc),
            image,
        }
    }

    /// Returns a session in the same state, with an empty reply and no choices to take back.
    pub fn copy(&self, alloc: Global) -> Result<Held, AllocError>
        ensures { IfOk result (λ copy. copy ≡ copy_of self.now) }
    {
        let image = self.image.copy(alloc)?;
        Ok(Held::new(alloc, self.debugger.copy()?, image))
    }

    /// Returns the machine in its present state.
    pub fn machine(&self) -> &Machine
        ensures { result.now ≡ self.now.debugger.machine }
    {
        self.debugger.machine()
    }

    /// Plays a choice. Returns what it did, and the row that its thread was at before. If it is refused, nothing changes.
    pub fn step(&mut self, choice: Choice) -> Result<EventLook, StepFault>
        ensures done { IfOk result (λ event. HasStepped self.old choice self.new event) }
        ensures refused { IfErr result (λ fault. Refuses (world_of self.old.debugger.machine) choice fault) }
        ensures same { OnErr result (self.new ≡ self.old) }
    {
        let row = row_of(self.machine(), choice.thread);
        match self.debugger.step(choice) {
            Ok(event) => Ok(event_look(self.machine().choices(), row, event)),
            Err(fault) => Err(fault),
        }
    }

    /// Takes back the last choice. Returns false if no choice is kept that could be taken back.
    pub fn back(&mut self) -> bool
        ensures session { self.new ≡ record self.old { debugger = went_back self.old.debugger } }
        ensures kept { result ≡ false → self.old.debugger.past ≡ [] }
        ensures some { result ≡ true → self.old.debugger.past ≢ [] }
    {
        self.debugger.back().is_ok()
    }

    /// Goes to the state after the first `number` choices of `runs`, played from the beginning. Breakpoints and reply stay. If
    /// one of these choices is refused, nothing changes.
    pub fn go_to(&mut self, alloc: Global, runs: &[Run], number: u64) -> Result<(), StepFault>
        ensures there { OnOk result (IsAgain self.old (take number (choices_of runs.now)) self.new) }
        ensures refused { IfErr result (λ fault. fault ≢ StepFault.Memory
            → IsRefusedAgain self.old (take number (choices_of runs.now))) }
        ensures same { OnErr result (self.new ≡ self.old) }
    {
        let Ok(image) = self.image.copy(alloc) else {
            return Err(StepFault::Memory);
        };
        let Ok(first) = first_machine(alloc, image) else {
            return Err(StepFault::Memory);
        };
        self.debugger = self.debugger.again(first, runs, number)?;
        Ok(())
    }

    /// Returns the reply to the last command.
    pub fn reply(&self) -> &[u8]
        ensures { result.now ≡ self.now.reply }
    {
        self.reply.as_slice()
    }

    /// Carries out a command, a line without its LF, and keeps the reply. The error says whether it was carried out.
    pub fn command(&mut self, alloc: Global, line: &[u8]) -> Result<(), Unanswered>
        ensures done { OnOk result (Replies self.old.debugger (line_order line.now) self.new.debugger self.new.reply) }
        ensures image { OnOk result (self.new.image ≡ self.old.image) }
        ensures none { result ≡ Err Unanswered.NotCarriedOut → self.new ≡ self.old }
        ensures lost { result ≡ Err Unanswered.ReplyLost → HasLongReply self.old.debugger line.now }
    {
        let Ok(mut shown) = SessionSink::new(alloc) else {
            return Err(Unanswered::NotCarriedOut);
        };
        if !is_answered(&mut self.debugger, line, &mut shown) {
            return Err(Unanswered::NotCarriedOut);
        }
        match shown.into_all() {
            Some(reply) => {
                self.reply = reply;
                Ok(())
            }
            None => Err(Unanswered::ReplyLost),
        }
    }
}
