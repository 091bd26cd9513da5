ghost use Rattle.std.specs.Prelude.{◌≡◌, ◌≤◌, None};
ghost use Rattle.thread_state.specs.Undo.{note_of, undone};

use super::Thread;
use crate::frame::Frame;
use crate::status::Status;
use instruction_table::Regs;
use std::marker::Model;

/// What is saved of a thread before a turn, to undo the turn. It has a fixed size: a turn pushes or pops at most one stack
/// entry, and puts out at most one value.
#[derive(Drop)]
pub struct ThreadNote {
    pc: u16,
    registers: Regs,
    status: Status,
    interrupted: bool,
    depth: u8,
    top: Option<Frame>,
    outputs: u16,
}

impl Model for ThreadNote {
    ghost use Rattle.std.specs.Prelude.{◌≤◌};
    ghost use Rattle.thread_state.specs.Undo.{Note};

    ghost Value = { Note };

    ghost view = { λ note. record {
      pc = note.pc;
      registers = note.registers;
      status = note.status;
      interrupted = note.interrupted;
      depth = note.depth;
      top = note.top;
      outputs = note.outputs;
    } };

    ghost invariant = { λ note. (note.depth ≤ 64) × (note.outputs ≤ 4096) };
}

impl ThreadNote {
    /// Makes a note with no meaning yet: `Thread::note` overwrites it before each turn.
    pub fn new() -> ThreadNote
        ensures { result.top ≡ None }
    {
        ThreadNote {
            pc: 0,
            registers: Regs::new(),
            status: Status::Runs,
            interrupted: false,
            depth: 0,
            top: None,
            outputs: 0,
        }
    }
}

impl Thread {
    /// Overwrites `note` with what one turn can change of this thread. No note is returned: moving one costs more than a step.
    pub fn note(&self, note: &mut ThreadNote)
        ensures { note.new ≡ note_of self.now }
    {
        note.pc = self.pc;
        note.registers = self.registers;
        note.status = self.status;
        note.interrupted = self.interrupted;
        note.depth = self.stack.len() as u8;
        match self.stack.last() {
            Some(top) => note.top = Some(*top),
            // Mostly `note.top` is `None` already: then it isn't written again.
            None => {
                if note.top.is_some() {
                    note.top = None;
                }
            }
        }
        note.outputs = self.output.len() as u16;
    }

    /// Undoes one turn: the thread is as when the note was taken. The top entry is pushed again, because a turn may pop it.
    pub fn undo(&mut self, note: &ThreadNote)
        ensures { self.new ≡ undone note.now self.old }
    {
        self.pc = note.pc;
        self.registers = note.registers;
        self.status = note.status;
        self.interrupted = note.interrupted;
        self.stack.truncate((note.depth as usize).saturating_sub(1));
        if let Some(top) = &note.top {
            // This can't fail: the stack has room for 64 entries.
            if self.stack.push(*top).is_err() {
                unreachable!()
            }
        }
        self.output.truncate(note.outputs as usize);
    }
}
