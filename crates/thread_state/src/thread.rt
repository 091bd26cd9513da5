//! One thread and its turns. It throws 3 (InterruptedException), 6 (stack full), 7 (bad return) and 8 (output full).
ghost use Rattle.std.specs.Prelude.{◌≡◌, ◌<◌, ◌≤◌, length, pos, false, IsTrue, IsErr, OnErr, IfOk};
ghost use Rattle.std.specs.List.{list_any};
ghost use Rattle.instruction_table.specs.{LocalRows.is_local_row, Registers.value_in};
ghost use Rattle.thread_state.specs.Thread.{turn_of_throw, turn_of_answer, turn_of_done, turn_of_wait, turn_of_halt, turn_of_local, turn_of_out, turn_of_interruption, turn_of_barrier_wait, turn_of_call, turn_of_try, turn_of_endtry, turn_of_return, turn_of_advance, turn_of_action, turn_of_pop, turn_of_intrd, new_thread, is_finished, is_full, top_of, with_entry, left_routine, interrupted};
ghost use Rattle.thread_state.specs.Frame.{is_routine, is_advance};

use crate::event::What;
use crate::frame::Frame;
use crate::status::Status;
use instruction_table::{Reg, Regs, Row, play_local};
use std::alloc::{AllocError, Global};
use std::marker::Model;

mod note;

pub use note::ThreadNote;

/// How many entries a stack has room for.
const STACK_ROOM: usize = 64;

/// How many values a thread may put out.
const OUTPUT_ROOM: usize = 4096;

/// One thread of the program.
#[derive(Drop)]
pub struct Thread {
    pc: u16,
    registers: Regs,
    stack: Vec<Frame>,
    status: Status,
    interrupted: bool,
    output: Vec<i32>,
}

impl Model for Thread {
    ghost use Rattle.std.specs.Prelude.{◌≤◌, vec_len, vec_capacity};
    ghost use Rattle.thread_state.specs.Thread.{ThreadState};

    ghost Value = { ThreadState };

    ghost view = { λ thread. record {
      pc = thread.pc;
      registers = thread.registers;
      stack = thread.stack.items;
      status = thread.status;
      interrupted = thread.interrupted;
      output = thread.output.items;
    } };

    ghost invariant = { λ thread. (vec_len thread.stack ≤ 64)
        × (64 ≤ vec_capacity thread.stack) × (vec_len thread.output ≤ 4096) };
}

impl Thread {
    /// Makes a thread at its first row. Its stack gets room for all 64 entries at once, so that no later push needs memory.
    pub fn new(alloc: Global, first: u16) -> Result<Thread, AllocError>
        ensures { IfOk result (λ thread. thread ≡ new_thread first) }
    {
        Ok(Thread {
            pc: first,
            registers: Regs::new(),
            stack: Vec::with_capacity(alloc, STACK_ROOM)?,
            status: Status::Runs,
            interrupted: false,
            output: Vec::new(alloc),
        })
    }

    /// Returns a copy of the thread. Its stack has room for all 64 entries, too.
    pub fn copy(&self, alloc: Global) -> Result<Thread, AllocError>
        ensures { IfOk result (λ copy. copy ≡ self.now) }
    {
        let mut stack = Vec::with_capacity(alloc, STACK_ROOM)?;
        stack.extend_from_slice(self.stack.as_slice())?;
        Ok(Thread {
            pc: self.pc,
            registers: self.registers,
            stack,
            status: self.status,
            interrupted: self.interrupted,
            output: Vec::from_slice(alloc, self.output.as_slice())?,
        })
    }

    /// Returns the row that the thread is at.
    pub fn pc(&self) -> u16
        ensures { result ≡ self.now.pc }
    {
        self.pc
    }

    /// Returns what the thread is doing.
    pub fn status(&self) -> Status
        ensures { result ≡ self.now.status }
    {
        self.status
    }

    /// Returns the number in a register.
    pub fn register(&self, reg: Reg) -> i32
        ensures { result ≡ value_in self.now.registers reg }
    {
        self.registers.get(reg)
    }

    /// Returns the interrupted status, as `Thread.isInterrupted` does.
    pub fn interrupted(&self) -> bool
        ensures { result ≡ self.now.interrupted }
    {
        self.interrupted
    }

    /// Returns its stack, the lowest entry first.
    pub fn stack(&self) -> &[Frame]
        ensures stack { result.now ≡ self.now.stack }
        ensures few { length result.now ≤ 64 }
    {
        self.stack.as_slice()
    }

    /// Returns the top entry of its stack, or `None` if the stack is empty.
    pub fn top(&self) -> Option<Frame>
        ensures { result ≡ top_of self.now.stack }
    {
        self.stack.last().copied()
    }

    /// Returns whether the stack is full, with 64 entries.
    pub fn is_full(&self) -> bool
        ensures { result ≡ is_full self.now }
    {
        self.stack.len() == STACK_ROOM
    }

    /// Returns whether the thread runs the `onAdvance` routine of this root: its entry may be anywhere on the stack.
    pub fn advances(&self, root: u8) -> bool
        ensures { result ≡ list_any (is_advance root) self.now.stack }
    {
        self.stack.iter().any(|frame| frame.is_advance(root))
    }

    /// Returns what the thread put out, in order.
    pub fn output(&self) -> &[i32]
        ensures values { result.now ≡ self.now.output }
        ensures few { length result.now ≤ 4096 }
    {
        self.output.as_slice()
    }

    /// Returns whether the thread has ended or died.
    pub fn is_finished(&self) -> bool
        ensures { result ≡ is_finished self.now.status }
    {
        matches!(self.status, Status::Ended | Status::Died(_))
    }

    /// Throws exception `code` at its row. From the next turn on, the thread looks for a handler.
    pub fn throw(&mut self, code: i32) -> What
        ensures { record { thread = self.new; what = result } ≡ turn_of_throw code self.old }
    {
        self.status = Status::Throws(code);
        What::Throws(code)
    }

    /// Throws 3 (InterruptedException), and clears the interrupted status.
    pub fn take_interruption(&mut self) -> What
        ensures { record { thread = self.new; what = result } ≡ turn_of_interruption self.old }
    {
        self.interrupted = false;
        self.throw(3)
    }

    /// Puts the result of a row or a wait into a register, and runs on at the next row.
    pub fn answer(&mut self, into: Reg, value: i32) -> What
        requires { self.old.pc < 65535 }
        ensures { record { thread = self.new; what = result } ≡ turn_of_answer into value self.old }
    {
        self.registers.set(into, value);
        self.pc += 1;
        self.status = Status::Runs;
        What::Value(value)
    }

    /// Goes to the next row after a row that has no result.
    pub fn done(&mut self) -> What
        requires { self.old.pc < 65535 }
        ensures { record { thread = self.new; what = result } ≡ turn_of_done self.old }
    {
        self.pc += 1;
        What::Done
    }

    /// Begins to wait for the end of the phase of this number. The thread stays at its row until the wait ends.
    pub fn wait(&mut self, phase: i32) -> What
        ensures { record { thread = self.new; what = result } ≡ turn_of_wait phase self.old }
    {
        self.status = Status::AwaitsPhase(phase);
        What::Waits
    }

    /// Begins to wait at a barrier. `index` is its arrival index, which `await` returns later.
    pub fn wait_at_barrier(&mut self, index: u16) -> What
        ensures { record { thread = self.new; what = result } ≡ turn_of_barrier_wait index self.old }
    {
        self.status = Status::AwaitsBarrier(i32::from(index));
        What::Waits
    }

    /// Plays `halt`: ends the thread. In a routine or an action it throws 7 instead.
    pub fn halt(&mut self) -> What
        ensures { record { thread = self.new; what = result } ≡ turn_of_halt self.old }
    {
        if self.is_in_routine() {
            return self.throw(7);
        }
        self.status = Status::Ended;
        What::Ends
    }

    /// Returns whether the thread runs a routine or a barrier's action.
    fn is_in_routine(&self) -> bool
        ensures { result ≡ list_any is_routine self.now.stack }
    {
        self.stack.iter().any(|frame| frame.is_routine())
    }

    /// Plays a row that uses only the thread's registers and its next row, such as `add` or `jmp`. Returns `Value` with the
    /// row's result, or `Done` if the row has none.
    #[inline(always)]
    pub fn local_row(&mut self, row: Row) -> What
        requires row { IsTrue (is_local_row row) }
        requires place { self.old.pc < 65535 }
        ensures { record { thread = self.new; what = result } ≡ turn_of_local row self.old }
    {
        match play_local(row, &mut self.registers, &mut self.pc) {
            Some(value) => What::Value(value),
            None => What::Done,
        }
    }

    /// Plays `out`: appends a register's number to the output, or throws 8 if the output is full. `Err`: memory ran out, and
    /// nothing has changed.
    pub fn out(&mut self, from: Reg) -> Result<What, AllocError>
        requires { self.old.pc < 65535 }
        ensures ok { IfOk result (λ what.
            record { thread = self.new; what = what } ≡ turn_of_out from self.old) }
        ensures err { OnErr result (self.new ≡ self.old) }
        ensures memory { IsErr result → length self.old.output < 4096 }
    {
        if self.output.len() == OUTPUT_ROOM {
            return Ok(self.throw(8));
        }
        let value = self.registers.get(from);
        self.output.push(value)?;
        self.pc += 1;
        Ok(What::Out(value))
    }

    /// Plays `call`: pushes the number of the next row, and goes to `target`. It throws 6 if the stack is full.
    pub fn call(&mut self, target: u16) -> What
        requires { self.old.pc < 65535 }
        ensures { record { thread = self.new; what = result } ≡ turn_of_call target self.old }
    {
        if self.is_full() {
            return self.throw(6);
        }
        self.enter(Frame::Call(self.pc + 1), target)
    }

    /// Plays `try`: pushes a handler, and goes to the next row. It throws 6 if the stack is full.
    pub fn begin_try(&mut self, handler: u16) -> What
        requires { self.old.pc < 65535 }
        ensures { record { thread = self.new; what = result } ≡ turn_of_try handler self.old }
    {
        if self.is_full() {
            return self.throw(6);
        }
        self.enter(Frame::Handler(handler), self.pc + 1)
    }

    /// Pushes an entry, and goes to this row. The stack has room reserved for 64 entries, so that pushing never fails.
    fn enter(&mut self, entry: Frame, row: u16) -> What
        requires { is_full self.old ≡ false }
        ensures thread { self.new ≡ with_entry entry row self.old }
        ensures what { result ≡ What.Done }
    {
        if self.stack.push(entry).is_err() {
            unreachable!()
        }
        self.pc = row;
        What::Done
    }

    /// Plays `endtry`: pops the handler on top of the stack. It throws 7 if another entry is on top, or the stack is empty.
    pub fn end_try(&mut self) -> What
        requires { self.old.pc < 65535 }
        ensures { record { thread = self.new; what = result }
            ≡ turn_of_endtry (top_of self.old.stack) self.old }
    {
        match self.stack.last() {
            Some(Frame::Handler(_)) => {
                let _ = self.stack.pop();
                self.done()
            }
            _ => self.throw(7),
        }
    }

    /// Plays `ret` after a call: pops the call's entry (`let _`), and goes to `row`, which the caller has read from this entry.
    pub fn return_to(&mut self, row: u16) -> What
        ensures { record { thread = self.new; what = result } ≡ turn_of_return row self.old }
    {
        let _ = self.stack.pop();
        self.pc = row;
        What::Done
    }

    /// Enters a root's routine at the row `first`. The stack entry saves the registers and the row of the arrival. After that,
    /// R0 gets the phase that ends, and R1 gets the number of registered parties.
    pub fn enter_advance(&mut self, root: u8, phase: i32, parties: u16, first: u16) -> What
        requires { is_full self.old ≡ false }
        ensures { record { thread = self.new; what = result }
            ≡ turn_of_advance root phase parties first self.old }
    {
        let entry = Frame::Advance(root, self.registers, self.pc);
        self.enter(entry, first);
        self.registers.set(Reg::R0, phase);
        self.registers.set(Reg::R1, i32::from(parties));
        What::Enters
    }

    /// Enters a barrier's action at the row `first`. The stack entry saves the registers and the row of the arrival.
    pub fn enter_action(&mut self, barrier: u8, first: u16) -> What
        requires { is_full self.old ≡ false }
        ensures { record { thread = self.new; what = result } ≡ turn_of_action barrier first self.old }
    {
        let entry = Frame::Action(barrier, self.registers, self.pc);
        self.enter(entry, first);
        What::Enters
    }

    /// Pops the entry of a routine or an action, which the caller has read (`let _`). The thread gets back the `row` and the
    /// `registers` of its arrival, which this entry saved.
    pub fn leave_routine(&mut self, registers: &Regs, row: u16)
        ensures { self.new ≡ left_routine registers.now row self.old }
    {
        let _ = self.stack.pop();
        self.registers = *registers;
        self.pc = row;
    }

    /// Does `Thread.interrupt`: only sets the interrupted status, which a thread in an interruptible wait notices at its next
    /// turn. A thread that has ended or died stays as it is.
    pub fn interrupt(&mut self)
        ensures { self.new ≡ interrupted self.old }
    {
        if !self.is_finished() {
            self.interrupted = true;
        }
    }

    /// Plays `intrd`: puts the interrupted status, 1 or 0, into a register, and clears it (`Thread.interrupted`).
    pub fn take_interrupt(&mut self, into: Reg) -> What
        requires { self.old.pc < 65535 }
        ensures { record { thread = self.new; what = result } ≡ turn_of_intrd into self.old }
    {
        let status = i32::from(self.interrupted);
        self.interrupted = false;
        self.answer(into, status)
    }

    /// Pops one entry while exception `code` looks for its handler. A handler catches it, and R7 gets `code`. After a routine
    /// or an action, the registers and the row are those of its arrival again. If the stack is empty, the thread dies.
    pub fn pop(&mut self, code: i32) -> What
        ensures { record { thread = self.new; what = result } ≡ turn_of_pop code self.old }
    {
        let top = self.stack.pop();
        match &top {
            None => {
                self.status = Status::Died(code);
                What::Dies(code)
            }
            Some(Frame::Call(_)) => What::Unwinds,
            Some(Frame::Handler(row)) => {
                self.registers.set(Reg::R7, code);
                self.pc = *row;
                self.status = Status::Runs;
                What::Catches(code)
            }
            Some(Frame::Advance(_, registers, row)) => self.restore(registers, *row),
            Some(Frame::Action(_, registers, row)) => self.restore(registers, *row),
        }
    }

    /// Goes back to the row of the arrival that began the popped routine or action, with the registers of then.
    fn restore(&mut self, registers: &Regs, row: u16) -> What
        ensures thread { self.new ≡ record self.old { registers = registers.now; pc = row } }
        ensures what { result ≡ What.Unwinds }
    {
        self.registers = *registers;
        self.pc = row;
        What::Unwinds
    }
}
