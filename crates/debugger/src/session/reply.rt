// The commands of a session, and the replies that they write.
ghost use Rattle.std.specs.Prelude.{◌≡◌, ◌+◌, ◌≤◌, ◌∷◌, [], ◌++◌, length, codes, if◌then◌else◌, true, IsTrue, IfErr, IfOk, Ok, Err, OnOk, OnErr};
ghost use Rattle.std.specs.{Fmt.decimal, Io.KnownBytes.Appends};
ghost use Rattle.debugger.specs.declared.stop.Stop.{Stop};
ghost use Rattle.debugger.specs.Command.{Back, Break, Clear, Go, Print, Step, Unknown, goes_on, has_list, is_go, line_order, order_of};
ghost use Rattle.debugger.specs.Reply.{IsCarriedOut, NeedsMemory, number_line, stop_text, wants_memory};

use crate::command::{Command, command_of, few_of_go, lone_turn};
use crate::number_line::{ROOM, put_number_line};
use crate::session::Debugger;
use crate::stop::Stop;
use byte_ports::{Failed, Sink};
use schedule_reader::{Few, Run};
use std::alloc::AllocError;
use thread_machine::{Choice, StepFault};
use trace_text::line::{put_event, put_refusal};
use trace_text::line_end::LineEnd;
use trace_text::state::state_text;

/// Why a command was not carried out, or its reply not written.
#[derive(Clone, Copy, PartialEq, Eq)]
pub enum CommandFault {
    /// Out of memory.
    Memory,
    /// The reply can't be written.
    Write,
}

impl From<AllocError> for CommandFault {
    ghost use Rattle.std.specs.Prelude.{◌≡◌};
    ghost use Rattle.debugger.specs.declared.session.reply.CommandFault.TheVariants.{Memory};

    ghost from_gives = { λ _ fault. fault ≡ Memory };

    /// Returns `Memory`, so that `?` can pass on a failed allocation.
    fn from(_error: AllocError) -> CommandFault {
        CommandFault::Memory
    }
}

impl From<Failed> for CommandFault {
    ghost use Rattle.std.specs.Prelude.{◌≡◌};
    ghost use Rattle.debugger.specs.declared.session.reply.CommandFault.TheVariants.{Write};

    ghost from_gives = { λ _ fault. fault ≡ Write };

    /// Returns `Write`, so that `?` can pass on a failed output.
    fn from(_failed: Failed) -> CommandFault {
        CommandFault::Write
    }
}

/// Writes a word, a number and the line's end in one piece.
#[inline(always)]
fn say<W: Sink>(output: &mut W, word: &[u8], number: u64, end: &[u8]) -> Result<(), Failed>
    requires { length word.now + length end.now ≤ 20 }
    ensures line { OnOk result (Appends (W.written output.old) (W.written output.new)
        (word.now ++ (decimal number ++ end.now))) }
    ensures failed { OnErr result (IsTrue (W.has_failed output.new)) }
{
    let mut bytes = [0; ROOM];
    let start = put_number_line(&mut bytes, word, number, end);
    output.push(&bytes[start..])
}

/// Writes how many choices `go` played before one was refused, and why that was refused, as `fault 2 limit`.
fn say_fault<W: Sink>(output: &mut W, number: u64, fault: StepFault) -> Result<(), Failed>
    ensures line { OnOk result (Appends (W.written output.old) (W.written output.new)
        (stop_text (Stop.Fault number fault))) }
    ensures failed { OnErr result (IsTrue (W.has_failed output.new)) }
{
    match fault {
        StepFault::NoSuchThread => say(output, b"fault ", number, b" none\n"),
        StepFault::StepLimit => say(output, b"fault ", number, b" limit\n"),
        StepFault::Memory => say(output, b"fault ", number, b" memory\n"),
    }
}

/// Writes how far `go` went, the reply to the command `g`, for example `at 3` at a breakpoint. Fails if the output has failed.
pub fn say_stop<W: Sink>(output: &mut W, stop: Stop) -> Result<(), Failed>
    ensures line { OnOk result (Appends (W.written output.old) (W.written output.new) (stop_text stop)) }
    ensures failed { OnErr result (IsTrue (W.has_failed output.new)) }
{
    match stop {
        Stop::Break(played) => say(output, b"at ", played, b"\n"),
        Stop::End(played) => say(output, b"end ", played, b"\n"),
        Stop::Fault(played, fault) => say_fault(output, played, fault),
    }
}

/// Writes a word and the row's number, or `?` if there is no such row.
fn say_row<W: Sink>(output: &mut W, is_there: bool, word: &[u8], row: usize) -> Result<(), Failed>
    requires { length word.now ≤ 19 }
    ensures line { OnOk result (Appends (W.written output.old) (W.written output.new)
        (if is_there then number_line word.now row else codes "?\n")) }
    ensures failed { OnErr result (IsTrue (W.has_failed output.new)) }
{
    if is_there {
        say(output, word, row as u64, b"\n")
    } else {
        output.push(b"?\n")
    }
}

/// Writes a complete line. It fails only with `Write`.
fn say_line<W: Sink>(output: &mut W, line: &LineEnd) -> Result<(), CommandFault>
    ensures line { OnOk result (Appends (W.written output.old) (W.written output.new) line.now) }
    ensures fault { IfErr result (λ fault. (fault ≡ CommandFault.Write) × IsTrue (W.has_failed output.new)) }
{
    match output.push(line.as_slice()) {
        Ok(()) => Ok(()),
        Err(_) => Err(CommandFault::Write),
    }
}

/// Returns true, since the session goes on after any command but `q`, or the command's fault.
fn going_on(done: Result<(), CommandFault>) -> Result<bool, CommandFault>
    ensures more { IfOk result (λ more. (more ≡ true) × (done ≡ Ok tt)) }
    ensures fault { IfErr result (λ fault. done ≡ Err fault) }
{
    match done {
        Ok(()) => Ok(true),
        Err(fault) => Err(fault),
    }
}

impl Debugger {
    /// Plays a choice as the command `s` does, and writes its line, also if it is refused. Only a value put out takes memory.
    fn step_command<W: Sink>(&mut self, choice: Choice, output: &mut W) -> Result<(), CommandFault>
        ensures { IsCarriedOut (wants_memory self.old (Step choice) ≡ true) result self.old (Step choice) self.new
            (W.written output.old) (W.written output.new) (W.has_failed output.new) }
    {
        let number = self.played.choices() + 1;
        let mut line = LineEnd::new();
        if usize::from(choice.thread) >= self.played.thread_count() {
            put_refusal(&mut line, number, choice, None);
            return say_line(output, &line);
        }
        let pc = self.played.pc(choice.thread);
        let event = match self.undos.play(&mut self.played, choice) {
            Ok(event) => event,
            Err(StepFault::Memory) => return Err(CommandFault::Memory),
            Err(_) => {
                put_refusal(&mut line, number, choice, Some(pc));
                return say_line(output, &line);
            }
        };
        put_event(&mut line, number, choice, pc, &event);
        say_line(output, &line)
    }

    /// Plays the choices of runs like the command `g`, and writes its reply.
    pub fn go_command<W: Sink>(&mut self, runs: &[Run], output: &mut W) -> Result<(), CommandFault>
        ensures { IsCarriedOut ⊥ result self.old (Go runs.now) self.new
            (W.written output.old) (W.written output.new) (W.has_failed output.new) }
    {
        let stop = self.go(runs);
        match say_stop(output, stop) {
            Ok(()) => Ok(()),
            Err(_) => Err(CommandFault::Write),
        }
    }

    /// Takes back the last choice like the command `b`, and writes its reply.
    fn back_command<W: Sink>(&mut self, output: &mut W) -> Result<(), CommandFault>
        ensures { IsCarriedOut ⊥ result self.old Back self.new
            (W.written output.old) (W.written output.new) (W.has_failed output.new) }
    {
        match self.back() {
            Ok(()) => say(output, b"back ", self.machine().choices(), b"\n")?,
            Err(_) => output.push(b"no history\n")?,
        }
        Ok(())
    }

    /// Sets a breakpoint like the command `k`. The reply is `?` if there is no such row.
    fn break_command<W: Sink>(&mut self, row: usize, output: &mut W) -> Result<(), CommandFault>
        ensures { IsCarriedOut ⊥ result self.old (Break row) self.new
            (W.written output.old) (W.written output.new) (W.has_failed output.new) }
    {
        let is_there = self.marks.put(row, true);
        say_row(output, is_there, b"break ", row)?;
        Ok(())
    }

    /// Clears a breakpoint like the command `c`. The reply is `?` if there is no such row.
    fn clear_command<W: Sink>(&mut self, row: usize, output: &mut W) -> Result<(), CommandFault>
        ensures { IsCarriedOut ⊥ result self.old (Clear row) self.new
            (W.written output.old) (W.written output.new) (W.has_failed output.new) }
    {
        let is_there = self.marks.put(row, false);
        say_row(output, is_there, b"clear ", row)?;
        Ok(())
    }

    /// Writes the text of the machine's state, the reply to the command `p`.
    fn print_command<W: Sink>(&self, output: &mut W) -> Result<(), CommandFault>
        ensures { IsCarriedOut (wants_memory self.now Print ≡ true) result self.now Print self.now
            (W.written output.old) (W.written output.new) (W.has_failed output.new) }
    {
        let text = state_text(self.alloc, self.machine())?;
        output.push(text.as_slice())?;
        Ok(())
    }

    /// Writes `?`, the reply to a line that is no command.
    fn unknown_command<W: Sink>(&self, output: &mut W) -> Result<(), CommandFault>
        ensures { IsCarriedOut ⊥ result self.now Unknown self.now
            (W.written output.old) (W.written output.new) (W.has_failed output.new) }
    {
        output.push(b"?\n")?;
        Ok(())
    }

    /// Carries out a command and writes its reply. Returns false after `q`.
    fn carry_out<W: Sink>(
        &mut self,
        command: &Command,
        output: &mut W,
    ) -> Result<bool, CommandFault>
        ensures outcome { IsCarriedOut (wants_memory self.old (order_of command.now) ≡ true) result self.old (order_of command.now) self.new
            (W.written output.old) (W.written output.new) (W.has_failed output.new) }
        ensures goes_on { IfOk result (λ more. more ≡ goes_on (order_of command.now)) }
    {
        match command {
            Command::Step(choice) => going_on(self.step_command(*choice, output)),
            Command::Go(runs) => going_on(self.go_command(runs.as_slice(), output)),
            Command::Back => going_on(self.back_command(output)),
            Command::Break(row) => going_on(self.break_command(*row, output)),
            Command::Clear(row) => going_on(self.clear_command(*row, output)),
            Command::Print => going_on(self.print_command(output)),
            Command::Quit => Ok(false),
            Command::Unknown => going_on(self.unknown_command(output)),
        }
    }

    /// Carries out a line of `g` if there is no memory for a list of its runs. It needs a list only for two runs or more.
    fn go_without_list<W: Sink>(
        &mut self,
        line: &[u8],
        output: &mut W,
    ) -> Result<bool, CommandFault>
        requires { is_go line.now ≡ true }
        ensures outcome { IsCarriedOut (has_list (line_order line.now) ≡ true) result self.old (line_order line.now) self.new
            (W.written output.old) (W.written output.new) (W.has_failed output.new) }
        ensures goes_on { IfOk result (λ more. more ≡ goes_on (line_order line.now)) }
    {
        match few_of_go(line) {
            None => going_on(self.unknown_command(output)),
            Some(Few::Nothing) => going_on(self.go_command(&[], output)),
            Some(Few::One(run)) => going_on(self.go_command(&[run], output)),
            Some(Few::More) => Err(CommandFault::Memory),
        }
    }

    /// Carries out the command of a line and writes its reply. Returns false after `q`. After `Write` the command was
    /// carried out, and a part of its reply may be written. After `Memory` nothing was done or written.
    pub fn command<W: Sink>(&mut self, line: &[u8], output: &mut W) -> Result<bool, CommandFault>
        ensures outcome { IsCarriedOut (NeedsMemory self.old line.now) result self.old (line_order line.now) self.new
            (W.written output.old) (W.written output.new) (W.has_failed output.new) }
        ensures goes_on { IfOk result (λ more. more ≡ goes_on (line_order line.now)) }
    {
        if let Some(run) = lone_turn(line) {
            self.go_command(&[run], output)?;
            return Ok(true);
        }
        match command_of(self.alloc, line) {
            Ok(command) => self.carry_out(&command, output),
            Err(_) => self.go_without_list(line, output),
        }
    }
}
