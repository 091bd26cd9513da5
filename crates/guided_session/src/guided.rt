//! The commands of a person at a terminal.
//!
//! Before it waits for a line, it shows which threads can go on and at which row, with the names of the program. A line may
//! have these names instead of numbers. A line may also be words of a plan, and an empty one repeats the command before it.
//! `help` or `?`, and `w`, which writes the choices that were played as a plan, are answered here and aren't passed on.

ghost use Rattle.std.specs.Prelude.{◌≡◌, ◌≤◌, ◌⊎◌, IfErr, IfOk, None, length};
ghost use Rattle.workbench.specs.{declared.fault.Fault.Fault, Debug.HasNoEnd};

use crate::may_go::push_may_go;
use crate::names::push_names;
use crate::replayed::push_replayed;
use crate::spoken::in_numbers;
use crate::unknown::{push_threads, push_unknown};
use assembler::Symbols;
use byte_ports::{Failed, Sink, Source};
use commands::named::named_text;
use commands::plan::thread_names;
use debugger::{Command, Debugger, Played, command_of};
use plans::fault::PlanFaultKind;
use plans::plan_runs::plan_runs_at;
use plans::read_plan;
use plans::words::Words;
use schedule_reader::{Run, write_schedule};
use std::alloc::{AllocError, Global};
use std::mem::replace;
use thread_machine::Machine;
use workbench::companion::Companion;
use workbench::fault::Fault;

/// How many lines a person writes at most, and how many bytes.
const MOST: u64 = 1_000_000_000;

/// How many threads a program has at most. The bound cuts off no name: the proofs need it.
const MOST_THREADS: usize = 64;

const HELP: &[u8] = b"  s tN      one choice: thread N's turn; `s xN`: its timed wait expires
  s NAME    the same by its name, also NAME alone, or `s xNAME`
  g TOKENS  choices, as in a schedule (`g t0 bob*3`), up to a breakpoint
  b         one choice back
  k ROW     set a breakpoint at a row, also at a label; `c ROW` clears it
  p         the state
  w         the choices so far, as a plan
  q         end the session
  PLAN      words of a plan: `bob.`, `..`, `?7`, `(ann bob)*3`
  Enter     repeat the last command
";

/// Ignores whether something besides the replies could be shown: if it couldn't, the session goes on without it.
fn note(told: Result<(), Failed>) {
    let _ = told;
}

/// Returns whether the debugger answers a command with `?`: it isn't one, or names a row that doesn't exist.
fn is_unknown(command: &Command, debugger: &Debugger) -> bool {
    match command {
        Command::Break(row) | Command::Clear(row) => {
            *row >= debugger.machine().loaded().rows().len()
        }
        Command::Unknown => true,
        _ => false,
    }
}

/// Puts a line in place of what the vector holds, without its LFs if there are any.
#[tactic(auto, using(workbench::proofs::Conversations::one_more))]
fn put_line(line: &mut Vec<u8>, text: &[u8]) -> Result<(), AllocError>
    ensures { HasNoEnd line.new.items }
{
    line.clear();
    for byte in text {
        if *byte != b'\n' {
            line.push(*byte)?;
        }
    }
    Ok(())
}

/// A person, the source of a session's lines.
#[derive(Drop)]
struct Person<'a, S, K, E> {
    source: S,
    output: K,
    notes: E,
    alloc: Global,
    symbols: Symbols<'a>,
    /// How many bytes may still be read.
    reads: u64,
    /// What was typed last.
    said: Vec<u8>,
    /// What was typed last that wasn't empty, as the debugger reads it: with numbers for names.
    line: Vec<u8>,
    /// What the line asks for, until its effect is known.
    command: Command,
    /// How many choices the machine had played before the command.
    choices: u64,
    /// The machine before the command, if that plays several choices at once.
    before: Option<Machine>,
    /// The choices so far, for `w`.
    played: Played,
}

impl<'a, S: Source + Drop, K: Sink + Drop, E: Sink + Drop> Person<'a, S, K, E> {
    /// Keeps the first `more` choices of these runs, which one command played, for `w`. Shows their lines, too.
    fn look_at_runs(&mut self, runs: &[Run], more: u64) -> Result<(), AllocError> {
        if let Some(mut before) = self.before.take() {
            note(push_replayed(&mut self.notes, &mut before, runs, more));
        }
        self.played.push_first(runs, more)
    }

    /// Updates the choices kept for `w` after a command that played or took back some, and shows what its reply doesn't.
    fn look_at(&mut self, command: &Command, machine: &Machine) -> Result<(), AllocError> {
        let more = machine.choices().saturating_sub(self.choices);
        let threads = machine.thread_count();
        match command {
            Command::Step(choice) if usize::from(choice.thread) >= threads => {
                note(push_threads(&mut self.notes, threads));
            }
            Command::Step(choice) => self.played.push_first(&[Run::once(*choice)], more)?,
            Command::Go(runs) => self.look_at_runs(runs.as_slice(), more)?,
            Command::Print => note(push_names(&mut self.notes, &self.symbols)),
            _ if machine.choices() < self.choices => self.played.pop(),
            _ => {}
        }
        self.choices = machine.choices();
        Ok(())
    }

    /// Ends the last command before the next line is read: keeps the choices that it played for `w`, and shows what its reply
    /// doesn't. If the debugger answered `?`, shows what the person may have meant. At first, the last command is `Go` with the
    /// choices before the session. `Print` is in the field only until `take` sets it.
    fn look(&mut self, debugger: &Debugger) -> Result<(), AllocError> {
        let command = replace(&mut self.command, Command::Print);
        if is_unknown(&command, debugger) {
            let names = self.names(debugger)?;
            note(push_unknown(
                self.alloc,
                &mut self.notes,
                &self.symbols,
                names.as_slice(),
                debugger.machine(),
                self.said.as_slice(),
            ));
        }
        self.look_at(&command, debugger.machine())
    }

    /// Returns the names of the program's threads, in order of number, each empty if the thread has none.
    #[tactic(auto, using(commands::proofs::PlanParts::few_names))]
    fn names(&self, debugger: &Debugger) -> Result<Vec<&'a [u8]>, AllocError>
        ensures { IfOk result (λ names. length names.items ≤ 64) }
    {
        let count = debugger.machine().thread_count();
        thread_names(self.alloc, &self.symbols, count.min(MOST_THREADS))
    }

    /// Writes the choices so far as a plan with the names of the threads, in a line.
    fn write_played(&mut self, debugger: &Debugger) -> Result<(), AllocError> {
        let names = self.names(debugger)?;
        let mut line = named_text(self.alloc, names.as_slice(), self.played.runs())?;
        line.push(b'\n')?;
        note(self.output.push(line.as_slice()));
        Ok(())
    }

    /// Returns the words of what was typed if it is a plan, or else `None`.
    fn words(&self, debugger: &Debugger) -> Result<Option<Words>, AllocError> {
        let names = self.names(debugger)?;
        match read_plan(self.alloc, self.said.as_slice(), names.as_slice()) {
            Ok(words) => Ok(Some(words)),
            Err(fault) if fault.kind == PlanFaultKind::Memory => Err(AllocError),
            Err(_) => Ok(None),
        }
    }

    /// Puts the line `g TOKENS` in place of a plan that was typed. TOKENS are the choices that the plan makes from now on.
    fn go(&mut self, debugger: &Debugger, words: &Words) -> Result<(), AllocError> {
        let machine = debugger.machine().copy(self.alloc)?;
        let planned = plan_runs_at(self.alloc, machine, &words.all())?;
        let tokens = write_schedule(self.alloc, planned.runs.as_slice())?;
        self.line.clear();
        self.line.extend_from_slice(b"g ")?;
        self.line.extend_from_slice(tokens.as_bytes())?;
        self.command = Command::Go(planned.runs);
        Ok(())
    }

    /// Finds out what the line asks for: a command, or else words of a plan. For `g` it keeps a copy of the machine, from which
    /// the choices are shown later.
    fn take(&mut self, debugger: &Debugger) -> Result<(), AllocError> {
        self.command = command_of(self.alloc, self.line.as_slice())?;
        if matches!(&self.command, Command::Unknown) && !self.said.trim_ascii().is_empty() {
            if let Some(words) = self.words(debugger)? {
                self.go(debugger, &words)?;
            }
        }
        if let Command::Go(_) = &self.command {
            self.before = Some(debugger.machine().copy(self.alloc)?);
        }
        Ok(())
    }

    /// Reads a line, and puts numbers for names. An empty one repeats the line before. Returns whether the line read has an LF.
    fn read(&mut self, debugger: &Debugger) -> Result<bool, Fault>
        ensures fault { IfErr result (λ fault. (fault ≡ Fault.Memory) ⊎ (fault ≡ Fault.Read)) }
    {
        let is_ended = self
            .source
            .next_line(debugger, &mut self.reads, &mut self.said)?;
        if !self.said.trim_ascii().is_empty() {
            match in_numbers(self.alloc, &self.symbols, self.said.as_slice()) {
                Ok(line) => self.line = line,
                Err(_) => return Err(Fault::Memory),
            }
        }
        Ok(is_ended)
    }

    /// Answers `help`, `?` and `w`. Returns true for any other line, which the debugger is to read.
    fn is_for_debugger(&mut self, debugger: &Debugger) -> Result<bool, AllocError> {
        match self.line.as_slice().trim_ascii() {
            b"help" | b"?" => note(self.notes.push(HELP)),
            b"w" => self.write_played(debugger)?,
            _ => {
                self.take(debugger)?;
                return Ok(true);
            }
        }
        Ok(false)
    }

    /// Reads lines, and answers them, up to one for the debugger. Returns whether it has an LF: if not, the input ends.
    fn next_line(&mut self, debugger: &Debugger) -> Result<bool, Fault>
        ensures fault { IfErr result (λ fault. (fault ≡ Fault.Memory) ⊎ (fault ≡ Fault.Read)) }
    {
        if self.look(debugger).is_err() {
            return Err(Fault::Memory);
        }
        for _ in 0..MOST {
            let machine = debugger.machine();
            note(push_may_go(self.alloc, &mut self.notes, &self.symbols, machine));
            let is_ended = self.read(debugger)?;
            // At the end of the input nothing was typed: the last command isn't repeated.
            if !is_ended && self.said.is_empty() {
                self.line.clear();
                return Ok(false);
            }
            match self.is_for_debugger(debugger) {
                Ok(true) => return Ok(is_ended),
                Ok(false) => {}
                Err(_) => return Err(Fault::Memory),
            }
        }
        Err(Fault::Read)
    }
}

/// The lines of a person: those of the debugger are passed on, and the others are answered.
#[derive(Drop)]
pub struct GuidedCommands<'a, S, K, E> {
    person: Person<'a, S, K, E>,
    failed: bool,
}

impl<'a, S: Source + Drop, K: Sink + Drop, E: Sink + Drop> GuidedCommands<'a, S, K, E> {
    /// Makes a source of commands from a person's lines, for a program with these names. If `runs` is given, its choices are
    /// played before the first line. `output` gets schedules, and `notes` what is shown besides the replies.
    pub fn new(
        alloc: Global,
        symbols: Symbols<'a>,
        runs: Option<&[Run]>,
        source: S,
        output: K,
        notes: E,
    ) -> Result<GuidedCommands<'a, S, K, E>, Fault> {
        let Ok(before) = Vec::from_slice(alloc, runs.unwrap_or(&[])) else {
            return Err(Fault::Memory);
        };
        let person = Person {
            source,
            output,
            notes,
            alloc,
            symbols,
            reads: MOST,
            said: Vec::new(alloc),
            line: Vec::new(alloc),
            command: Command::Go(before),
            choices: 0,
            before: None,
            played: Played::new(alloc),
        };
        Ok(GuidedCommands {
            person,
            failed: false,
        })
    }
}

impl<'a, S: Source + Drop, K: Sink + Drop, E: Sink + Drop> Companion
    for GuidedCommands<'a, S, K, E> {
    ghost left = { λ _. None };

    ghost has_failed = { λ g. g.failed };

    /// Gives the debugger a person's next line, with numbers for names. Returns whether it has an LF. Subtracts its bytes from
    /// `reads`. Fails with `Read` if the line has more bytes than that.
    fn next_line(
        &mut self,
        debugger: &Debugger,
        reads: &mut u64,
        line: &mut Vec<u8>,
    ) -> Result<bool, Fault> {
        line.clear();
        let is_ended = match self.person.next_line(debugger) {
            Ok(is_ended) => is_ended,
            Err(fault) => {
                self.failed = self.failed || matches!(fault, Fault::Read);
                return Err(fault);
            }
        };
        if put_line(line, self.person.line.as_slice()).is_err() {
            return Err(Fault::Memory);
        }
        if !is_ended {
            return Ok(false);
        }
        let count = line.len() as u64 + 1;
        if *reads < count {
            self.failed = true;
            return Err(Fault::Read);
        }
        *reads -= count;
        Ok(true)
    }
}
