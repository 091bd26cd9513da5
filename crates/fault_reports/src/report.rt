//! How a failure is reported: its one line, and for a person at most four more in one form.
//!
//!     refused asm 4 3
//!     x.asm:4:4: UnknownWord: no instruction or directive has this name
//!     a: arive p
//!        ^^^^^
//!     near: parr

ghost use Rattle.std.specs.Prelude.{◌≡◌};
ghost use Rattle.commands.specs.Unplanned.{unplanned_status};
ghost use Rattle.commands.specs.declared.unplanned.Unplanned.TheVariants as unplanned;

use crate::place::{Place, push_shown};
use byte_ports::{Failed, MemorySink, Sink, WritePort};
use command_line::ports::printable;
use command_line::ports::reasoned::{Reason, Reasoned};
use command_line::request::When;
use commands::differences::push_differences;
use commands::outcomes::Outcomes;
use commands::unplanned::Unplanned;
use refusals::entries::tables;
use refusals::entry::{Entry, push_pieces};
use refusals::question::{question_in_line, question_of};
use std::alloc::Global;
use std::env::{Env, FillError};
use std::io::IsTerminal;
use suggestions::hint::Hint;
use workbench::fault::Fault;

/// The variable that says when a failure is explained, if the arguments don't.
const VARIABLE: &str = "VUTHGAL_EXPLAIN";

/// Room for the variable's value: more bytes than any of the three values that it may have.
const ROOM: usize = 32;

/// More bytes than a line has that the formats fix.
const LONGEST_LINE: usize = 64;

/// A failure that is reported. Only the exit status is left.
#[derive(Clone, Copy, PartialEq, Eq)]
pub struct Reported {
    pub status: u8,
}

/// Where failures are reported, and whether a person is told more than the line.
#[derive(Drop)]
pub struct Report<'a> {
    pub rt: &'a HostRuntime,
    is_explained: bool,
    /// Whether the arguments say when a failure is explained.
    is_said: bool,
    /// The system's reason, if a read or a write failed.
    pub reason: Reason,
}

/// Returns what VUTHGAL_EXPLAIN says. None if it isn't set, or has another value.
fn when_set(rt: &HostRuntime) -> Option<When> {
    let mut room = [0u8; ROOM];
    match rt.var(VARIABLE, &mut room) {
        Ok(length) => When::of(str::from_utf8(&room[..length]).unwrap_or("")),
        Err(_) => None,
    }
}

impl<'a> Report<'a> {
    /// Returns a report that explains as the arguments (`said`) say, or else the environment, or else only at a terminal.
    pub fn new(rt: &'a HostRuntime, said: Option<When>) -> Report<'a> {
        Report {
            rt,
            is_explained: match said.or(when_set(rt)) {
                Some(When::Always) => true,
                Some(When::Never) => false,
                Some(When::Auto) | None => rt.stderr().is_terminal(),
            },
            is_said: said.is_some(),
            reason: Reason::none(),
        }
    }

    /// Returns the allocator.
    pub fn alloc(&self) -> Global {
        self.rt.alloc()
    }

    /// Returns this reader or writer with its errors kept in `reason`, where the report of a failure finds them.
    pub fn kept<T>(&self, inner: T) -> Reasoned<'_, T> {
        Reasoned::new(inner, &self.reason)
    }

    /// Writes that VUTHGAL_EXPLAIN has none of its three values, and so no effect. Writes nothing if it isn't set.
    fn push_wrong_value<E: Sink>(&self, errors: &mut E) -> Result<(), Failed> {
        let mut room = [0u8; ROOM];
        let value = match self.rt.var(VARIABLE, &mut room) {
            Ok(length) => &room[..length],
            Err(FillError::TooLong) => b"this value".as_slice(),
            Err(FillError::NotPresent) => return Ok(()),
        };
        if value.is_empty() || When::of(str::from_utf8(value).unwrap_or("")).is_some() {
            return Ok(());
        }
        errors.push(b"VUTHGAL_EXPLAIN is always, auto or never: ")?;
        push_pieces(errors, &[value, b" counts for nothing\n"])
    }

    /// Returns whether a person is shown more than the fixed line. If the arguments don't decide, it first warns of a wrong
    /// value of VUTHGAL_EXPLAIN.
    pub fn explains(&self) -> bool {
        if !self.is_said {
            let _ = self.push_wrong_value(&mut WritePort::new(printable::errors(self.rt)));
        }
        self.is_explained
    }

    /// Writes the fixed line of a failure alone, and returns its exit status. A failed write isn't reported.
    pub fn line(&self, why: Unplanned) -> Reported
        ensures { result.status ≡ unplanned_status why }
    {
        let _ = why.tell(&mut WritePort::new(self.rt.stderr()));
        Reported {
            status: why.status(),
        }
    }

    /// Reports why a command gave up: the file, unless its name is empty, and the place in it, if known; and `hint`, or else
    /// the advice of its entry.
    pub fn fail(&self, why: Unplanned, file: &str, place: Option<Place<'_>>, hint: Hint) -> Reported
        ensures { result.status ≡ unplanned_status why }
    {
        let reported = self.line(why);
        if self.explains() {
            let entry = entry_of(self.alloc(), why);
            let means = entry.map_or("", |entry| entry.means);
            let helps = entry.map_or("", |entry| entry.helps);
            self.push_lines(file, place, means, hint, helps);
        }
        reported
    }

    /// Reports why a command gave up, with this reason in place of the sentence of its entry.
    pub fn fail_for(&self, fault: Fault, file: &str, reason: &str, hint: Hint) -> Reported
        ensures { result.status ≡ unplanned_status (unplanned.Fault fault) }
    {
        let reported = self.line(Unplanned::Fault(fault));
        if self.explains() {
            self.push_lines(file, None, reason, hint, "");
        }
        reported
    }

    /// Reports a fault of which nothing more is known.
    pub fn fault(&self, fault: Fault) -> Reported {
        self.fail(Unplanned::Fault(fault), "", None, Ok(None))
    }

    /// Shows a person a place, the sentence `says` about it, and the advice `helps`, where nothing failed.
    pub fn note(&self, file: &str, place: Option<Place<'_>>, says: &str, helps: &str) {
        if self.explains() {
            self.push_lines(file, place, says, Ok(None), helps);
        }
    }

    /// Shows a person the line `hint` where nothing failed, or else `helps`, unless it is empty. A failed write isn't reported.
    pub fn hint(&self, hint: Hint, helps: &str) {
        if self.is_explained {
            let _ = push_hint(&mut WritePort::new(printable::errors(self.rt)), hint, helps);
        }
    }

    /// Shows a person how the final states of several runs differ; `names` are the threads'. A failed write isn't reported.
    pub fn differences(&self, names: &[&[u8]], outcomes: &Outcomes) {
        if self.is_explained {
            let mut errors = WritePort::new(printable::errors(self.rt));
            let _ = push_differences(names, outcomes, &mut errors);
        }
    }

    /// Shows a person what helps where nothing failed, unless the text is empty.
    pub fn help(&self, helps: &str) {
        self.hint(Ok(None), helps);
    }

    /// Writes at most four lines: a sentence with a place, the line there, a mark, and advice. A failed write isn't reported.
    fn push_lines(
        &self,
        file: &str,
        place: Option<Place<'_>>,
        says: &str,
        hint: Hint,
        helps: &str,
    ) {
        let mut errors = WritePort::new(printable::errors(self.rt));
        let _ = push_place(&mut errors, file, place, says);
        let _ = push_hint(&mut errors, hint, helps);
    }
}

/// Returns the entry of `explain` for the fixed line of a failure; None if it has none. If memory has run out, no line is made:
/// the word `memory` finds the entry. `Spawn` has the same status, but another entry.
fn entry_of(alloc: Global, why: Unplanned) -> Option<Entry> {
    let question = if why.status() == 4 && !matches!(why, Unplanned::Fault(Fault::Spawn)) {
        question_of(&tables(), &["memory"])
    } else {
        // None: no write fails before the room is used up.
        let mut line = MemorySink::new(alloc, LONGEST_LINE, None).ok()?;
        why.tell(&mut line).ok()?;
        question_in_line(alloc, line.bytes()).ok()?
    };
    question.map(|question| question.entry)
}

/// Writes a sentence with its file and place, the line of the file, and a mark in it.
fn push_place<E: Sink>(
    errors: &mut E,
    file: &str,
    place: Option<Place<'_>>,
    says: &str,
) -> Result<(), Failed> {
    if !file.is_empty() {
        push_shown(errors, file.as_bytes())?;
        errors.push(b":")?;
        if let Some(place) = place {
            place.push_numbers(errors)?;
        }
        errors.push(b" ")?;
    }
    push_pieces(errors, &[says.as_bytes(), b"\n"])?;
    match place {
        Some(place) => place.push_line(errors),
        None => Ok(()),
    }
}

/// Writes the line of what helps, or else of this text, unless it is empty.
fn push_hint<E: Sink>(errors: &mut E, hint: Hint, helps: &str) -> Result<(), Failed> {
    match hint {
        Ok(Some(line)) => push_shown(errors, line.as_slice())?,
        _ if helps.is_empty() => return Ok(()),
        _ => push_pieces(errors, &[b"help: ", helps.as_bytes()])?,
    }
    errors.push(b"\n")
}
