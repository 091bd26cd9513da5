//! The arguments of the command line, and what is reported if they ask for no command.
ghost use Rattle.std.specs.Prelude.{◌≤◌, IfOk, length};
ghost use Rattle.command_line.specs.Request.{IsInRange};

use crate::origin::VERSION;
use byte_ports::{Sink, WritePort};
use clap::Error as WordsError;
use clap::error::ErrorKind;
use command_line::ports::printable;
use command_line::request::{Request, When, no_text, parse};
use fault_reports::files::{self, STANDARD_OUTPUT};
use fault_reports::report::Report;
use std::alloc::AllocError;
use std::env::{Env, FillError};
use std::fs;
use suggestions::file_name::is_of_program;
use suggestions::java::found_in;
use thiserror::Error;
use workbench::fault::Fault;

/// The program's name, by whatever name it was called.
const NAME: &str = "vuthgal";

/// Room for most arguments.
const ROOM: usize = 1_024;

/// More bytes than the system lets an argument have.
const LONGEST_WORD: usize = 131_072;

/// What helps where a plan or a STATE lacks quotes.
const QUOTES: &str =
    "quote a plan and a STATE that have blanks: `--plan 'ann. bob.' --expect 'ann out 1'`";

/// What helps where an option begins with one hyphen, or with a dash.
const HYPHENS: &str = "an option begins with two hyphens, as in `--plan`";

/// Words that people write in place of a command, and what there is.
const NO_COMMANDS: &str = "\
version: `vuthgal --version` writes the version
playground app web: the app is the file `vuthgal.html`; `vuthgal show FILE > page.html` writes it with a run
check test: `bin/check FOLDER` checks the kept runs of a folder, and `vuthgal compare` one trace
";

/// Options that people write, and what there is in their place.
const OPTIONS: &str = "\
--plan --plan-file: `run`, `debug`, `show` and `draw` have this option, behind the command's name
--threads --thread: `race` has `--parties N`
--seed: `live` has `--stir SEED`, and `plan` has `--seeds FROM..TO`
-o --out --output: `> FILE` behind the command writes its output to a file
";

/// The status if the arguments are wrong.
const WRONG_WORDS: u8 = 2;

/// Why no command is begun.
#[derive(Debug, Drop, Error)]
pub enum NoCommand {
    #[error("memory")]
    Memory,
    /// The arguments ask for none, or for help.
    #[error("{0}")]
    Words(#[from] WordsError),
}

impl From<AllocError> for NoCommand {
    /// Turns missing memory into `NoCommand::Memory`, so that `?` can pass it on.
    fn from(_error: AllocError) -> NoCommand {
        NoCommand::Memory
    }
}

/// Appends a copy of a word.
fn push_word(rt: &HostRuntime, words: &mut Vec<String>, word: &str) -> Result<(), AllocError> {
    words.push(String::from_str(rt.alloc(), word)?)?;
    Ok(())
}

/// Reads the argument of this number into `room`, and returns its length. The inner error says that there is no such argument,
/// or that it is too long. The room grows only for a long argument: clearing it takes time.
fn read_word(
    rt: &HostRuntime,
    number: usize,
    room: &mut Vec<u8>,
) -> Result<Result<usize, FillError>, AllocError>
    ensures { IfOk result (λ answer. IfOk answer (λ n. n ≤ length room.new.items)) }
{
    match rt.arg(number, room.as_mut_slice()) {
        Err(FillError::TooLong) => {
            room.resize(LONGEST_WORD, 0)?;
            Ok(rt.arg(number, room.as_mut_slice()))
        }
        answer => Ok(answer),
    }
}

/// Returns the program's fixed name, whatever it was called by, and the arguments. One that isn't UTF-8 is an error.
pub fn given(rt: &HostRuntime) -> Result<Vec<String>, NoCommand> {
    let mut words = Vec::new(rt.alloc());
    push_word(rt, &mut words, NAME)?;
    let mut room = Vec::from_elem(rt.alloc(), 0u8, ROOM)?;
    for number in 1..usize::MAX {
        let length = match read_word(rt, number, &mut room)? {
            Ok(length) => length,
            Err(FillError::TooLong) => return Err(NoCommand::Memory),
            Err(FillError::NotPresent) => break,
        };
        match str::from_utf8(&room[..length]) {
            Ok(word) => push_word(rt, &mut words, word)?,
            Err(_) => return Err(NoCommand::Words(no_text(rt.alloc(), VERSION))),
        }
    }
    Ok(words)
}

/// Returns what the arguments ask for, and when a failure is explained, if they say so.
pub fn requested<'a>(
    rt: &HostRuntime,
    words: &'a [String],
) -> Result<(Request<'a>, Option<When>), NoCommand>
    ensures { IfOk result (λ both. IsInRange both.0) }
{
    match parse(rt.alloc(), words, VERSION) {
        Ok(both) => Ok(both),
        Err(error) => Err(NoCommand::Words(error)),
    }
}

/// Writes a help or the version. Returns the exit status.
fn push_help(rt: &HostRuntime, text: &str) -> u8 {
    match print!(rt; "{text}") {
        Ok(()) => 0,
        Err(error) => {
            let report = Report::new(rt, None);
            report.reason.keep(&error);
            files::fail(&report, "", STANDARD_OUTPUT, Fault::Write).status
        }
    }
}

/// Writes an error's text to standard error without blank lines: a failure has at most five lines. It leaves out `clap`'s tips,
/// which guess, if a better one follows (`is_known`); and always the tip for words that begin like an option.
fn push_without_blank_lines(rt: &HostRuntime, text: &str, is_known: bool) {
    let mut errors = WritePort::new(printable::errors(rt));
    for line in text.split('\n') {
        let said = line.trim_ascii();
        let is_tip = said.starts_with("tip: to pass ") || is_known && said.starts_with("tip: ");
        if !said.is_empty() && !is_tip {
            // If standard error can't be written, nobody can be told so: the result is dropped.
            let _ = errors.push(line.as_bytes());
            let _ = errors.push(b"\n");
        }
    }
}

/// Returns whether a plan or a STATE has no quotes. Then two words follow its option, of which the second names no program; or
/// a word ends with a dot, but doesn't follow an option.
fn lack_quotes(words: &[String]) -> bool {
    // 1 after `--plan` or `--expect`, 2 after its first word, 3 after another option, and 0 after other words.
    let mut before = 0;
    for word in words {
        let word = word.as_str();
        let is_second = before == 2 && !word.starts_with("-") && !is_of_program(word);
        if is_second || before == 0 && word.ends_with(".") {
            return true;
        }
        before = match word {
            "--plan" | "--expect" => 1,
            _ if before == 1 => 2,
            _ if word.starts_with("-") => 3,
            _ => 0,
        };
    }
    false
}

/// Returns whether a word begins like an option, but with one hyphen, as `-plan`, or with a longer dash (in UTF-8).
fn have_other_dash(words: &[String]) -> bool {
    words.iter().any(|word| matches!(
        word.as_bytes(),
        [b'-', b'a'..=b'z', _, ..] | [0xe2, 0x80, 0x93 | 0x94, ..]
    ))
}

/// Returns a line of advice on wrong arguments, for example that a file is no command. None if no advice is known. `wrong` is
/// the word that the error is about.
fn help_with(
    rt: &HostRuntime,
    kind: ErrorKind,
    words: &[String],
    wrong: &str,
) -> Result<Option<String>, AllocError> {
    let helps = match kind {
        ErrorKind::InvalidSubcommand if fs::metadata(rt, wrong).is_ok() => {
            return Ok(Some(format!(in rt.alloc();
                "help: `vuthgal run {wrong}` plays a text with its schedule, `vuthgal run {wrong} SCHEDULE` a program\n"
            )?));
        }
        ErrorKind::InvalidSubcommand => found_in(NO_COMMANDS, wrong.as_bytes()),
        ErrorKind::UnknownArgument if have_other_dash(words) => Some(HYPHENS),
        _ if lack_quotes(words) => Some(QUOTES),
        ErrorKind::UnknownArgument => found_in(OPTIONS, wrong.as_bytes()),
        _ => None,
    };
    match helps {
        Some(helps) => Ok(Some(format!(in rt.alloc(); "help: {helps}\n")?)),
        None => Ok(None),
    }
}

impl NoCommand {
    /// Writes to standard error what is wrong with the arguments `words`, and advice, or that memory is missing. If they ask
    /// for help or the version, it writes this text to standard output instead. Returns the exit status.
    pub fn report(&self, rt: &HostRuntime, words: &[String]) -> u8 {
        let text = match self {
            NoCommand::Memory => Err(AllocError),
            NoCommand::Words(error) if error.kind() == ErrorKind::OutOfMemory => Err(AllocError),
            NoCommand::Words(error) => format!(in rt.alloc(); "{error}"),
        };
        match (text, self) {
            // (`use_stderr` is false for help and the version)
            (Ok(text), NoCommand::Words(error)) if error.use_stderr() => {
                // `clap` writes a wrong word in single quotes: this is the text between the first two.
                let wrong = text.as_str().split('\'').nth(1).unwrap_or("");
                let help = help_with(rt, error.kind(), words, wrong).unwrap_or(None);
                push_without_blank_lines(rt, text.as_str(), help.is_some());
                if let Some(help) = help {
                    // Advice that can't be written is left out.
                    let _ = WritePort::new(printable::errors(rt)).push(help.as_bytes());
                }
                WRONG_WORDS
            }
            (Ok(text), _) => push_help(rt, text.as_str()),
            (Err(_), _) => Report::new(rt, None).fault(Fault::Memory).status,
        }
    }
}
