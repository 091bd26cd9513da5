//! What the arguments of a command line ask for.
ghost use Rattle.std.specs.Prelude.{◌≡◌, ◌≤◌, ◌+◌, IfOk, IfSome, Some, codes, map, option_map, string_bytes};
ghost use Rattle.std.specs.Str.Parse.{digits_value};
ghost use Rattle.clap.specs.Words.{app_of, subcommand_rows_of};
ghost use Rattle.command_line.specs.Request.{AreInRange, AreOrders, AreSteps, AreWords, Asks, AsksBy, AsksFor, IsFlag, IsInRange, IsNumber, IsRun, given, rows_in, word_of};

use crate::commands::program;
use clap::error::ErrorKind;
use clap::{ArgMatches, Command, Error};
use std::alloc::{AllocError, Global};
use trace_text::form::is_expectation;

/// What a command line asks for. A file is the name that was given, or `None` for standard input. Numbers are in the ranges of
/// `IsInRange`.
#[derive(Drop)]
pub enum Request<'a> {
    Asm {
        source: &'a str,
        image: &'a str,
    },
    List {
        file: &'a str,
        has_rows: bool,
    },
    Run {
        file: Option<&'a str>,
        steps: Steps<'a>,
        expected: Vec<&'a str>,
    },
    Compare {
        file: &'a str,
        trace: &'a str,
        is_shown: bool,
    },
    Debug {
        file: &'a str,
        steps: Steps<'a>,
    },
    Show {
        file: &'a str,
        steps: Steps<'a>,
    },
    Draw {
        file: &'a str,
        steps: Steps<'a>,
        width: u16,
    },
    Live {
        file: &'a str,
        limit: u32,
        seed: Option<u32>,
        runs: Option<u32>,
        expected: Vec<&'a str>,
    },
    Race {
        parties: u16,
        rounds: u32,
    },
    Choices {
        trace: &'a str,
    },
    Plan {
        file: &'a str,
        plan: Option<&'a str>,
        has_names: bool,
        orders: Option<Orders<'a>>,
    },
    Explain {
        words: Vec<&'a str>,
    },
}

/// The choices that a command plays, or begins after.
#[derive(Clone, Copy)]
pub enum Steps<'a> {
    /// The schedule in the program's own file. A session begins before the first choice.
    Beside,
    /// Those in the file of this name; `-` is standard input.
    Named(&'a str),
    /// Those of the trace in the file of this name.
    Trace(&'a str),
    /// Those of the plan with this text.
    Plan(&'a str),
    /// Those of the plan in the file of this name.
    PlanFile(&'a str),
}

/// Seeds that follow one another: 1 to 100,000 numbers up to 4,294,967,295.
#[derive(Clone, Copy)]
pub struct Seeds {
    pub first: u32,
    pub last: u32,
}

/// Orders by seeds: each of at most `limit` choices, 1 to 1,000,000, if that is given; and how each run has to end.
#[derive(Drop)]
pub struct Orders<'a> {
    pub seeds: Seeds,
    pub limit: Option<u32>,
    pub expected: Vec<&'a str>,
}

/// When a failure is explained.
#[derive(Clone, Copy, PartialEq, Eq)]
pub enum When {
    Always,
    /// At a terminal.
    Auto,
    Never,
}

impl When {
    /// Returns what a word of `--explain` or VUTHGAL_EXPLAIN says. None if it is another.
    pub fn of(word: &str) -> Option<When> {
        match word {
            "always" => Some(When::Always),
            "auto" => Some(When::Auto),
            "never" => Some(When::Never),
            _ => None,
        }
    }
}

/// Why a command line that `clap` accepts is refused.
#[derive(Clone, Copy)]
enum Refusal {
    Memory,
    Wrong(&'static str),
}

impl From<AllocError> for Refusal {
    /// Turns missing memory into `Refusal::Memory`, so that `?` can pass it on.
    fn from(_error: AllocError) -> Refusal {
        Refusal::Memory
    }
}

const NUMBER: &str = "a number is one to ten decimal digits, without a sign";

const STATE: &str =
    "--expect STATE: STATE is ended, all, stuck or live, or words of a line of the state";

const SEEDS: &str =
    "--seeds FROM..TO: at most 100000 numbers from 0 to 4294967295, FROM not above TO, as 1..1000";

const EARLY: &str = "--expect STATE goes after the command's name";

/// Returns the word that is given for this argument or option. None if it is left out.
fn word_given<'a>(matches: &ArgMatches<'a>, place: &str) -> Option<&'a str>
    ensures { option_map (λ word. word.now) result ≡ given place.now (rows_in matches.now) }
{
    matches.get_str(place)
}

/// Returns the word of an argument, or an empty one if the command has no such argument. `clap` has refused a command line that
/// leaves it out.
fn word<'a>(matches: &ArgMatches<'a>, place: &str) -> &'a str
    ensures { result.now ≡ word_of place.now (rows_in matches.now) }
{
    word_given(matches, place).unwrap_or("")
}

/// Returns the words of an argument that takes several, which may be none.
fn words<'a>(
    alloc: Global,
    matches: &ArgMatches<'a>,
    place: &str,
) -> Result<Vec<&'a str>, AllocError>
    ensures { IfOk result (AreWords place.now (rows_in matches.now)) }
{
    Vec::from_slice(alloc, matches.get_strs(place).unwrap_or(&[]))
}

/// Returns whether a flag is given: then `clap` holds the word `true` for it.
fn is_set(matches: &ArgMatches<'_>, flag: &str) -> bool
    ensures { IsFlag (given flag.now (rows_in matches.now)) result }
{
    matches!(word_given(matches, flag), Some("true"))
}

/// Returns the number that one to ten digits spell. None for other texts, and for a number below `least` or above `most`.
fn number(text: &str, least: u32, most: u32) -> Option<u32>
    ensures range { IfSome result (λ n. (least ≤ n) × (n ≤ most)) }
    ensures spelled { IfSome result (λ n. n ≡ digits_value 10 text.now) }
{
    if text.len() > 10 || text.starts_with("+") {
        return None;
    }
    match text.parse::<u32>() {
        Ok(number) if least <= number && number <= most => Some(number),
        _ => None,
    }
}

/// Returns the number of an option, or None if it is left out. `clap` has refused what isn't from `least` to `most`, but not a
/// sign, or more than ten digits.
fn number_given(
    matches: &ArgMatches<'_>,
    option: &str,
    least: u32,
    most: u32,
) -> Result<Option<u32>, Refusal>
    ensures range { IfOk result (λ number. IfSome number (λ n. (least ≤ n) × (n ≤ most))) }
    ensures asked { IfOk result (IsNumber (given option.now (rows_in matches.now))) }
{
    let Some(digits) = word_given(matches, option) else {
        return Ok(None);
    };
    let number = number(digits, least, most).ok_or(Refusal::Wrong(NUMBER))?;
    Ok(Some(number))
}

/// Returns the number of an option that is required or has a default value.
fn needed(matches: &ArgMatches<'_>, option: &str, least: u32, most: u32) -> Result<u32, Refusal>
    ensures range { IfOk result (λ n. (least ≤ n) × (n ≤ most)) }
    ensures asked { IfOk result (λ n. IsNumber (given option.now (rows_in matches.now)) (Some n)) }
{
    number_given(matches, option, least, most)?.ok_or(Refusal::Wrong(NUMBER))
}

/// Returns the words of a text, with one blank between them.
pub fn spaced(alloc: Global, text: &str) -> Result<Vec<u8>, AllocError> {
    let mut spaced = Vec::new(alloc);
    for word in text.split_ascii_whitespace() {
        if !spaced.is_empty() {
            spaced.push(b' ')?;
        }
        spaced.extend_from_slice(word.as_bytes())?;
    }
    Ok(spaced)
}

/// Returns the texts of all `--expect STATE`, with their blanks as they were given; or a refusal if one is no STATE.
fn expected<'a>(alloc: Global, matches: &ArgMatches<'a>) -> Result<Vec<&'a str>, Refusal>
    ensures { IfOk result (AreWords (codes "expect") (rows_in matches.now)) }
{
    let states = words(alloc, matches, "expect")?;
    for state in states.iter() {
        if !is_expectation(spaced(alloc, *state)?.as_slice()) {
            return Err(Refusal::Wrong(STATE));
        }
    }
    Ok(states)
}

/// Returns which choices are asked for: a schedule, `--at`, `--plan`, `--plan-file`, or else those in the program's file.
fn chosen_steps<'a>(matches: &ArgMatches<'a>) -> Steps<'a>
    ensures { AreSteps (rows_in matches.now) result }
{
    if let Some(file) = word_given(matches, "SCHEDULE") {
        Steps::Named(file)
    } else if let Some(trace) = word_given(matches, "at") {
        Steps::Trace(trace)
    } else if let Some(plan) = word_given(matches, "plan") {
        Steps::Plan(plan)
    } else if let Some(file) = word_given(matches, "plan-file") {
        Steps::PlanFile(file)
    } else {
        Steps::Beside
    }
}

/// Returns the seeds that a text such as `1..1000` spells. None if it spells none, or more than 100,000.
fn seeds_in(text: &str) -> Option<Seeds>
    ensures { IfSome result (λ seeds. (seeds.first ≤ seeds.last) × (seeds.last ≤ seeds.first + 99999)) }
{
    let (first, last) = text.split_once("..")?;
    let first = number(first, 0, 4_294_967_295)?;
    let last = number(last, 0, 4_294_967_295)?;
    if first <= last && last - first < 100_000 {
        Some(Seeds { first, last })
    } else {
        None
    }
}

/// Returns the orders that `plan --seeds` asks for, or None without this option.
fn given_orders<'a>(alloc: Global, matches: &ArgMatches<'a>) -> Result<Option<Orders<'a>>, Refusal>
    ensures range { IfOk result (λ orders. IfSome orders AreInRange) }
    ensures asked { IfOk result (AreOrders (rows_in matches.now)) }
{
    let Some(text) = word_given(matches, "seeds") else {
        return Ok(None);
    };
    let Some(seeds) = seeds_in(text) else {
        return Err(Refusal::Wrong(SEEDS));
    };
    Ok(Some(Orders {
        seeds,
        limit: number_given(matches, "limit", 1, 1_000_000)?,
        expected: expected(alloc, matches)?,
    }))
}

/// Returns the request of `live`, whose numbers are in their ranges.
fn live<'a>(alloc: Global, matches: &ArgMatches<'a>) -> Result<Request<'a>, Refusal>
    ensures range { IfOk result IsInRange }
    ensures asked { IfOk result (AsksBy (codes "live") (rows_in matches.now)) }
{
    Ok(Request::Live {
        file: word(matches, "FILE"),
        limit: needed(matches, "limit", 1, 1_000_000_000)?,
        seed: number_given(matches, "stir", 0, 4_294_967_295)?,
        runs: number_given(matches, "runs", 1, 100_000)?,
        expected: expected(alloc, matches)?,
    })
}

/// Returns the request of `race`, whose numbers are in their ranges.
fn race<'a>(matches: &ArgMatches<'a>) -> Result<Request<'a>, Refusal>
    ensures range { IfOk result IsInRange }
    ensures asked { IfOk result (AsksBy (codes "race") (rows_in matches.now)) }
{
    Ok(Request::Race {
        parties: needed(matches, "parties", 1, 16)? as u16,
        rounds: needed(matches, "rounds", 1, 1_000_000)?,
    })
}

/// Returns the request of `draw`, whose width is in its range.
fn draw<'a>(matches: &ArgMatches<'a>) -> Result<Request<'a>, Refusal>
    ensures range { IfOk result IsInRange }
    ensures asked { IfOk result (AsksBy (codes "draw") (rows_in matches.now)) }
{
    Ok(Request::Draw {
        file: word(matches, "FILE"),
        steps: chosen_steps(matches),
        width: needed(matches, "width", 60, 1000)? as u16,
    })
}

/// Returns the run that is asked for: of a file, or else of standard input.
fn run<'a>(
    alloc: Global,
    file: Option<&'a str>,
    matches: &ArgMatches<'a>,
) -> Result<Request<'a>, Refusal>
    ensures range { IfOk result IsInRange }
    ensures asked { IfOk result (IsRun file.entry (rows_in matches.now)) }
{
    Ok(Request::Run {
        file,
        steps: chosen_steps(matches),
        expected: expected(alloc, matches)?,
    })
}

/// Returns the request of the command of this name, one of those that `clap` knows: any name that isn't listed here is
/// `explain`. `file` is empty for a command that has no FILE, and isn't used there.
fn request_by<'a>(
    alloc: Global,
    command: &str,
    matches: &ArgMatches<'a>,
) -> Result<Request<'a>, Refusal>
    ensures range { IfOk result IsInRange }
    ensures asked { IfOk result (AsksBy command.now (rows_in matches.now)) }
{
    let file = word(matches, "FILE");
    match command {
        "asm" => Ok(Request::Asm {
            source: word(matches, "SRC"),
            image: word(matches, "OUT"),
        }),
        "list" => Ok(Request::List {
            file,
            has_rows: is_set(matches, "rows"),
        }),
        "run" => run(alloc, Some(file), matches),
        "compare" => Ok(Request::Compare {
            file,
            trace: word(matches, "TRACE"),
            is_shown: is_set(matches, "show"),
        }),
        "debug" => Ok(Request::Debug {
            file,
            steps: chosen_steps(matches),
        }),
        "show" => Ok(Request::Show {
            file,
            steps: chosen_steps(matches),
        }),
        "draw" => draw(matches),
        "live" => live(alloc, matches),
        "race" => race(matches),
        "choices" => Ok(Request::Choices {
            trace: word(matches, "TRACE"),
        }),
        "plan" => Ok(Request::Plan {
            file,
            plan: word_given(matches, "PLAN"),
            has_names: is_set(matches, "names"),
            orders: given_orders(alloc, matches)?,
        }),
        _ => Ok(Request::Explain {
            words: words(alloc, matches, "WORD")?,
        }),
    }
}

/// Returns the request of the command. Without a command it is a run of standard input. `--expect` before a command is refused.
fn request_of<'a>(alloc: Global, matches: &ArgMatches<'a>) -> Result<Request<'a>, Refusal>
    ensures range { IfOk result IsInRange }
    ensures asked { IfOk result (Asks (rows_in matches.now) (subcommand_rows_of matches.now)) }
{
    let Some((command, of_command)) = matches.subcommand() else {
        return run(alloc, None, matches);
    };
    if word_given(matches, "expect").is_some() {
        return Err(Refusal::Wrong(EARLY));
    }
    request_by(alloc, command, of_command)
}

/// Returns what the words ask for by this table of commands, and the word of `--explain`, if it is given; or the error that is
/// reported. It is apart from `parse`, so that its contract can name the table.
fn parsed<'a>(
    alloc: Global,
    program: &mut Command<'a>,
    words: &'a [String],
) -> Result<(Request<'a>, Option<When>), Error>
    ensures range { IfOk result (λ both. IsInRange both.0) }
    ensures asked { IfOk result (λ both. AsksFor (app_of program.old) (map (λ word. string_bytes word) words.now) both.0) }
{
    let matches = program.try_get_matches_from_mut(words)?;
    let when = matches.get_str("explain").and_then(|word| When::of(word));
    match request_of(alloc, &matches) {
        Ok(request) => Ok((request, when)),
        Err(Refusal::Memory) => Err(Error::from(AllocError)),
        Err(Refusal::Wrong(text)) => Err(program.error(ErrorKind::ValueValidation, text)?),
    }
}

/// Returns the error that is reported if one of the arguments isn't UTF-8.
pub fn no_text(alloc: Global, version: &str) -> Error {
    let mut program = match program(alloc, version) {
        Ok(program) => program,
        Err(memory) => return Error::from(memory),
    };
    match program.error(
        ErrorKind::ValueValidation,
        "invalid UTF-8 was detected in one or more arguments",
    ) {
        Ok(error) => error,
        Err(memory) => Error::from(memory),
    }
}

/// Returns what the arguments, after the program's name, ask for, and when a failure is explained, if they say so. `--help` and
/// `--version`, which prints this version, are errors with the `exit_code` 0. For wrong arguments it is 2.
pub fn parse<'a>(
    alloc: Global,
    words: &'a [String],
    version: &'a str,
) -> Result<(Request<'a>, Option<When>), Error>
    ensures { IfOk result (λ both. IsInRange both.0) }
{
    let mut program = program(alloc, version)?;
    parsed(alloc, &mut program, words)
}
