// Reads a line of a session: its first word, which is one letter, and what follows it.
ghost use Rattle.std.specs.Prelude.{◌≡◌, List, Option, OnErr, true, false, ◌==◌, ◌+◌, ◌≤◌, ◌<◌, ◌∷◌, [], IfOk, IfSome, length};
ghost use Rattle.std.specs.{List.list_all, List.list_any, List.position, List.position_or_len, Option.option_map};
ghost use Rattle.schedule_reader.specs.{Few.few_of, Schedule.choice_of, Schedule.is_blank, Schedule.run_of};
ghost use Rattle.schedule_reader.specs.declared.run.Run.{Run};
ghost use Rattle.debugger.specs.Command.{Break, Clear, Go, alone, by_row, go_by, goes_on, is_go, is_letter, is_row, letter_of, line_order, order_of, rest_of, row_in, runs_in, step_by, word_of};

use line_reader::number::{are_digits, digits_value};
use schedule_reader::{Few, Run, ScheduleFault, few_runs, is_blank, read_schedule};
use std::alloc::{AllocError, Global};
use thread_machine::Choice;

/// The last thread that a token can name.
const LAST_THREAD: u8 = 63;

/// What a line asks for.
#[derive(Drop)]
pub enum Command {
    /// One choice.
    Step(Choice),
    /// Choices up to a breakpoint.
    Go(Vec<Run>),
    /// One choice back.
    Back,
    /// A breakpoint at a row.
    Break(usize),
    /// No breakpoint at a row.
    Clear(usize),
    /// The machine's state.
    Print,
    /// The end of the session.
    Quit,
    /// Anything else.
    Unknown,
}

impl Command {
    /// Returns whether the session goes on after this command: only `Quit` ends it.
    pub fn goes_on(&self) -> bool
        ensures { result ≡ goes_on (order_of self.now) }
    {
        match self {
            Command::Step(_) | Command::Go(_) | Command::Back | Command::Break(_) => true,
            Command::Clear(_) | Command::Print | Command::Unknown => true,
            Command::Quit => false,
        }
    }
}

/// Returns the place of the first byte that is no blank, or `None` if there is none.
fn place_of_word(line: &[u8]) -> Option<usize>
    ensures { result ≡ position is_letter line.now }
{
    line.iter().position(|byte| !is_blank(*byte))
}

/// Returns the place of the first blank, or `None` if there is none.
fn place_of_blank(line: &[u8]) -> Option<usize>
    ensures { result ≡ position is_blank line.now }
{
    line.iter().position(|byte| is_blank(*byte))
}

/// Returns how many blanks a line begins with.
#[tactic(auto, using(crate::proofs::Places::position_some, crate::proofs::Places::position_none))]
fn length_before_word(line: &[u8]) -> usize
    ensures length { result ≡ position_or_len is_letter line.now }
    ensures within { result ≤ length line.now }
{
    match place_of_word(line) {
        Some(place) => place,
        None => line.len(),
    }
}

/// Returns how many bytes precede the first blank: all if there is none.
#[tactic(auto, using(crate::proofs::Places::position_some, crate::proofs::Places::position_none))]
fn length_before_blank(line: &[u8]) -> usize
    ensures length { result ≡ position_or_len is_blank line.now }
    ensures within { result ≤ length line.now }
{
    match place_of_blank(line) {
        Some(place) => place,
        None => line.len(),
    }
}

/// Returns the first word, without the blanks before it, and what follows it.
fn split_word(line: &[u8]) -> (&[u8], &[u8])
    ensures word { result.0.now ≡ word_of line.now }
    ensures rest { result.1.now ≡ rest_of line.now }
    ensures lengths { length result.0.now + length result.1.now ≤ length line.now }
{
    let from = &line[length_before_word(line)..];
    let end = length_before_blank(from);
    (&from[..end], &from[end..])
}

/// Returns the only byte of a word, or 0 if it has more or none.
fn letter_of(word: &[u8]) -> u8
    ensures letter { result ≡ letter_of word.now }
    ensures some { 0 < result → 0 < length word.now }
{
    match word {
        [letter] => *letter,
        _ => 0,
    }
}

/// Returns whether all of these bytes are blanks.
fn are_blank(rest: &[u8]) -> bool
    ensures { result ≡ list_all is_blank rest.now }
{
    rest.iter().all(|byte| is_blank(*byte))
}

/// Returns whether `*` is among these bytes.
fn has_star(rest: &[u8]) -> bool
    ensures { result ≡ list_any (λ byte. byte == 42) rest.now }
{
    rest.iter().any(|byte| *byte == b'*')
}

/// Returns whether these tokens name no run, one (which it returns), or more. `None`: they have a fault. It needs no memory.
fn few_in(tokens: &[u8]) -> Option<Few>
    requires { length tokens.now < 9223372036854775807 }
    ensures { result ≡ option_map few_of (runs_in tokens.now) }
{
    match few_runs(tokens) {
        Ok(few) => Some(few),
        Err(_) => None,
    }
}

/// Returns the runs that these tokens name. `None`: they have a fault. `Err`: no memory.
fn runs_in(alloc: Global, tokens: &[u8]) -> Result<Option<Vec<Run>>, AllocError>
    requires { length tokens.now < 9223372036854775807 }
    ensures { IfOk result (λ runs. option_map (λ r. r.items) runs ≡ runs_in tokens.now) }
{
    match read_schedule(alloc, tokens) {
        Ok(runs) => Ok(Some(runs)),
        Err(ScheduleFault::Memory) => Err(AllocError),
        Err(_) => Ok(None),
    }
}

/// Returns the command `g` with these runs, or `Unknown` if the tokens had a fault.
fn go_of(runs: Option<Vec<Run>>) -> Command
    ensures { order_of result ≡ go_by (option_map (λ r. r.items) runs) }
{
    match runs {
        Some(runs) => Command::Go(runs),
        None => Command::Unknown,
    }
}

/// Returns the command `s` if there is one choice and no star, or else `Unknown`.
fn step_of(few: Option<Few>, tokens: &[u8]) -> Command
    ensures { (runs : Option (List Run)) → few ≡ option_map few_of runs → order_of result ≡ step_by runs tokens.now }
{
    match few {
        Some(Few::One(run)) if !has_star(tokens) => Command::Step(run.choice),
        _ => Command::Unknown,
    }
}

/// Returns this command if only blanks follow its letter, or else `Unknown`.
fn alone(command: Command, rest: &[u8]) -> Command
    ensures { order_of result ≡ alone (order_of command) rest.now }
{
    if are_blank(rest) {
        command
    } else {
        Command::Unknown
    }
}

/// Returns whether a word may be a row's number: one to five digits.
fn is_row(word: &[u8]) -> bool
    ensures { result ≡ is_row word.now }
{
    !word.is_empty() && word.len() <= 5 && are_digits(word)
}

/// Returns the row's number if it is the only word. `None`: it isn't, or is no number of 1 to 5 digits.
fn row_in(rest: &[u8]) -> Option<usize>
    ensures { result ≡ row_in rest.now }
{
    let (word, after) = split_word(rest);
    if is_row(word) && are_blank(after) {
        Some(digits_value(word) as usize)
    } else {
        None
    }
}

/// Returns the command `k` with this row, or `Unknown` if there is none.
fn break_of(row: Option<usize>) -> Command
    ensures { order_of result ≡ by_row Break row }
{
    match row {
        Some(row) => Command::Break(row),
        None => Command::Unknown,
    }
}

/// Returns the command `c` with this row, or `Unknown` if there is none.
fn clear_of(row: Option<usize>) -> Command
    ensures { order_of result ≡ by_row Clear row }
{
    match row {
        Some(row) => Command::Clear(row),
        None => Command::Unknown,
    }
}

/// Returns the thread, 0 to 63, that one or two digits name. `None`: these bytes name no such thread.
fn thread_of(digits: &[u8]) -> Option<u8>
    ensures { IfSome result (λ thread. line_order (103 ∷ 32 ∷ 116 ∷ digits.now)
        ≡ Go (run_of (choice_of false thread) 1 ∷ [])) }
{
    match digits {
        [one] if one.is_ascii_digit() => Some(*one - b'0'),
        [ten, one] if ten.is_ascii_digit() && one.is_ascii_digit() => {
            let thread = (*ten - b'0') * 10 + (*one - b'0');
            if thread <= LAST_THREAD {
                Some(thread)
            } else {
                None
            }
        }
        _ => None,
    }
}

/// Returns the turn of a line such as `g t2`, which is frequent, and needs no memory. `None`: it is no such line.
pub fn lone_turn(line: &[u8]) -> Option<Run>
    ensures turn { IfSome result (λ run. line_order line.now ≡ Go (run ∷ [])) }
{
    match line {
        [b'g', b' ', b't', digits @ ..] => match thread_of(digits) {
            Some(thread) => Some(Run::once(Choice {
                thread,
                expiry: false,
            })),
            None => None,
        },
        _ => None,
    }
}

/// Returns whether a line of `g` names no run, one (which it returns), or more. `None`: it has a fault. It needs no memory.
pub fn few_of_go(line: &[u8]) -> Option<Few>
    requires { is_go line.now ≡ true }
    ensures { result ≡ option_map few_of (runs_in (rest_of line.now)) }
{
    let (_, rest) = split_word(line);
    few_in(rest)
}

/// Returns the command that a line stands for. Fails if it is out of memory for runs of `g`.
pub fn command_of(alloc: Global, line: &[u8]) -> Result<Command, AllocError>
    ensures order { IfOk result (λ command. order_of command ≡ line_order line.now) }
    ensures memory { OnErr result (is_go line.now ≡ true) }
{
    let (word, rest) = split_word(line);
    Ok(match letter_of(word) {
        b's' => step_of(few_in(rest), rest),
        b'g' => go_of(runs_in(alloc, rest)?),
        b'k' => break_of(row_in(rest)),
        b'c' => clear_of(row_in(rest)),
        b'b' => alone(Command::Back, rest),
        b'p' => alone(Command::Print, rest),
        b'q' => alone(Command::Quit, rest),
        _ => Command::Unknown,
    })
}
