//! What a line that is no command may have been meant as.
ghost use Rattle.std.specs.Prelude.{◌≤◌, length};

use crate::spoken::first_and_rest;
use assembler::Symbols;
use assembler::word_place::WordPlace;
use byte_ports::{Failed, Sink};
use instruction_table::OperandKind;
use itoa::Buffer;
use line_reader::words::is_blank;
use plans::fault::PlanFaultKind;
use refusals::entry::push_pieces;
use std::alloc::{AllocError, Global};
use suggestions::java::found_in;
use suggestions::nearest::nearest_of;
use suggestions::plan_line::{fault_of_word, word_places};
use suggestions::plan_word::{helps_at, near_choice};
use thread_machine::Machine;

/// What is shown of a line of which nothing more is known.
const NO_COMMAND: &str = "not a command, or no such thread or row: `help` lists the commands";

/// The commands of other debuggers, and what does the same here.
const ELSEWHERE: &str = "\
step next n: `s NAME`, or NAME alone, is one choice of a thread; Enter repeats it
continue cont run r: `..` plays all threads in turn, up to a breakpoint; `ann.` plays ann until it waits
break breakpoint clear: `k ROW` sets a breakpoint at a row or a label, and `c ROW` clears it; `b` takes a choice back
undo u back: `b` takes the last choice back
print info state bt: `p` shows the state
list: the rows are above the first reply; `vuthgal list --rows FILE` writes them, too
save: `w` writes the choices so far, as a plan
quit exit: `q` ends the session
h: `help` lists the commands
";

/// Returns what helps if `s` or `g` isn't followed by choices alone, or `None` if nothing is known.
fn helps_at_choices(word: &[u8], rest: &[u8]) -> Option<&'static str> {
    let is_step = word == b"s".as_slice();
    if is_step && rest.is_empty() {
        found_in(ELSEWHERE, b"step")
    } else if is_step && rest.iter().any(|byte| is_blank(*byte)) {
        Some("`s` is one choice: `g ann bob` plays several")
    } else if is_step && rest.contains(&b'*') {
        Some("`s` is one choice: `g ann*3` plays three")
    } else if rest.contains(&b'.') || rest.contains(&b'?') || rest.contains(&b'(') {
        Some("a plan is typed without a command, as in `ann.` or `..`")
    } else {
        None
    }
}

/// Returns what helps with a line by its first word: a command of another debugger, or one of this one that is used wrongly.
fn helps_at_command(said: &[u8]) -> Option<&'static str> {
    let (word, rest) = first_and_rest(said);
    // 27 is the byte of Escape, with which an arrow key's bytes begin.
    if said.contains(&27) {
        return Some(
            "such keys aren't read: Enter repeats the last command, `b` takes a choice back",
        );
    }
    if matches!(
        word,
        [b'B' | b'C' | b'G' | b'K' | b'P' | b'Q' | b'S' | b'W']
    ) {
        return Some("commands are in small letters, as in `s ann`");
    }
    match word {
        b"" => Some("there is no command to repeat yet: `help` lists the commands"),
        b"b" => found_in(ELSEWHERE, b"break"),
        b"p" => Some("`p` alone shows the whole state"),
        b"w" => Some("`w` alone writes the choices so far, as a plan"),
        b"q" => Some("`q` alone ends the session"),
        b"help" | b"?" => Some("`help` alone lists the commands"),
        b"k" if rest.is_empty() => found_in(ELSEWHERE, b"break"),
        b"c" if rest.is_empty() => Some(
            "`c ROW` clears a breakpoint; `..` plays on, up to a breakpoint",
        ),
        b"s" | b"g" => helps_at_choices(word, rest),
        _ => found_in(ELSEWHERE, word),
    }
}

/// Returns the first wrong word of a plan, and what is wrong with it, or `None` if each word is right, or without memory.
fn wrong_word(alloc: Global, names: &[&[u8]], plan: &[u8]) -> Option<(WordPlace, PlanFaultKind)>
    requires { length names.now ≤ 64 }
{
    for place in word_places(alloc, plan).ok()?.iter() {
        let word = plan.get(place.at..place.at.saturating_add(place.length))?;
        if let Some(kind) = fault_of_word(alloc, names, word) {
            return Some((*place, kind));
        }
    }
    None
}

/// Writes a line: `label`, and directly after it `text`.
fn push_line<E: Sink>(notes: &mut E, label: &[u8], text: &[u8]) -> Result<(), Failed> {
    push_pieces(notes, &[label, text, b"\n"])
}

/// Writes a line of help after two blanks.
fn push_help<E: Sink>(notes: &mut E, helps: &str) -> Result<(), Failed> {
    push_line(notes, b"  ", helps.as_bytes())
}

/// Writes the number of the last of `count` threads, after a choice of a thread that doesn't exist.
pub fn push_threads<E: Sink>(notes: &mut E, count: usize) -> Result<(), Failed> {
    match count.checked_sub(1) {
        Some(last) => push_line(
            notes,
            b"  no such thread: the last is t",
            Buffer::new().format(last).as_bytes(),
        ),
        None => push_help(notes, NO_COMMAND),
    }
}

/// Writes what helps with the first wrong word of a plan, or of what follows `s` or `g`.
fn push_at_plan<E: Sink>(
    alloc: Global,
    notes: &mut E,
    names: &[&[u8]],
    machine: &Machine,
    plan: &[u8],
) -> Result<(), Failed>
    requires { length names.now ≤ 64 }
{
    let Some((place, kind)) = wrong_word(alloc, names, plan) else {
        return push_help(notes, "each `(` needs a `)` behind it, as in `(ann bob)*3`");
    };
    let (front, rest) = plan.split_at(place.at.min(plan.len()));
    let word = rest.get(..place.length).unwrap_or(rest);
    if let Some(helps) = helps_at(kind, word, front.last().copied()) {
        return push_help(notes, helps);
    }
    match kind {
        PlanFaultKind::NoThread => push_threads(notes, machine.thread_count()),
        PlanFaultKind::BadCount => push_help(notes, "a number from 1 to 1000000 follows the star"),
        PlanFaultKind::BadSeed => push_help(
            notes,
            "a number follows the question mark, as in `?7`",
        ),
        _ => {
            push_help(notes, NO_COMMAND)?;
            match near_choice(alloc, names, word) {
                Ok(Some(near)) => push_line(notes, b"  near: ", near.as_slice()),
                _ => Ok(()),
            }
        }
    }
}

/// Returns the label that is most like a word, or `None` if none is like it.
fn nearest_label<'a>(
    alloc: Global,
    symbols: &Symbols<'a>,
    word: &[u8],
) -> Result<Option<&'a [u8]>, AllocError> {
    let mut labels: Vec<&'a [u8]> = Vec::new(alloc);
    for index in 0..symbols.len() {
        if let Some(symbol) = symbols.get(index) {
            if symbol.kind == OperandKind::Target {
                labels.push(symbol.name)?;
            }
        }
    }
    Ok(nearest_of(alloc, labels.as_slice(), word)?.meant)
}

/// Writes which rows there are, and the label that may have been meant.
fn push_rows<E: Sink>(
    alloc: Global,
    notes: &mut E,
    symbols: &Symbols<'_>,
    machine: &Machine,
    row: &[u8],
) -> Result<(), Failed> {
    let rows = machine.loaded().rows().len();
    push_line(
        notes,
        b"  ROW is a label, or a number from 0 to ",
        Buffer::new().format(rows.saturating_sub(1)).as_bytes(),
    )?;
    match nearest_label(alloc, symbols, row) {
        Ok(Some(label)) => push_line(notes, b"  near: ", label),
        _ => Ok(()),
    }
}

/// Writes what a person may have meant with a line that the debugger answered with `?`.
pub fn push_unknown<E: Sink>(
    alloc: Global,
    notes: &mut E,
    symbols: &Symbols<'_>,
    names: &[&[u8]],
    machine: &Machine,
    said: &[u8],
) -> Result<(), Failed>
    requires { length names.now ≤ 64 }
{
    if let Some(helps) = helps_at_command(said) {
        return push_help(notes, helps);
    }
    match first_and_rest(said) {
        (b"k" | b"c", row) => push_rows(alloc, notes, symbols, machine, row),
        (b"s" | b"g", tokens) => push_at_plan(alloc, notes, names, machine, tokens),
        _ => push_at_plan(alloc, notes, names, machine, said),
    }
}
