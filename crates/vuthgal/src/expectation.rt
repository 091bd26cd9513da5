//! Whether a run ended as each `--expect STATE` says, and what is reported if it didn't.

ghost use Rattle.std.specs.Prelude.{◌≡◌};
ghost use Rattle.vuthgal.specs.Expectation.{are_as_expected, done_by};

use assembler::Symbols;
use byte_ports::{Failed, Sink, WritePort};
use command_line::ports::printable;
use command_line::request::spaced;
use fault_reports::report::{Report, Reported};
use itoa::Buffer;
use refusals::entry::push_pieces;
use std::alloc::{AllocError, Global};
use suggestions::hint::{Hint, near};
use suggestions::names::{letter_of, names_in};
use suggestions::nearest::nearest_of;
use thread_machine::Standing;
use trace_text::RunEnd;
use trace_text::expectation::{is_end_expected, is_met};
use trace_text::form::{end_words, subject_of, words_of};
use trace_text::state_line::{has_died, line_of};
use workbench::done::Done;
use workbench::fault::Fault;

/// Appends the word that begins an object's line in the state, for example `t0`, for the object's name; or the name itself if
/// nothing has it. A declared name goes before a number: `t0` is thread 0 only if nothing else has this name.
fn push_subject(text: &mut Vec<u8>, symbols: &Symbols<'_>, name: &[u8]) -> Result<(), AllocError> {
    for index in 0..symbols.len() {
        let Some(symbol) = symbols.get(index) else {
            break;
        };
        if symbol.name == name {
            if let Some(letter) = letter_of(symbol.kind) {
                text.extend_from_slice(letter.as_bytes())?;
                return text.extend_from_slice(Buffer::new().format(symbol.number).as_bytes());
            }
        }
    }
    text.extend_from_slice(name)
}

/// Returns a STATE with the number of its object in place of the name, as `t0 waits` for `ann waits`, and single blanks.
fn numbered(alloc: Global, symbols: &Symbols<'_>, state: &str) -> Result<Vec<u8>, AllocError> {
    let text = spaced(alloc, state)?;
    if end_words(text.as_slice()).is_some() {
        return Ok(text);
    }
    let mut numbered = Vec::new(alloc);
    push_subject(&mut numbered, symbols, subject_of(text.as_slice()))?;
    numbered.extend_from_slice(words_of(text.as_slice()))?;
    Ok(numbered)
}

/// Returns the texts of `--expect STATE`, with numbers in place of the names of a program's objects.
pub fn expectations(
    report: &Report<'_>,
    names: &Symbols<'_>,
    texts: &[&str],
) -> Result<Vec<Vec<u8>>, Reported> {
    let mut expected = Vec::new(report.alloc());
    for text in texts {
        let is_pushed = match numbered(report.alloc(), names, *text) {
            Ok(numbered) => expected.push(numbered).is_ok(),
            Err(_) => false,
        };
        if !is_pushed {
            return Err(report.fault(Fault::Memory));
        }
    }
    Ok(expected)
}

/// Returns whether a run ended as each of these texts expects.
fn are_as_expected(expected: &[Vec<u8>], end: &RunEnd) -> bool
    ensures { result ≡ are_as_expected expected.now end.now }
{
    expected
        .iter()
        .all(|text| is_end_expected(end, text.as_slice()))
}

/// Returns the result of a command: `Unlike`, with status 1, if its run didn't end as expected.
pub fn as_expected(expected: &[Vec<u8>], end: &RunEnd) -> Done
    ensures { result ≡ done_by (are_as_expected expected.now end.now) }
{
    if are_as_expected(expected, end) {
        Done::AsAsked
    } else {
        Done::Unlike
    }
}

/// Returns the line of a final state that differs from what a text expects: for `ended`, that of a thread that died, if all are
/// over. None if the state has no line for the text.
fn line_against<'a>(state: &'a [u8], text: &[u8]) -> Option<&'a [u8]> {
    if end_words(text).is_none() {
        return line_of(state, subject_of(text));
    }
    if text == b"ended".as_slice() && is_met(state, b"all") {
        return state
            .split(|byte| *byte == b'\n')
            .find(|line| has_died(line));
    }
    line_of(state, b"state")
}

/// Writes a line for each text that isn't met: the text, the seed of the run if it has one, and the line that says otherwise.
fn push_all_unmet<E: Sink>(
    errors: &mut E,
    expected: &[Vec<u8>],
    seed: Option<u64>,
    end: &RunEnd,
) -> Result<(), Failed> {
    for text in expected
        .iter()
        .filter(|text| !is_end_expected(end, text.as_slice()))
    {
        let line = match &end.refused {
            Some(refused) => refused.line.as_slice().trim_ascii_end(),
            None => line_against(end.state.as_slice(), text.as_slice()).unwrap_or(b"no such line"),
        };
        push_pieces(errors, &[b"expected ", text.as_slice(), b": "])?;
        if let Some(seed) = seed {
            push_pieces(errors, &[b"?", Buffer::new().format(seed).as_bytes(), b" "])?;
        }
        push_pieces(errors, &[line, b"\n"])?;
    }
    Ok(())
}

/// Returns advice for a run that ended with this standing, where `text` was expected. `has_seed`: a seed chose the order.
fn helps_at_end(text: &[u8], standing: Standing, has_seed: bool) -> &'static str {
    match standing {
        _ if has_seed => "`vuthgal draw FILE --plan '?SEED'` draws the run of this seed",
        _ if end_words(text).is_none() =>
            "another schedule, or words of the line in a row; after `regs`, `stack` or `out` all its numbers",
        Standing::Live => "more choices, as `..` at the end of a plan, or `--expect live`",
        Standing::Stuck =>
            "`vuthgal draw` shows which thread waits, and where, or `--expect stuck`",
        Standing::All =>
            "another schedule, or what the line says; `--expect all` allows dead threads",
    }
}

/// Shows a person what helps if a run's end isn't as a text expects.
fn note_unmet(report: &Report<'_>, program: &[u8], text: &[u8], end: &RunEnd, has_seed: bool) {
    if line_against(end.state.as_slice(), text).is_some() {
        return report.help(helps_at_end(text, end.standing, has_seed));
    }
    report.hint(
        hint_at_subject(report.alloc(), program, subject_of(text)),
        "a STATE is all, ended, stuck or live, or begins with a thread, a phaser, a barrier or a cell",
    );
}

/// Returns the line `near: NAME` with the declared name nearest to the one that a STATE begins with. None if none is near.
fn hint_at_subject(alloc: Global, program: &[u8], subject: &[u8]) -> Hint {
    let names = names_in(alloc, program, None)?;
    match nearest_of(alloc, names.as_slice(), subject)?.meant {
        Some(name) => near(alloc, name),
        None => Ok(None),
    }
}

/// Reports each text that a run's end doesn't meet, in a line, and to a person what helps at the first. `seed` is that of a run
/// in random order. If standard error can't be written, that isn't reported.
pub fn report_unmet(
    report: &Report<'_>,
    program: &[u8],
    expected: &[Vec<u8>],
    seed: Option<u64>,
    end: &RunEnd,
) {
    let mut errors = WritePort::new(printable::errors(report.rt));
    let _ = push_all_unmet(&mut errors, expected, seed, end);
    if end.refused.is_some() || !report.explains() {
        return;
    }
    let unmet = expected
        .iter()
        .find(|text| !is_end_expected(end, text.as_slice()));
    if let Some(text) = unmet {
        note_unmet(report, program, text.as_slice(), end, seed.is_some());
    }
}
