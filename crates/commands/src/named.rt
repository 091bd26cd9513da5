//! Schedules by the names of the threads, which are plans.
ghost use Rattle.std.specs.Prelude.{◌≡◌, ◌≤◌, ◌++◌, All, Err, IfErr, IfOk, IfSome, OnOk, Ok, Some, length, map, option_map};
ghost use Rattle.std.specs.Fmt.{decimal};
ghost use Rattle.commands.specs.Named.{choice_word, is_once, is_only, name_word, named_text, named_token, names_seen, number_word, spaced_words, text_by};
ghost use Rattle.line_reader.specs.Seen.{name_seen};
ghost use Rattle.plans.specs.Plan.{words_in_plan};
ghost use Rattle.schedule_reader.specs.{Text.letter_of, Text.times_text, Schedule.IsRun};

use itoa::Buffer;
use plans::fault::{PlanFault, PlanFaultKind};
use plans::read_plan;
use plans::word::{Step, Word};
use schedule_reader::{Run, write_schedule};
use std::alloc::{AllocError, Global};
use thread_machine::Choice;

/// Returns a choice by its thread's name, as `ann`, or `xann` for an expiry. For a thread without a name the result is empty,
/// or only `x`.
#[tactic(auto, using(crate::proofs::Naming::name_at))]
fn name_word(alloc: Global, names: &[&[u8]], choice: Choice) -> Result<Vec<u8>, AllocError>
    ensures { IfOk result (λ word. word.items ≡ name_word (map name_seen names.now) choice) }
{
    let mut word = Vec::new(alloc);
    if choice.expiry {
        word.push(b'x')?;
    }
    if let Some(name) = names.get(usize::from(choice.thread)) {
        word.extend_from_slice(name)?;
    }
    Ok(word)
}

/// Returns a choice by its thread's number, as `t2` or `x2`.
fn number_word(alloc: Global, choice: Choice) -> Result<Vec<u8>, AllocError>
    ensures { IfOk result (λ word. word.items ≡ number_word choice) }
{
    let mut word = Vec::new(alloc);
    word.push(if choice.expiry { b'x' } else { b't' })?;
    word.extend_from_slice(Buffer::new().format(choice.thread).as_bytes())?;
    Ok(word)
}

/// Returns whether a word of a plan makes this choice once.
fn is_once(choice: Choice, word: Word) -> bool
    ensures { result ≡ is_once choice word }
{
    match word {
        Word::Step(Step::Make { chosen, times }) => chosen.thread == choice.thread
            && chosen.expiry == choice.expiry
            && times == 1,
        _ => false,
    }
}

/// Returns whether a plan of this text makes `choice` once, and nothing else. A text with a fault doesn't.
fn is_only(alloc: Global, names: &[&[u8]], text: &[u8], choice: Choice) -> Result<bool, AllocError>
    requires { length names.now ≤ 64 }
    ensures { IfOk result (λ is. is ≡ is_only choice (words_in_plan (map name_seen names.now) text.now)) }
{
    let words = match read_plan(alloc, text, names) {
        Ok(words) => words,
        Err(
            PlanFault {
                kind: PlanFaultKind::Memory,
                ..
            },
        ) => return Err(AllocError),
        Err(_) => return Ok(false),
    };
    let mut words = words.all();
    let Some(first) = words.next() else {
        return Ok(false);
    };
    if words.next().is_some() {
        return Ok(false);
    }
    Ok(is_once(choice, first))
}

/// Returns a choice by its thread's name, if a plan reads the name as this choice, and otherwise by number. So an expiry of
/// `ann` is `x0` if another thread is called `xann`.
fn choice_word(alloc: Global, names: &[&[u8]], choice: Choice) -> Result<Vec<u8>, AllocError>
    requires { length names.now ≤ 64 }
    ensures { IfOk result (λ word. word.items ≡ choice_word (map name_seen names.now) choice) }
{
    let word = name_word(alloc, names, choice)?;
    if is_only(alloc, names, word.as_slice(), choice)? {
        return Ok(word);
    }
    number_word(alloc, choice)
}

/// Appends `*` and the count, if it is above 1.
fn push_times(text: &mut Vec<u8>, times: u32) -> Result<(), AllocError>
    ensures { OnOk result (text.new.items ≡ text.old.items ++ times_text times) }
{
    if times == 1 {
        return Ok(());
    }
    text.push(b'*')?;
    text.extend_from_slice(Buffer::new().format(times).as_bytes())
}

/// Appends a run as a plan's word, a choice and its count: `ann*3`, or `t2` if the name means something else.
#[tactic(auto, using(crate::proofs::Reports::text_steps))]
fn push_token(
    alloc: Global,
    text: &mut Vec<u8>,
    names: &[&[u8]],
    run: Run,
) -> Result<(), AllocError>
    requires { length names.now ≤ 64 }
    ensures { OnOk result (text.new.items ≡ text.old.items ++ named_token (map name_seen names.now) run) }
{
    let word = choice_word(alloc, names, run.choice)?;
    text.extend_from_slice(word.as_slice())?;
    push_times(text, run.times)
}

/// Returns the words for `first` and the runs of `rest`, with a space between them, as `ann*3 bob`.
#[tactic(auto, using(crate::proofs::Reports::text_steps))]
fn tokens(alloc: Global, names: &[&[u8]], first: Run, rest: &[Run]) -> Result<Vec<u8>, AllocError>
    requires { length names.now ≤ 64 }
    ensures { IfOk result (λ text. text.items ≡ named_token (map name_seen names.now) first
        ++ spaced_words (map name_seen names.now) rest.now) }
{
    let mut text = Vec::new(alloc);
    push_token(alloc, &mut text, names, first)?;
    for run in rest {
        text.push(b' ')?;
        push_token(alloc, &mut text, names, *run)?;
    }
    Ok(text)
}

/// Returns a plan that makes the choices of these runs, with a word for each run: an empty one if there are none.
pub fn named_text(alloc: Global, names: &[&[u8]], runs: &[Run]) -> Result<Vec<u8>, AllocError>
    requires { length names.now ≤ 64 }
    ensures { IfOk result (λ text. text.items ≡ named_text (map name_seen names.now) runs.now) }
{
    match runs {
        [] => Ok(Vec::new(alloc)),
        [first, rest @ ..] => tokens(alloc, names, *first, rest),
    }
}

/// Returns these runs as a plan with these names, or as a schedule if there are no names.
pub fn text_by(alloc: Global, names: Option<&[&[u8]]>, runs: &[Run]) -> Result<Vec<u8>, AllocError>
    requires runs { All IsRun runs.now }
    requires names { IfSome names (λ names. length names.now ≤ 64) }
    ensures { IfOk result (λ text. text.items ≡ text_by (names_seen names.entry) runs.now) }
{
    match names {
        Some(names) => named_text(alloc, names, runs),
        None => Vec::from_slice(alloc, write_schedule(alloc, runs)?.as_bytes()),
    }
}
