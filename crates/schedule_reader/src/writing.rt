//! Schedules as text: a reader reads exactly the runs that were written.
ghost use Rattle.std.specs.Prelude.{◌≡◌, ◌++◌, OnOk, IfOk, All, None};
ghost use Rattle.std.specs.{String.string_bytes, Fmt.decimal};
ghost use Rattle.schedule_reader.specs.Schedule.{IsRun, finished_schedule};
ghost use Rattle.schedule_reader.specs.Text.{schedule_text, token_of, spaced_tokens, times_text};

use crate::run::Run;
use std::alloc::{AllocError, Global};
use std::fmt::Write;

/// Returns the text of these runs: a token for each, with one space between them. A reader reads it as exactly these runs.
pub fn write_schedule(alloc: Global, runs: &[Run]) -> Result<String, AllocError>
    requires { All IsRun runs.now }
    ensures text { IfOk result (λ text. string_bytes text ≡ schedule_text runs.now) }
    ensures meaning { IfOk result (λ text.
        finished_schedule (string_bytes text) ≡ record { runs = runs.now; fault = None }) }
{
    let text = written(alloc, runs)?;
    Ok(text)
}

/// Returns the tokens of these runs, with one space between them.
fn written(alloc: Global, runs: &[Run]) -> Result<String, AllocError>
    ensures { IfOk result (λ text. string_bytes text ≡ schedule_text runs.now) }
{
    match runs {
        [] => Ok(String::new(alloc)),
        [first, rest @ ..] => tokens(alloc, *first, rest),
    }
}

/// Returns the token of the first run, and a space and a token for each further one.
fn tokens(alloc: Global, first: Run, rest: &[Run]) -> Result<String, AllocError>
    ensures { IfOk result (λ text. string_bytes text ≡ token_of first ++ spaced_tokens rest.now) }
{
    let mut text = String::new(alloc);
    push_token(&mut text, first)?;
    for run in rest {
        text.push(' ')?;
        push_token(&mut text, *run)?;
    }
    Ok(text)
}

/// Appends a run as a token, such as `t3*20`, or `x3` for an expiry.
fn push_token(text: &mut String, run: Run) -> Result<(), AllocError>
    ensures { OnOk result (string_bytes text.new ≡ string_bytes text.old ++ token_of run) }
{
    text.push(if run.choice.expiry { 'x' } else { 't' })?;
    push_number(text, u64::from(run.choice.thread))?;
    push_times(text, run.times)
}

/// Appends `*` and the count, unless it is 1.
fn push_times(text: &mut String, times: u32) -> Result<(), AllocError>
    ensures { OnOk result (string_bytes text.new ≡ string_bytes text.old ++ times_text times) }
{
    if times == 1 {
        return Ok(());
    }
    text.push('*')?;
    push_number(text, u64::from(times))
}

/// Appends a number in decimal digits. Fails if it is out of memory: nothing else can go wrong.
fn push_number(text: &mut String, number: u64) -> Result<(), AllocError>
    ensures { OnOk result (string_bytes text.new ≡ string_bytes text.old ++ decimal number) }
{
    match write!(text, "{number}") {
        Ok(()) => Ok(()),
        Err(_) => Err(AllocError),
    }
}
