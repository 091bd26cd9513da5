//! The results of several runs, as lines.
ghost use Rattle.std.specs.Prelude.{◌≡◌, ◌⊎◌, ◌≤◌, ◌++◌, Err, IsTrue, IfErr, IfOk, IfSome, OnOk, length};
ghost use Rattle.std.specs.Io.KnownBytes.{Appends};
ghost use Rattle.commands.specs.Named.{names_seen, reported_by};
ghost use Rattle.commands.specs.Outcomes.{are_as_expected, died_mark, order_text, outcome_line, report, done_by, seed_mark};
ghost use Rattle.trace_text.specs.Expectation.{are_met};
ghost use Rattle.workbench.specs.declared.fault.Fault.{Fault};

use crate::end_state::{EndState, word_of};
use crate::named::named_text;
use crate::outcomes::{Outcome, Outcomes};
use byte_ports::Sink;
use itoa::Buffer;
use schedule_reader::{ScheduleFault, read_schedule};
use std::alloc::{AllocError, Global};
use trace_text::expectation::are_met;
use trace_text::state_line::has_died;
use workbench::done::Done;
use workbench::fault::Fault;

/// The most bytes of a text that `read_schedule` accepts by its contract.
const LONGEST: usize = 9_223_372_036_854_775_806;

/// Returns `+died` if a thread of this state has died, or else nothing.
fn died_mark(state: &EndState) -> &'static [u8]
    ensures { result.now ≡ died_mark state.now.text.items }
{
    if has_died(state.text.as_slice()) {
        b"+died"
    } else {
        b""
    }
}

/// Appends the seed as a plan has it, for example `?7 `, if there is one.
#[tactic(auto, using(crate::proofs::Reports::text_steps))]
fn push_seed(text: &mut Vec<u8>, seed: Option<u64>) -> Result<(), AllocError>
    ensures { OnOk result (text.new.items ≡ text.old.items ++ seed_mark seed) }
{
    if let Some(seed) = seed {
        text.extend_from_slice(b"?")?;
        text.extend_from_slice(Buffer::new().format(seed).as_bytes())?;
        text.extend_from_slice(b" ")?;
    }
    Ok(())
}

/// Appends a schedule: as a plan with `names`, or unchanged if `names` is `None` or the schedule has a fault. Fails if out of
/// memory, or if the schedule is longer than `LONGEST`.
fn push_schedule(
    alloc: Global,
    text: &mut Vec<u8>,
    names: Option<&[&[u8]]>,
    schedule: &str,
) -> Result<(), AllocError>
    requires { IfSome names (λ names. length names.now ≤ 64) }
    ensures { OnOk result (text.new.items ≡ text.old.items ++ reported_by (names_seen names.entry) schedule.now) }
{
    let Some(names) = names else {
        return text.extend_from_slice(schedule.as_bytes());
    };
    if schedule.len() > LONGEST {
        return Err(AllocError);
    }
    match read_schedule(alloc, schedule.as_bytes()) {
        Ok(runs) => text.extend_from_slice(named_text(alloc, names, runs.as_slice())?.as_slice()),
        Err(ScheduleFault::Memory) => Err(AllocError),
        Err(_) => text.extend_from_slice(schedule.as_bytes()),
    }
}

/// Appends the seed, if any, the schedule and the line end of an outcome, as `?7 t0 t1*2`, with `names` if there are some.
#[tactic(auto, using(crate::proofs::Reports::text_steps))]
fn push_order(
    alloc: Global,
    text: &mut Vec<u8>,
    names: Option<&[&[u8]]>,
    outcome: &Outcome,
) -> Result<(), AllocError>
    requires { IfSome names (λ names. length names.now ≤ 64) }
    ensures { OnOk result (text.new.items ≡ text.old.items
        ++ order_text (names_seen names.entry) outcome.now) }
{
    push_seed(text, outcome.seed)?;
    push_schedule(alloc, text, names, outcome.schedule.as_str())?;
    text.extend_from_slice(b"\n")
}

/// Appends an outcome's line, as `12 stuck t0 t1*2`: how many runs ended so, the state's word, and the first run's schedule.
#[tactic(auto, using(crate::proofs::Reports::text_steps))]
fn push_line(
    alloc: Global,
    text: &mut Vec<u8>,
    names: Option<&[&[u8]]>,
    state: &EndState,
    outcome: &Outcome,
) -> Result<(), AllocError>
    requires { IfSome names (λ names. length names.now ≤ 64) }
    ensures { OnOk result (text.new.items ≡ text.old.items
        ++ outcome_line (names_seen names.entry) (state.now, outcome.now)) }
{
    text.extend_from_slice(Buffer::new().format(outcome.times).as_bytes())?;
    text.extend_from_slice(b" ")?;
    text.extend_from_slice(word_of(outcome.ending))?;
    text.extend_from_slice(died_mark(state))?;
    text.extend_from_slice(b" ")?;
    push_order(alloc, text, names, outcome)
}

/// Returns the lines of all outcomes. Their schedules have these names, if there are some.
fn report(
    alloc: Global,
    names: Option<&[&[u8]]>,
    outcomes: &Outcomes,
) -> Result<Vec<u8>, AllocError>
    requires { IfSome names (λ names. length names.now ≤ 64) }
    ensures { IfOk result (λ text. text.items ≡ report (names_seen names.entry) outcomes.now.entries) }
{
    let mut text = Vec::new(alloc);
    for place in 0..outcomes.len() {
        if let Some((state, outcome)) = outcomes.get_index(place) {
            push_line(alloc, &mut text, names, state, outcome)?;
        }
    }
    Ok(text)
}

/// Writes the lines of all outcomes in one piece. Their schedules have these names, if there are some.
pub fn push_report<K: Sink>(
    alloc: Global,
    names: Option<&[&[u8]]>,
    outcomes: &Outcomes,
    output: &mut K,
) -> Result<(), Fault>
    requires { IfSome names (λ names. length names.now ≤ 64) }
    ensures report { OnOk result (Appends (K.written output.old) (K.written output.new)
        (report (names_seen names.entry) outcomes.now.entries)) }
    ensures fault { IfErr result (λ fault. (fault ≡ Fault.Memory) ⊎ (fault ≡ Fault.Write)) }
    ensures unchanged { result ≡ Err Fault.Memory → K.written output.new ≡ K.written output.old }
    ensures write { result ≡ Err Fault.Write → IsTrue (K.has_failed output.new) }
{
    let Ok(text) = report(alloc, names, outcomes) else {
        return Err(Fault::Memory);
    };
    match output.push(text.as_slice()) {
        Ok(()) => Ok(()),
        Err(_) => Err(Fault::Write),
    }
}

/// Returns whether a state meets all of these expectations.
fn is_as_expected(expected: &[Vec<u8>], state: &EndState) -> bool
    ensures { result ≡ are_met state.now.text.items expected.now }
{
    are_met(state.text.as_slice(), expected)
}

/// Returns whether every state that a run ended in meets all of these expectations. True if none are given.
fn are_as_expected(expected: &[Vec<u8>], outcomes: &Outcomes) -> bool
    ensures { result ≡ are_as_expected expected.now outcomes.now.entries }
{
    for place in 0..outcomes.len() {
        if let Some((state, _)) = outcomes.get_index(place) {
            if !is_as_expected(expected, state) {
                return false;
            }
        }
    }
    true
}

/// Returns `AsAsked` if all runs ended as expected, or else `Unlike`.
pub fn done_by(expected: &[Vec<u8>], outcomes: &Outcomes) -> Done
    ensures { result ≡ done_by expected.now outcomes.now.entries }
{
    if are_as_expected(expected, outcomes) {
        Done::AsAsked
    } else {
        Done::Unlike
    }
}
