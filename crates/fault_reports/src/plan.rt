//! Why a plan is refused, or stopped at 1,000,000 choices, and which of its words makes it so.
ghost use Rattle.std.specs.Prelude.{◌≤◌, length};

use crate::place::Place;
use crate::report::{Report, Reported};
use assembler::word_place::WordPlace;
use byte_ports::{Sink, WritePort};
use commands::unplanned::Unplanned;
use plans::fault::PlanFault;
use std::alloc::{AllocError, Global};
use std::fs;
use suggestions::hint::help;
use suggestions::line::word_at;
use suggestions::plan_fault::{hint_in_plan, place_in_plan};
use suggestions::plan_line::word_places;

/// The name of a plan that is an argument itself.
pub const ARGUMENT: &str = "--plan";

/// A plan: the name of its file, and what it holds.
#[derive(Clone, Copy)]
pub struct PlanFile<'a> {
    pub name: &'a str,
    pub bytes: &'a [u8],
}

/// Returns whether there is a file of this name.
fn is_file(rt: &HostRuntime, path: &str) -> bool {
    fs::metadata(rt, path).is_ok_and(|metadata| metadata.is_file())
}

/// Returns advice if a plan's text is `-` or the name of a file, and was meant as that. Else None.
fn helps_at_file(rt: &HostRuntime, plan: PlanFile<'_>) -> Option<&'static str> {
    let path = str::from_utf8(plan.bytes).unwrap_or("");
    if plan.name != ARGUMENT {
        None
    } else if path == "-" {
        Some("`--plan-file /dev/stdin` plays the plan on standard input")
    } else if is_file(rt, path) {
        Some("this is a file: `--plan-file FILE` plays the plan in it")
    } else {
        None
    }
}

/// Reports why a plan is refused for a program whose threads have these names.
pub fn fail(report: &Report<'_>, plan: PlanFile<'_>, names: &[&[u8]], fault: PlanFault) -> Reported
    requires { length names.now ≤ 64 }
{
    let alloc = report.alloc();
    let part = place_in_plan(alloc, plan.bytes, names, fault).unwrap_or(None);
    let hint = match helps_at_file(report.rt, plan) {
        Some(helps) => help(alloc, helps.as_bytes()),
        None => hint_in_plan(alloc, plan.bytes, names, fault, part),
    };
    let place = Place::in_text(plan.bytes, fault.line, part);
    report.fail(Unplanned::Plan(fault), plan.name, place, hint)
}

/// Returns whether a word plays without an end: `ann.`, `..`, `?7`. It is true for `?7*50`, too: the caller looks for the `*`.
fn is_without_count(word: &[u8]) -> bool {
    word.ends_with(b".") || word.starts_with(b"?")
}

/// Returns the line and the place of the only word that plays without an end. None if a word has a count or begins with `(`, or
/// if two words are endless.
fn endless_word(alloc: Global, plan: &[u8]) -> Result<Option<(u64, WordPlace)>, AllocError> {
    let mut found = None;
    let mut number: u64 = 0;
    for line in plan.split(|byte| *byte == b'\n') {
        number = number.saturating_add(1);
        for place in word_places(alloc, line)?.iter() {
            let word = word_at(line, *place);
            let is_second = is_without_count(word) && found.is_some();
            if is_second || word.contains(&b'*') || word.starts_with(b"(") {
                return Ok(None);
            }
            if is_without_count(word) {
                found = Some((number, *place));
            }
        }
    }
    Ok(found)
}

/// Writes that a plan stopped at 1,000,000 choices. If standard error can't be written, that isn't reported.
pub fn push_stopped(report: &Report<'_>) {
    let _ = WritePort::new(report.rt.stderr()).push(b"stopped at 1000000 choices\n");
}

/// Shows a person the word of a plan that lacks a count, so that the plan stopped.
pub fn explain_stopped(report: &Report<'_>, plan: PlanFile<'_>) {
    let place = match endless_word(report.alloc(), plan.bytes) {
        Ok(Some((number, place))) => Place::in_text(plan.bytes, number, Some(place)),
        _ => None,
    };
    report.note(
        plan.name,
        place,
        "the plan needs more choices: only the first 1000000 are written or played",
        "a count in place of the dot, or behind `..`, `?7` or `)`, as in `ann*50` and `..*50`",
    );
}

/// Writes that a plan stopped at 1,000,000 choices, and for a person the word that lacks a count.
pub fn report_stopped(report: &Report<'_>, plan: PlanFile<'_>) {
    push_stopped(report);
    explain_stopped(report, plan);
}
