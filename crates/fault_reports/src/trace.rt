//! Why a trace isn't one, or isn't the run's.

use crate::place::Place;
use crate::report::Report;
use command_line::ports::watched::Watched;
use std::alloc::Global;
use suggestions::file_kind::{is_schedule, is_whole_program};
use trace_compare::naming::{Named, choices_in};
use workbench::slice_source::SliceSource;

/// Returns advice for a line of a trace that isn't the run's: it is cut, has another end, or `--show` says more.
fn helps_at<S>(watched: &Watched<S>, number: u64, is_shown: bool) -> &'static str {
    let line = watched
        .line(number)
        .map_or(b"".as_slice(), |line| line.bytes);
    if line.is_empty() {
        "the trace ends before this line; `vuthgal choices TRACE | vuthgal run FILE -` writes it whole"
    } else if line.ends_with(b"\r") {
        "a trace's lines end with LF, and this one with CR LF"
    } else if watched.line(number.saturating_add(1)).is_none() {
        "the trace's last line has no LF; `vuthgal choices TRACE | vuthgal run FILE -` writes it whole"
    } else if is_shown {
        "`vuthgal choices TRACE | vuthgal run FILE -` writes the run's own trace"
    } else {
        "`--show` writes both lines; `vuthgal choices TRACE | vuthgal run FILE -` the run's own trace"
    }
}

/// Shows a person which line of a trace differs from the run's.
pub fn note_difference<S>(
    report: &Report<'_>,
    name: &str,
    watched: &Watched<S>,
    number: u64,
    is_shown: bool,
) {
    report.note(
        name,
        Place::of_line(watched, number),
        "this line of TRACE isn't the run's, byte for byte",
        helps_at(watched, number, is_shown),
    );
}

/// Returns advice if a file is no trace; `has_line` is false if it ends before its wrong line.
fn helps_at_file<S>(report: &Report<'_>, watched: &Watched<S>, has_line: bool) -> &'static str {
    let bytes = watched.whole().unwrap_or(&[]);
    if !has_line {
        "the trace ends before its line `state`: it is cut off"
    } else if is_whole_program(bytes) {
        "this is a program: `vuthgal run FILE SCHEDULE > TRACE` writes a trace"
    } else if is_schedule(report.alloc(), bytes) {
        "this is a schedule: `vuthgal run FILE SCHEDULE > TRACE` writes its trace"
    } else {
        "a trace as `vuthgal run` writes it: choices, then the state"
    }
}

/// Shows a person which line no trace has there. The number is that of the line, from 1.
pub fn note_no_trace<S>(report: &Report<'_>, name: &str, watched: &Watched<S>, number: u64) {
    let place = Place::of_line(watched, number);
    let has_line = place.is_some_and(|place| !place.line.bytes.is_empty());
    report.note(
        name,
        place,
        "this line of TRACE isn't a line that a trace has there",
        helps_at_file(report, watched, has_line),
    );
}

/// Returns the number of the first line that no trace has there. It is 1 if the beginning isn't kept, and 0 without memory.
pub fn wrong_line<S>(alloc: Global, watched: &Watched<S>) -> u64 {
    let bytes = watched.whole().unwrap_or(&[]);
    match choices_in(alloc, &mut SliceSource::new(bytes)) {
        Ok(Named::NotATrace { line }) => line,
        _ => 0,
    }
}
