//! Why a file can't be opened, read or written.

use crate::report::{Report, Reported};
use commands::unplanned::Unplanned;
use std::io;
use suggestions::file_name::{is_of_program, near_file, programs_in};
use suggestions::hint::{Hint, help, help_by_names, near};
use workbench::fault::Fault;

/// The name of standard input, as it is shown.
pub const STANDARD_INPUT: &str = "standard input";

/// The name of standard output, as it is shown.
pub const STANDARD_OUTPUT: &str = "standard output";

/// What is said if `-` isn't standard input.
const AT_MINUS: &str =
    "`-` is standard input as SCHEDULE, TRACE or PLAN; `vuthgal < FILE` plays a text with its schedule";

/// The system's number for a pipe that nobody reads.
const BROKEN_PIPE: i32 = 32;

/// The system's number for a folder that is read as a file.
const IS_A_FOLDER: i32 = 21;

/// Returns whether a file's name looks like a plan: it has a blank, a star or a `?`, or ends with a dot; and no program has it.
fn is_like_plan(name: &str) -> bool {
    !name.contains('/')
        && !is_of_program(name)
        && (name.ends_with(".") || name.contains(' ') || name.contains('*') || name.contains('?'))
}

/// Returns advice for a name that no file has: `-`, a page, a path of Windows, a plan, or one near to a file's. Else None.
fn hint_at_name(rt: &HostRuntime, name: &str) -> Hint {
    let alloc = rt.alloc();
    let helps = match name {
        "-" => AT_MINUS,
        _ if name.ends_with(".html") => "`vuthgal show FILE > page.html` writes the page to a file",
        _ if name.contains('\\') =>
            "a path has `/` between its folders, as in `examples/meeting.asm`",
        _ if is_like_plan(name) => {
            let plan = format!(in alloc;
                "`vuthgal run FILE --plan '{name}'` plays this as a plan"
            )?;
            return help(alloc, plan.as_bytes());
        }
        _ => {
            return near_file(rt, name).map_or(Ok(None), |file| near(alloc, file.as_bytes()));
        }
    };
    help(alloc, helps.as_bytes())
}

/// Returns the names of a folder's programs if it was read as a file. None at any other error.
fn hint_at_read(rt: &HostRuntime, name: &str, error: &io::Error) -> Hint {
    if error.raw_os_error() != Some(IS_A_FOLDER) {
        return Ok(None);
    }
    let Some(programs) = programs_in(rt, name) else {
        return Ok(None);
    };
    let mut names = Vec::new(rt.alloc());
    for program in programs.iter() {
        names.push(program.as_bytes())?;
    }
    let before = b"this is a folder; its programs are ";
    help_by_names(rt.alloc(), before, names.as_slice())
}

/// Reports a fault of a file with the system's reason. Without memory for its text, the reason is left out.
fn fail_by(
    report: &Report<'_>,
    fault: Fault,
    name: &str,
    error: &io::Error,
    hint: Hint,
) -> Reported {
    match format!(in report.alloc(); "{error}") {
        Ok(reason) => report.fail_for(fault, name, reason.as_str(), hint),
        Err(_) => report.fault(fault),
    }
}

/// Reports a file that can't be opened to be read.
pub fn fail_to_open(report: &Report<'_>, name: &str, error: &io::Error) -> Reported {
    let hint = hint_at_name(report.rt, name);
    fail_by(report, Fault::Read, name, error, hint)
}

/// Reports a file that can't be opened to be written.
pub fn fail_to_create(report: &Report<'_>, name: &str, error: &io::Error) -> Reported {
    fail_by(report, Fault::Write, name, error, Ok(None))
}

/// Reports that two names are those of one file.
pub fn fail_for_one_file(report: &Report<'_>, name: &str) -> Reported {
    let reason = "SRC and OUT are the same file";
    report.fail_for(Fault::Write, name, reason, Ok(None))
}

/// Reports a fault of a command that read `input` and wrote `output`. If a read failed without the system's reason, the input
/// was too long.
pub fn fail(report: &Report<'_>, input: &str, output: &str, fault: Fault) -> Reported {
    match (fault, report.reason.error()) {
        (Fault::Read, Some(error)) => {
            let hint = hint_at_read(report.rt, input, &error);
            fail_by(report, fault, input, &error, hint)
        }
        (Fault::Read, None) => {
            let reason = "it has more than 16777216 bytes";
            report.fail_for(fault, input, reason, Ok(None))
        }
        // The reader of a pipe has gone, and needs no reason.
        (Fault::Write, Some(error)) if error.raw_os_error() == Some(BROKEN_PIPE) => {
            report.line(Unplanned::Fault(fault))
        }
        (Fault::Write, Some(error)) => fail_by(report, fault, output, &error, Ok(None)),
        _ => report.fail(Unplanned::Fault(fault), input, None, Ok(None)),
    }
}
