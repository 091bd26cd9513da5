//! The commands `compare` and `choices`, which read a trace.

use crate::input::{self, block_port};
use crate::run::fail;
use byte_ports::{ReadPort, WritePort};
use command_line::ports::printable;
use command_line::ports::watched::Watched;
use commands::show_comparison;
use fault_reports::files::{self, STANDARD_OUTPUT};
use fault_reports::program::ProgramFile;
use fault_reports::report::{Report, Reported};
use fault_reports::trace::{note_difference, note_no_trace, wrong_line};
use headline::shown;
use trace_compare::Verdict;
use workbench::compare::done_by;
use workbench::done::Done;
use workbench::ending::{flushed, passed_on};

/// Compares a trace with the run of the program in a file, and shows the lines that differ if `is_shown`.
pub fn compare(
    report: &Report<'_>,
    name: &str,
    trace: &str,
    is_shown: bool,
) -> Result<Done, Reported> {
    let stream = input::stream(report, name)?;
    let (trace, read) = input::open_named(report, trace, b"")?;
    let bytes = input::contents(report, name, stream)?;
    let file = ProgramFile::whole(name, bytes.as_slice());
    let image = input::program(report, file)?.image;
    // 0: no lines of its file precede the trace.
    let mut watched = Watched::new(report.alloc(), ReadPort::new(read), 0);
    let stdout = report.kept(report.rt.stdout());
    let mut output = WritePort::new(printable::output(report.rt, stdout));
    let answer = if is_shown {
        let judged = show_comparison(report.alloc(), image, &mut watched, &mut output);
        judged.map(|judged| judged.verdict())
    } else {
        shown::compare(report.alloc(), image, &mut watched, &mut output)
    };
    let failed = |fault| fail(report, file, trace, fault);
    let verdict = flushed(answer, &mut output).map_err(failed)?;
    match verdict {
        Verdict::Same => {}
        Verdict::Differs { line } => note_difference(report, trace, &watched, line, is_shown),
        Verdict::NotATrace { line } => note_no_trace(report, trace, &watched, line),
    }
    Ok(done_by(verdict))
}

/// Writes the schedule of a trace. Returns `Unlike`, which is status 1, if the file is no trace.
pub fn choices(report: &Report<'_>, trace: &str) -> Result<Done, Reported> {
    let (name, stream) = input::open_named(report, trace, b"")?;
    // 0: no lines of its file precede the trace.
    let mut watched = Watched::new(report.alloc(), ReadPort::new(stream), 0);
    let mut output = block_port(report)?;
    let answer = commands::choices::choices(report.alloc(), &mut watched, &mut output);
    match passed_on(answer, &mut output) {
        Ok(true) => Ok(Done::AsAsked),
        Ok(false) => {
            let line = wrong_line(report.alloc(), &watched);
            note_no_trace(report, name, &watched, line);
            Ok(Done::Unlike)
        }
        Err(fault) => Err(files::fail(report, name, STANDARD_OUTPUT, fault)),
    }
}
