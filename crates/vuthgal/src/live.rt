//! The commands `live` and `race`, which start real threads.

ghost use Rattle.std.specs.Prelude.{◌≤◌, IfSome};

use crate::expectation::expectations;
use crate::input::{self, block_port};
use crate::run::{fail, report_end};
use byte_ports::WritePort;
use commands::{Asked, Pauses, report_runs};
use fault_reports::files::{self, STANDARD_OUTPUT};
use fault_reports::program::ProgramFile;
use fault_reports::report::{Report, Reported};
use headline::shown;
use row_code::Image;
use std::sync::Wait;
use std::thread::Threads;
use thread_runner::NoGate;
use workbench::done::{Done, as_asked};
use workbench::ending::{flushed, passed_on};
use workbench::racing;
use workbench::racing::pace::NoPace;

/// What `live` means if the limit of steps ended the run.
const LIMIT_ENDS: &str =
    "live: some threads could still continue, but the limit of steps was reached; `--limit N` sets it";

/// Plays the program `asked.runs` times, and writes how the runs ended. Returns `Unlike` if one didn't end as expected.
fn played_often<R: Threads + Wait + Sync>(
    threads: &R,
    report: &Report<'_>,
    file: ProgramFile<'_>,
    image: Image,
    asked: &Asked<'_>,
) -> Result<Done, Reported>
    requires limit { asked.now.limit ≤ 1000000000 }
    requires count { asked.now.runs ≤ 100000 }
{
    let mut output = block_port(report)?;
    let answer = report_runs(threads, report.alloc(), asked, &NoGate, image, &mut output);
    match passed_on(answer, &mut output) {
        Ok(Done::Unlike) => {
            report.help("some runs didn't end as expected: each line has the schedule of one run");
            Ok(Done::Unlike)
        }
        Ok(done) => Ok(done),
        Err(fault) => Err(fail(report, file, file.name, fault)),
    }
}

/// Plays the program in a file on real threads: once, and writes the trace, or `runs` times, and writes how the runs ended.
/// With a `seed` the threads pause a little before some of their turns.
pub fn live<R: Threads + Wait + Sync>(
    threads: &R,
    report: &Report<'_>,
    name: &str,
    limit: u32,
    seed: Option<u32>,
    runs: Option<u32>,
    expected: &[&str],
) -> Result<Done, Reported>
    requires limit { limit ≤ 1000000000 }
    requires count { IfSome runs (λ n. n ≤ 100000) }
{
    let bytes = input::contents(report, name, input::stream(report, name)?)?;
    let file = ProgramFile::whole(name, bytes.as_slice());
    let program = input::program(report, file)?;
    let expected = expectations(report, &program.names, expected)?;
    let asked = Asked {
        runs: runs.unwrap_or(1),
        limit,
        pauses: Pauses { seed },
        expected: expected.as_slice(),
    };
    if runs.is_some() {
        return played_often(threads, report, file, program.image, &asked);
    }
    let mut output = block_port(report)?;
    // The only run has number 0.
    let gate = asked.pauses.of_run(0, &NoGate);
    let alloc = report.alloc();
    let answer = shown::live(threads, alloc, limit, &gate, program.image, &mut output);
    match passed_on(answer, &mut output) {
        Ok(end) => Ok(report_end(report, file.bytes, asked.expected, &end, LIMIT_ENDS)),
        Err(fault) => Err(fail(report, file, name, fault)),
    }
}

/// Lets `parties` real threads meet at a shared phaser, `rounds` times, and writes its state.
pub fn race<R: Threads + Wait + Sync>(
    threads: &R,
    report: &Report<'_>,
    parties: u16,
    rounds: u32,
) -> Result<Done, Reported> {
    let mut output = WritePort::new(report.kept(report.rt.stdout()));
    let alloc = report.alloc();
    let answer = racing::race(threads, alloc, parties, rounds, &NoPace, &mut output);
    let failed = |fault| files::fail(report, "", STANDARD_OUTPUT, fault);
    as_asked(flushed(answer, &mut output)).map_err(failed)
}
