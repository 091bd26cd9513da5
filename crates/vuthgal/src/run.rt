//! The command `run`: it plays a program under a schedule or a plan. How the run ended may be expected.

use crate::expectation::{as_expected, expectations, report_unmet};
use crate::input::{self, Stream, block_port};
use crate::notes;
use crate::steps::{OpenSteps, opened, planned};
use byte_ports::ReadPort;
use command_line::ports::watched::{Watched, lines_in};
use command_line::request::Steps;
use fault_reports::files::{self, STANDARD_INPUT, STANDARD_OUTPUT};
use fault_reports::plan::PlanFile;
use fault_reports::program::{ProgramFile, fail_to_load};
use fault_reports::report::{Report, Reported};
use fault_reports::schedule;
use headline::shown;
use plans::planned::Planned;
use row_code::Image;
use suggestions::schedule_fault::Origin;
use thread_machine::{Standing, StepFault};
use trace_text::RunEnd;
use workbench::Program;
use workbench::done::Done;
use workbench::ending::passed_on;
use workbench::fault::Fault;
use workbench::run_line::split_at_run;

/// What `live` means if the schedule ended the run.
const SCHEDULE_ENDS: &str =
    "live: some threads could still continue; a plan with `..` at its end plays on";

/// What `live` means if there is no schedule.
pub const NO_SCHEDULE: &str =
    "there is no line `.run`, so nothing is played: `--plan '..'` plays all threads in turn";

/// A schedule: its name, where it is from, what is read, and how many lines of its file are before it.
#[derive(Drop)]
pub struct Choices<'a> {
    pub name: &'a str,
    pub origin: Origin,
    pub stream: Stream<'a>,
    pub lines: u64,
    /// What it means if some thread can still continue at its end.
    pub live: &'static str,
}

impl<'a> Choices<'a> {
    /// Returns the schedule at the end of a program's file.
    pub fn beside(file: ProgramFile<'a>, schedule: &'a [u8]) -> Choices<'a> {
        let above = file.bytes.len().saturating_sub(schedule.len());
        Choices {
            name: file.name,
            origin: Origin::Beside,
            stream: Stream::Text(schedule),
            lines: lines_in(file.bytes.get(..above).unwrap_or(&[])),
            live: if file.text.len() == file.bytes.len() {
                NO_SCHEDULE
            } else {
                SCHEDULE_ENDS
            },
        }
    }

    /// Returns the schedule that a plan of this name stands for.
    pub fn planned(name: &'a str, schedule: &'a [u8]) -> Choices<'a> {
        Choices::of_stream(name, Stream::Text(schedule))
    }

    /// Returns the schedule that a stream of this name holds. If the stream is a text in memory, a plan stands for it.
    pub fn of_stream(name: &'a str, stream: Stream<'a>) -> Choices<'a> {
        Choices {
            name,
            origin: match &stream {
                Stream::Standard(_) => Origin::Standard,
                Stream::File(_) => Origin::File,
                Stream::Text(_) => Origin::Plan,
            },
            stream,
            lines: 0,
            live: SCHEDULE_ENDS,
        }
    }
}

/// Returns `Unlike`, and reports it, if a run didn't end as expected. Otherwise shows a person `live` if a thread can still
/// continue.
pub fn report_end(
    report: &Report<'_>,
    program: &[u8],
    expected: &[Vec<u8>],
    end: &RunEnd,
    live: &str,
) -> Done {
    let done = as_expected(expected, end);
    if done == Done::Unlike {
        report_unmet(report, program, expected, None, end);
    } else if end.refused.is_none() && end.standing == Standing::Live {
        report.help(live);
    }
    done
}

/// Reports a fault of a run of the program in `file`. `input` is the name of what couldn't be read, if that is the fault.
pub fn fail(report: &Report<'_>, file: ProgramFile<'_>, input: &str, fault: Fault) -> Reported {
    match fault {
        Fault::Load(fault) => fail_to_load(report, file, fault),
        _ => files::fail(report, input, STANDARD_OUTPUT, fault),
    }
}

/// Plays an image's program under a schedule.
fn played(
    report: &Report<'_>,
    file: ProgramFile<'_>,
    image: Image,
    choices: Choices<'_>,
    expected: &[Vec<u8>],
) -> Result<Done, Reported> {
    let Choices { name, origin, .. } = choices;
    let alloc = report.alloc();
    let mut schedule = Watched::new(alloc, ReadPort::new(choices.stream), choices.lines);
    let mut output = block_port(report)?;
    let answer = shown::run(alloc, image, &mut schedule, &mut output);
    match passed_on(answer.map_err(|fault| Fault::of_run(fault)), &mut output) {
        Ok(end) => {
            let done = report_end(report, file.bytes, expected, &end, choices.live);
            if let Some(refused) = &end.refused {
                if refused.why == StepFault::NoSuchThread {
                    schedule::note_missing(report, name, &schedule, refused.number);
                }
            }
            Ok(done)
        }
        Err(Fault::Schedule(fault)) => Err(schedule::fail(report, name, origin, &schedule, fault)),
        Err(fault) => Err(fail(report, file, name, fault)),
    }
}

/// Plays a program under the schedule that a plan stands for.
fn play_plan(
    report: &Report<'_>,
    file: ProgramFile<'_>,
    program: Program<'_>,
    plan: PlanFile<'_>,
    expected: &[Vec<u8>],
) -> Result<Done, Reported> {
    let Planned { runs, stopped, .. } = planned(report, file, &program, plan)?;
    let mut output = block_port(report)?;
    let answer = shown::run_choices(report.alloc(), program.image, runs.as_slice(), &mut output);
    let live = if stopped { "" } else { SCHEDULE_ENDS };
    match passed_on(answer.map_err(|fault| Fault::of_run(fault)), &mut output) {
        Ok(end) => Ok(report_end(report, file.bytes, expected, &end, live)),
        Err(fault) => Err(fail(report, file, file.name, fault)),
    }
}

/// Plays the program in a file, or without a file the text on standard input, with its schedule. Only a file may be an image.
pub fn run<'a>(
    report: &'a Report<'_>,
    name: Option<&'a str>,
    steps: Steps<'a>,
    expected: &[&str],
) -> Result<Done, Reported> {
    if name.is_none() {
        let waiting = b"reading a program text from the terminal (--help says more)\n";
        notes::push_waiting(report, waiting);
    }
    let (bytes, steps) = opened(report, name, steps)?;
    let (text, beside) = match name {
        Some(_) => steps.parts(bytes.as_slice()),
        None => split_at_run(bytes.as_slice()),
    };
    let file = ProgramFile {
        name: name.unwrap_or(STANDARD_INPUT),
        bytes: bytes.as_slice(),
        text,
    };
    let program = match name {
        Some(_) => input::program(report, file)?,
        None => input::text(report, file)?,
    };
    let expected = expectations(report, &program.names, expected)?;
    let expected = expected.as_slice();
    let choices = match steps {
        OpenSteps::Beside => Choices::beside(file, beside),
        OpenSteps::Named(name, stream) => Choices::of_stream(name, stream),
        OpenSteps::Plan(name, plan) => {
            let bytes = plan.as_slice();
            return play_plan(report, file, program, PlanFile { name, bytes }, expected);
        }
    };
    played(report, file, program.image, choices, expected)
}
