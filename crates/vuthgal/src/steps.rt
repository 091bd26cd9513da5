//! What is played: a program in a file, and the choices that the arguments name.
ghost use Rattle.std.specs.Prelude.{IfOk};
ghost use Rattle.plans.specs.Planned.{AreRuns};

use crate::input::{self, Stream};
use crate::notes;
use command_line::request::Steps;
use commands::plan::{planned_in, thread_names};
use commands::unplanned::Unplanned;
use commands::write_picture::parts_of;
use fault_reports::files::{self, STANDARD_INPUT, STANDARD_OUTPUT};
use fault_reports::plan::{self, ARGUMENT, PlanFile, report_stopped};
use fault_reports::program::{ProgramFile, fail_to_load};
use fault_reports::report::{Report, Reported};
use plans::planned::Planned;
use workbench::Program;
use workbench::fault::Fault;

/// How many threads a program has at most.
const MOST_THREADS: usize = 64;

/// Choices whose file is open.
#[derive(Drop)]
pub enum OpenSteps<'a> {
    /// The schedule in the program's own file.
    Beside,
    /// A schedule, or a trace: its name, and what is read.
    Named(&'a str, Stream<'a>),
    /// The choices of a plan: the name of its file, and what it holds.
    Plan(&'a str, Vec<u8>),
}

/// Opens the file that these steps name. Only a schedule may be standard input. The file of a plan is read to its end.
fn open_steps<'a>(report: &'a Report<'_>, steps: Steps<'a>) -> Result<OpenSteps<'a>, Reported> {
    match steps {
        Steps::Beside => Ok(OpenSteps::Beside),
        Steps::Trace(name) => Ok(OpenSteps::Named(name, input::stream(report, name)?)),
        Steps::Named(word) => {
            let waiting = b"reading a schedule from the terminal (Ctrl-D ends it)\n";
            let (name, stream) = input::open_named(report, word, waiting)?;
            Ok(OpenSteps::Named(name, stream))
        }
        Steps::Plan(plan) => {
            notes::push_odd_plan(report, plan);
            match Vec::from_slice(report.alloc(), plan.as_bytes()) {
                Ok(plan) => Ok(OpenSteps::Plan(ARGUMENT, plan)),
                Err(_) => Err(report.fault(Fault::Memory)),
            }
        }
        Steps::PlanFile(name) => {
            let stream = input::stream(report, name)?;
            Ok(OpenSteps::Plan(name, input::contents(report, name, stream)?))
        }
    }
}

/// Returns what a program's file, or standard input, holds. It is read only after the file of the steps is opened, too.
pub fn opened<'a>(
    report: &'a Report<'_>,
    file: Option<&str>,
    steps: Steps<'a>,
) -> Result<(Vec<u8>, OpenSteps<'a>), Reported> {
    let (name, program) = match file {
        Some(name) => (name, input::stream(report, name)?),
        None => (STANDARD_INPUT, input::standard(report)),
    };
    let steps = open_steps(report, steps)?;
    Ok((input::contents(report, name, program)?, steps))
}

impl<'a> OpenSteps<'a> {
    /// Returns the part of a file that is its program, and the schedule below its line `.run`. If another schedule or trace is
    /// named, the whole file is the program, and the schedule is empty.
    pub fn parts<'b>(&self, file: &'b [u8]) -> (&'b [u8], &'b [u8]) {
        match self {
            OpenSteps::Named(_, _) => (file, &[]),
            OpenSteps::Beside | OpenSteps::Plan(_, _) => parts_of(file),
        }
    }
}

/// Returns the names of a program's threads by number, for a report. A thread without a name has an empty one.
pub fn names_of<'a>(report: &Report<'_>, program: &Program<'a>) -> Result<Vec<&'a [u8]>, Reported> {
    let threads = program.image.threads.as_slice().len();
    thread_names(report.alloc(), &program.names, threads.min(MOST_THREADS)).map_err(
        |_| report.fault(Fault::Memory),
    )
}

/// Reports why a plan isn't played, or why the schedule that it plays isn't written: the plan is refused, the program in `file`
/// can't be loaded, or anything else failed. `names` are those of the threads, by number.
pub fn fail_at_plan(
    report: &Report<'_>,
    file: ProgramFile<'_>,
    names: &[&[u8]],
    plan: PlanFile<'_>,
    why: Unplanned,
) -> Reported {
    match why {
        Unplanned::Plan(fault) => {
            // `plan::fail` requires that there are at most 64 names.
            let names = names.get(..MOST_THREADS).unwrap_or(names);
            plan::fail(report, plan, names, fault)
        }
        Unplanned::Fault(Fault::Load(fault)) => fail_to_load(report, file, fault),
        Unplanned::Fault(fault) => files::fail(report, plan.name, STANDARD_OUTPUT, fault),
    }
}

/// Returns what a plan plays on a program. Nothing is reported if the plan needs more choices than it may make.
pub fn played(
    report: &Report<'_>,
    file: ProgramFile<'_>,
    program: &Program<'_>,
    plan: PlanFile<'_>,
) -> Result<Planned, Reported>
    ensures { IfOk result (λ planned. AreRuns planned.runs.items) }
{
    let names = names_of(report, program)?;
    let failed = |why| fail_at_plan(report, file, names.as_slice(), plan, why);
    planned_in(report.alloc(), program, plan.bytes).map_err(failed)
}

/// Returns what a plan plays on a program. It is reported if the plan needs more choices than it may make.
pub fn planned(
    report: &Report<'_>,
    file: ProgramFile<'_>,
    program: &Program<'_>,
    plan: PlanFile<'_>,
) -> Result<Planned, Reported>
    ensures { IfOk result (λ planned. AreRuns planned.runs.items) }
{
    let planned = played(report, file, program, plan)?;
    if planned.stopped {
        report_stopped(report, plan);
    }
    Ok(planned)
}
