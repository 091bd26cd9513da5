//! The command `plan`: it writes the schedule of a plan, or how the orders of seeds end.

ghost use Rattle.std.specs.Prelude.{◌≤◌};
ghost use Rattle.command_line.specs.Request.{AreInRange};

use crate::expectation::{expectations, report_unmet};
use crate::input::{self, block_port};
use crate::steps::{fail_at_plan, names_of};
use byte_ports::WritePort;
use command_line::request::Orders;
use commands::plan::{MOST_CHOICES, plan_with_names};
use commands::seeds::{Seeds, Unlike, report_seeds};
use commands::unplanned::Unplanned;
use commands::write_picture::parts_of;
use fault_reports::files::{self, STANDARD_OUTPUT};
use fault_reports::plan::{PlanFile, report_stopped};
use fault_reports::program::ProgramFile;
use fault_reports::report::{Report, Reported};
use trace_text::RunEnd;
use workbench::done::Done;
use workbench::ending::{flushed, passed_on};

/// Returns what the program's file holds, and the plan with its name. Both are opened before one is read. Without a plan, its
/// name and text are empty.
fn inputs<'a>(
    report: &Report<'_>,
    file: &str,
    plan: Option<&'a str>,
) -> Result<(Vec<u8>, &'a str, Vec<u8>), Reported> {
    let program = input::stream(report, file)?;
    let Some(word) = plan else {
        let program = input::contents(report, file, program)?;
        return Ok((program, "", Vec::new(report.alloc())));
    };
    let waiting = b"reading a plan from the terminal (plan --help lists its words)\n";
    let (name, stream) = input::open_named(report, word, waiting)?;
    let program = input::contents(report, file, program)?;
    Ok((program, name, input::contents(report, name, stream)?))
}

/// Returns a program's file, of which the text above its line `.run` is the program that a plan is for.
fn file_of<'a>(name: &'a str, bytes: &'a [u8]) -> ProgramFile<'a> {
    ProgramFile {
        name,
        bytes,
        text: parts_of(bytes).0,
    }
}

/// Writes the schedule of a plan for the program in a file, with the threads' names if `has_names`. Without `plan`, standard
/// input is the plan.
pub fn plan(
    report: &Report<'_>,
    file: &str,
    plan: Option<&str>,
    has_names: bool,
) -> Result<Done, Reported> {
    let (program, name, plan) = inputs(report, file, Some(plan.unwrap_or("-")))?;
    let file = file_of(file, program.as_slice());
    let bytes = plan.as_slice();
    let plan = PlanFile { name, bytes };
    let program = input::program(report, file)?;
    let names = names_of(report, &program)?;
    let mut output = WritePort::new(report.kept(report.rt.stdout()));
    let alloc = report.alloc();
    let planned = if has_names {
        plan_with_names(alloc, program, plan.bytes, MOST_CHOICES, &mut output)
    } else {
        commands::plan::plan(alloc, program, plan.bytes, MOST_CHOICES, &mut output)
    };
    let failed = |why| fail_at_plan(report, file, names.as_slice(), plan, why);
    match flushed(Ok(planned.map_err(failed)?), &mut output) {
        // True means that the plan needed more choices than it may make, and stopped.
        Ok(false) => Ok(Done::AsAsked),
        Ok(true) => {
            report_stopped(report, plan);
            Ok(Done::Unlike)
        }
        Err(fault) => Err(files::fail(report, plan.name, STANDARD_OUTPUT, fault)),
    }
}

/// Returns `AsAsked` if all orders of seeds ended as expected. Else reports the first that didn't, and returns `Unlike`.
fn settled_by(
    report: &Report<'_>,
    program: &[u8],
    expected: &[Vec<u8>],
    unlike: Option<Unlike>,
) -> Done {
    let Some(unlike) = unlike else {
        return Done::AsAsked;
    };
    let seed = Some(unlike.seed);
    let end = RunEnd {
        standing: unlike.ending.standing(),
        state: unlike.state,
        refused: None,
    };
    report_unmet(report, program, expected, seed, &end);
    Done::Unlike
}

/// Writes how the orders of seeds end, each after a plan if there is one, with the names of the threads if asked for.
pub fn seeds(
    report: &Report<'_>,
    file: &str,
    plan: Option<&str>,
    has_names: bool,
    orders: &Orders<'_>,
) -> Result<Done, Reported>
    requires { AreInRange orders.now }
{
    let (program, name, plan) = inputs(report, file, plan)?;
    let file = file_of(file, program.as_slice());
    let bytes = plan.as_slice();
    let plan = PlanFile { name, bytes };
    let program = input::program(report, file)?;
    let names = names_of(report, &program)?;
    let expected = expectations(report, &program.names, orders.expected.as_slice())?;
    let seeds = Seeds {
        first: orders.seeds.first,
        count: orders.seeds.last - orders.seeds.first + 1,
        limit: orders.limit,
        expected: expected.as_slice(),
        has_names,
    };
    let mut output = block_port(report)?;
    let failed = |why| fail_at_plan(report, file, names.as_slice(), plan, why);
    let tally = report_seeds(report.alloc(), program, plan.bytes, &seeds, &mut output);
    let tally = passed_on(Ok(tally.map_err(failed)?), &mut output);
    let tally = tally.map_err(|fault| failed(Unplanned::Fault(fault)))?;
    report.differences(names.as_slice(), &tally.outcomes);
    Ok(settled_by(report, file.bytes, expected.as_slice(), tally.unlike))
}
