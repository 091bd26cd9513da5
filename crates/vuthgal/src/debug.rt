//! The command `debug`: sessions of a person at a terminal, or of another program.
ghost use Rattle.workbench.specs.ProgramFile.{IsNamedProgram};

use crate::input::{self, Stream};
use crate::notes;
use crate::run::fail;
use crate::steps::{OpenSteps, opened, planned};
use byte_ports::{BlockSource, ReadPort, Sink, WritePort};
use command_line::ports::printable;
use command_line::ports::watched::Watched;
use command_line::request::Steps;
use commands::list_rows;
use fault_reports::files::STANDARD_INPUT;
use fault_reports::plan::PlanFile;
use fault_reports::program::ProgramFile;
use fault_reports::report::{Report, Reported};
use fault_reports::trace::{note_no_trace, wrong_line};
use guided_session::GuidedCommands;
use headline::shown;
use row_code::{Image, is_image_file};
use schedule_reader::Run;
use std::io::IsTerminal;
use trace_compare::naming::{Named, NamingFault, choices_in};
use workbench::Program;
use workbench::companion::Companion;
use workbench::done::{Done, as_asked};
use workbench::ending::flushed;
use workbench::fault::{Fault, push_counted_line};

/// Carries out `commands` on an image's program, after these runs of choices, if any. Each reply is written at once.
fn session<C: Companion>(
    report: &Report<'_>,
    file: ProgramFile<'_>,
    image: Image,
    runs: Option<&[Run]>,
    commands: &mut C,
) -> Result<Done, Reported> {
    let mut output = WritePort::new(report.kept(report.rt.stdout()));
    let answer = match runs {
        Some(runs) => shown::debug_behind(report.alloc(), image, runs, commands, &mut output),
        None => shown::debug(report.alloc(), image, commands, &mut output),
    };
    let failed = |fault| fail(report, file, STANDARD_INPUT, fault);
    as_asked(flushed(answer, &mut output)).map_err(failed)
}

/// Returns the lines of standard input, read a block at a time.
fn commands<'a>(report: &'a Report<'_>) -> Result<BlockSource<ReadPort<Stream<'a>>>, Reported> {
    BlockSource::new(report.alloc(), ReadPort::new(input::standard(report))).map_err(
        |_| report.fault(Fault::Memory),
    )
}

/// Carries out a person's commands. Besides the replies it shows which threads can go on.
fn session_of_person(
    report: &Report<'_>,
    file: ProgramFile<'_>,
    program: Program<'_>,
    runs: Option<&[Run]>,
) -> Result<Done, Reported> {
    let Program { image, names, .. } = program;
    let guided = GuidedCommands::new(
        report.alloc(),
        names,
        runs,
        commands(report)?,
        WritePort::new(report.rt.stdout()),
        WritePort::new(printable::errors(report.rt)),
    );
    match guided {
        Ok(mut guided) => session(report, file, image, runs, &mut guided),
        Err(fault) => Err(report.fault(fault)),
    }
}

/// Carries out commands after the choices of a trace, which are played as they are read. Returns `Unlike` if it is no trace.
fn session_at(
    report: &Report<'_>,
    file: ProgramFile<'_>,
    image: Image,
    name: &str,
    trace: Stream<'_>,
) -> Result<Done, Reported> {
    // 0: no lines of its file precede the trace.
    let mut trace = Watched::new(report.alloc(), ReadPort::new(trace), 0);
    let mut commands = commands(report)?;
    let mut output = WritePort::new(report.kept(report.rt.stdout()));
    let alloc = report.alloc();
    let answer = shown::debug_at(alloc, image, &mut trace, &mut commands, &mut output);
    let done = flushed(answer, &mut output).map_err(|fault| fail(report, file, name, fault))?;
    if done == Done::Unlike {
        let line = wrong_line(report.alloc(), &trace);
        note_no_trace(report, name, &trace, line);
    }
    Ok(done)
}

/// Writes `not a trace LINE` to standard output, and shows a person that line on standard error: the first that no trace has
/// there. Returns `Unlike`, which is exit status 1, or what was reported if standard output failed.
fn end_without_trace<S>(
    report: &Report<'_>,
    name: &str,
    trace: &Watched<S>,
    line: u64,
) -> Result<Done, Reported> {
    let mut output = WritePort::new(report.kept(report.rt.stdout()));
    let answer = push_counted_line(&mut output, b"not a trace ", line).map_err(|_| Fault::Write);
    flushed(answer, &mut output).map_err(|fault| report.fault(fault))?;
    note_no_trace(report, name, trace, line);
    Ok(Done::Unlike)
}

/// Carries out a person's commands after the choices of a trace, all of which are read first: the command `w` writes them.
fn session_of_person_at(
    report: &Report<'_>,
    file: ProgramFile<'_>,
    program: Program<'_>,
    name: &str,
    trace: Stream<'_>,
) -> Result<Done, Reported> {
    // 0: no lines of its file precede the trace.
    let mut trace = Watched::new(report.alloc(), ReadPort::new(trace), 0);
    match choices_in(report.alloc(), &mut trace) {
        Ok(Named::Choices(runs)) => session_of_person(report, file, program, Some(runs.as_slice())),
        Ok(Named::NotATrace { line }) => end_without_trace(report, name, &trace, line),
        Err(NamingFault::Memory) => Err(report.fault(Fault::Memory)),
        Err(NamingFault::Read) => Err(fail(report, file, name, Fault::Read)),
    }
}

/// Shows a person the program's rows, and which commands are waited for.
fn greet(report: &Report<'_>, program: &Program<'_>) -> Result<(), Reported>
    requires { IsNamedProgram program.now.bytes.now program.now.image program.now.names }
{
    let mut errors = WritePort::new(printable::errors(report.rt));
    // A note that can't be written doesn't end the session.
    let _ = errors.push(if is_image_file(program.bytes) {
        b"row\n".as_slice()
    } else {
        b"row line\n"
    });
    if let Err(fault) = list_rows(report.alloc(), program, &mut errors) {
        return Err(report.fault(fault));
    }
    notes::push_waiting(
        report,
        b"reading commands from the terminal (`help` lists them)\n",
    );
    Ok(())
}

/// Carries out commands after the choices of a plan. `is_guided`: they are those of a person.
fn session_after_plan(
    report: &Report<'_>,
    file: ProgramFile<'_>,
    program: Program<'_>,
    plan: PlanFile<'_>,
    is_guided: bool,
) -> Result<Done, Reported> {
    let planned = planned(report, file, &program, plan)?;
    let runs = Some(planned.runs.as_slice());
    if is_guided {
        session_of_person(report, file, program, runs)
    } else {
        session(report, file, program.image, runs, &mut commands(report)?)
    }
}

/// Carries out the commands on standard input on a file's program, after these choices. A person at a terminal is guided.
pub fn debug(report: &Report<'_>, name: &str, steps: Steps<'_>) -> Result<Done, Reported> {
    let (bytes, steps) = opened(report, Some(name), steps)?;
    let file = ProgramFile::whole(name, bytes.as_slice());
    let program = input::program(report, file)?;
    let is_guided = report.rt.stdin().is_terminal() && report.rt.stderr().is_terminal();
    if is_guided {
        greet(report, &program)?;
    }
    match steps {
        OpenSteps::Beside if is_guided => session_of_person(report, file, program, None),
        OpenSteps::Beside => session(report, file, program.image, None, &mut commands(report)?),
        OpenSteps::Named(name, trace) if is_guided => {
            session_of_person_at(report, file, program, name, trace)
        }
        OpenSteps::Named(name, trace) => session_at(report, file, program.image, name, trace),
        OpenSteps::Plan(name, plan) => {
            let bytes = plan.as_slice();
            session_after_plan(report, file, program, PlanFile { name, bytes }, is_guided)
        }
    }
}
