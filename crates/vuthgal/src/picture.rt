//! The commands `show` and `draw`, which write a picture of a run: a page, or a text.

use crate::run::{Choices, NO_SCHEDULE, fail};
use crate::steps::{OpenSteps, opened, played};
use crate::{input, notes};
use byte_ports::{ReadPort, WritePort};
use command_line::ports::watched::Watched;
use command_line::request::Steps;
use commands::drawing::Drawing;
use commands::page::Page;
use commands::picture::Picture;
use commands::write_picture::make;
use fault_reports::plan::{PlanFile, explain_stopped, push_stopped};
use fault_reports::program::ProgramFile;
use fault_reports::report::{Report, Reported};
use fault_reports::schedule;
use page_frame::frame;
use schedule_reader::write_schedule;
use suggestions::schedule_fault::Origin;
use workbench::Program;
use workbench::done::Done;
use workbench::ending::flushed;
use workbench::fault::Fault;

/// Writes the picture of a program under a schedule. Tells a person if there is no schedule, or which choice is that of a
/// thread that doesn't exist.
fn write_picture<P: Picture>(
    report: &Report<'_>,
    picture: &P,
    file: ProgramFile<'_>,
    program: Program<'_>,
    choices: Choices<'_>,
) -> Result<Done, Reported> {
    let Choices { name, origin, .. } = choices;
    let alloc = report.alloc();
    let mut schedule = Watched::new(alloc, ReadPort::new(choices.stream), choices.lines);
    let mut output = WritePort::new(report.kept(report.rt.stdout()));
    // Below `.run` the whole schedule is in memory, so its fault is reported even if it follows too many choices.
    let to_end = matches!(origin, Origin::Beside);
    let answer = make(alloc, picture, program, &mut schedule, to_end, &mut output);
    match flushed(answer, &mut output) {
        Ok(missing) => {
            if choices.live == NO_SCHEDULE {
                report.help(NO_SCHEDULE);
            }
            if let Some((number, _)) = missing {
                schedule::note_missing(report, name, &schedule, number);
            }
            Ok(Done::AsAsked)
        }
        Err(Fault::Schedule(fault)) => Err(schedule::fail(report, name, origin, &schedule, fault)),
        Err(fault) => Err(fail(report, file, name, fault)),
    }
}

/// Writes the picture of a program under the schedule that a plan stands for. A person is told, too, if the plan was stopped.
fn picture_of_plan<P: Picture>(
    report: &Report<'_>,
    picture: &P,
    file: ProgramFile<'_>,
    program: Program<'_>,
    plan: PlanFile<'_>,
) -> Result<Done, Reported> {
    let planned = played(report, file, &program, plan)?;
    if planned.stopped {
        push_stopped(report);
    }
    let Ok(schedule) = write_schedule(report.alloc(), planned.runs.as_slice()) else {
        return Err(report.fault(Fault::Memory));
    };
    let choices = Choices::planned(plan.name, schedule.as_bytes());
    let done = write_picture(report, picture, file, program, choices)?;
    // A picture that is refused has its own help.
    if planned.stopped {
        explain_stopped(report, plan);
    }
    Ok(done)
}

/// Writes the picture of the program in a file, under the choices that `steps` name.
fn picture<P: Picture>(
    report: &Report<'_>,
    picture: &P,
    name: &str,
    steps: Steps<'_>,
) -> Result<Done, Reported> {
    let (bytes, steps) = opened(report, Some(name), steps)?;
    let (text, beside) = steps.parts(bytes.as_slice());
    let file = ProgramFile {
        name,
        bytes: bytes.as_slice(),
        text,
    };
    let program = input::program(report, file)?;
    match steps {
        OpenSteps::Beside => {
            let choices = Choices::beside(file, beside);
            write_picture(report, picture, file, program, choices)
        }
        OpenSteps::Named(name, stream) => {
            write_picture(
                report,
                picture,
                file,
                program,
                Choices::of_stream(name, stream),
            )
        }
        OpenSteps::Plan(name, plan) => {
            let bytes = plan.as_slice();
            picture_of_plan(report, picture, file, program, PlanFile { name, bytes })
        }
    }
}

/// Writes the page of the program in a file.
pub fn show(report: &Report<'_>, name: &str, steps: Steps<'_>) -> Result<Done, Reported> {
    let done = picture(report, &Page { frame: frame() }, name, steps)?;
    // The note comes after the page, which is longer than a terminal: before it, nobody would see the note.
    notes::push_page_on_terminal(report);
    Ok(done)
}

/// Draws the run of the program in a file, in lines of at most `width` bytes.
pub fn draw(
    report: &Report<'_>,
    name: &str,
    steps: Steps<'_>,
    width: u16,
) -> Result<Done, Reported> {
    picture(report, &Drawing { width }, name, steps)
}
