//! A program with known choices: those of a plan, of a live run, or of a picture.
ghost use Rattle.std.specs.Prelude.{◌≡◌, IfOk, IsTrue};
ghost use Rattle.schedule_reader.specs.Schedule.{choices_of};
ghost use Rattle.thread_machine.specs.World.{first_world, world_of};
ghost use Rattle.trace_text.specs.{Outcome.ComesOfChoices, RunText.AreTraced, Trace.AppendsPartOf, Trace.lines_of};

use crate::choice_line::ChoiceLine;
use crate::play::{PlayFault, play_runs};
use crate::run::RunFault;
use crate::run_end::{RunEnd, push_end};
use crate::start::{StartFault, begun, first_machine};
use byte_ports::Sink;
use loader::Loaded;
use row_code::Image;
use schedule_reader::Run;
use std::alloc::Global;
use thread_machine::Machine;

/// Plays runs of choices up to a refused one, and writes their lines and the text of the state. Returns how the run has ended.
fn play_known<W: Sink>(
    alloc: Global,
    machine: &mut Machine,
    runs: &[Run],
    output: &mut W,
) -> Result<RunEnd, PlayFault>
    ensures traced { IfOk result (λ end. AreTraced (world_of machine.old) (choices_of runs.now) end
        (W.written output.old) (W.written output.new)) }
    ensures memory { result ≡ Err PlayFault.Memory → AppendsPartOf (W.written output.old) (W.written output.new)
        (lines_of (world_of machine.old) (choices_of runs.now)) }
    ensures write { result ≡ Err PlayFault.Write → IsTrue (W.has_failed output.new) }
{
    match play_runs(machine, runs, &mut ChoiceLine::new(), output) {
        Ok(refused) => push_end(alloc, machine, refused, output),
        Err(fault) => Err(fault),
    }
}

/// Plays `runs` on a program from its beginning up to a refused choice, writes the trace, and returns how the run has ended.
pub fn run_loaded<W: Sink>(
    alloc: Global,
    program: Loaded,
    runs: &[Run],
    output: &mut W,
) -> Result<RunEnd, PlayFault>
    ensures traced { IfOk result (λ end. AreTraced (first_world program 1000000000) (choices_of runs.now) end
        (W.written output.old) (W.written output.new)) }
    ensures memory { result ≡ Err PlayFault.Memory → AppendsPartOf (W.written output.old) (W.written output.new)
        (lines_of (first_world program 1000000000) (choices_of runs.now)) }
    ensures write { result ≡ Err PlayFault.Write → IsTrue (W.has_failed output.new) }
{
    match begun(alloc, program) {
        Ok(mut machine) => play_known(alloc, &mut machine, runs, output),
        Err(_) => Err(PlayFault::Memory),
    }
}

/// Plays `runs` on an image's program up to a refused choice, writes the trace, and returns how the run has ended.
pub fn run_choices<W: Sink>(
    alloc: Global,
    image: Image,
    runs: &[Run],
    output: &mut W,
) -> Result<RunEnd, RunFault>
    ensures { ComesOfChoices image (choices_of runs.now) result (W.written output.old) (W.written output.new) (W.has_failed output.new) }
{
    let mut machine = match first_machine(alloc, image) {
        Ok(machine) => machine,
        Err(StartFault::Load(fault)) => return Err(RunFault::Load(fault)),
        Err(StartFault::Memory) => return Err(RunFault::Memory),
    };
    match play_known(alloc, &mut machine, runs, output) {
        Ok(end) => Ok(end),
        Err(PlayFault::Memory) => Err(RunFault::Memory),
        Err(PlayFault::Write) => Err(RunFault::Write),
    }
}
