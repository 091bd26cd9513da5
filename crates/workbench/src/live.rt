// A run on real threads, whose recorded choices are then played again for the trace.
ghost use Rattle.std.specs.Prelude.{◌≡◌, ◌⊎◌, ◌≤◌, All, None, Ok, Err, IfOk, IfErr, OnOk, Result, length};
ghost use Rattle.row_code.specs.declared.image.Image.{Image};
ghost use Rattle.loader.specs.{Fault.first_fault, Program.IsProgramOf, declared.load_fault.LoadFault.LoadFault};
ghost use Rattle.schedule_reader.specs.Schedule.{IsRun, choices_of, finished_schedule};
ghost use Rattle.thread_runner.specs.declared.{fault.LiveFault.LiveFault, runner.LiveRun.LiveRun};
ghost use Rattle.trace_text.specs.{Start.IsRefused, declared.run_end.RunEnd.RunEnd};
ghost use Rattle.workbench.specs.{declared.fault.Fault.Fault, Done.IsSettledBy, Done.as_asked, Outcome.ComesOfProgram};
ghost use Rattle.workbench.specs.Live.{IsRecorded, Lives, fault_of_live};

use crate::done::{settled, settled_as_asked};
use crate::fault::Fault;
use crate::program::image_from;
use byte_ports::{Sink, Source};
use loader::{LoadFault, Loaded, load};
use row_code::Image;
use schedule_reader::{Run, read_schedule};
use std::alloc::Global;
use std::sync::Wait;
use std::thread::Threads;
use thread_runner::{Gate, LiveFault, LiveRun, NoGate, run_live};
use trace_text::loaded::run_loaded;
use trace_text::{PlayFault, RunEnd};

/// Plays the program in `file`, an image or a text, with a real thread for each of its threads, for at most `limit` steps. Then
/// it writes the trace of the recorded choices to `output`. Returns the exit status: 0 however the run ended. With any other
/// status `errors` gets one line: `refused ..` (3), `memory` or `spawn` (4), or `read` or `write` (5).
pub fn live_cmd<R: Threads + Wait + Sync, F: Source, K: Sink, E: Sink>(
    threads: &R,
    alloc: Global,
    limit: u32,
    file: &mut F,
    output: &mut K,
    errors: &mut E,
) -> u8
    requires { limit ≤ 1000000000 }
    ensures { (answer : Result RunEnd Fault)
        × (ComesOfProgram (λ image came. Lives limit image came (K.written output.old) (K.written output.new) (K.has_failed output.new))
        (K.written output.new ≡ K.written output.old) answer (F.left file.old) (F.left file.new) (F.has_failed file.new)
        × IsSettledBy as_asked answer result (E.has_failed errors.new) (E.written errors.old) (E.written errors.new)) }
{
    match image_from(alloc, file) {
        Ok(image) => settled_as_asked(live(threads, alloc, limit, &NoGate, image, output), errors),
        Err(fault) => settled(Err(fault), errors),
    }
}

/// Plays an image's program on real threads, writes the trace of the choices that they made, and returns how the run has ended.
/// Each thread passes `gate` before it takes the lock. So the gate only decides in which order the choices are made.
pub fn live<R: Threads + Wait + Sync, G: Gate + Sync, K: Sink>(
    rt: &R,
    alloc: Global,
    limit: u32,
    gate: &G,
    image: Image,
    output: &mut K,
) -> Result<RunEnd, Fault>
    requires { limit ≤ 1000000000 }
    ensures { Lives limit image result (K.written output.old) (K.written output.new) (K.has_failed output.new) }
{
    let program = match loaded(alloc, image) {
        Ok(program) => program,
        Err(fault) => return Err(fault),
    };
    let again = match program.copy(alloc) {
        Ok(again) => again,
        Err(_) => return Err(Fault::Memory),
    };
    let runs = match runs_of(alloc, run_live(rt, alloc, program, limit, gate)) {
        Ok(runs) => runs,
        Err(fault) => return Err(fault),
    };
    match run_loaded(alloc, again, runs.as_slice(), output) {
        Ok(end) => Ok(end),
        Err(PlayFault::Memory) => Err(Fault::Memory),
        Err(PlayFault::Write) => Err(Fault::Write),
    }
}

/// Loads an image's program. What is wrong with it is returned as a command's fault: `Load`, or `Memory`.
fn loaded(alloc: Global, image: Image) -> Result<Loaded, Fault>
    ensures loaded { IfOk result (λ program. IsProgramOf image program) }
    ensures none { OnOk result (first_fault image ≡ None) }
    ensures fault { IfErr result (λ told. (told ≡ Fault.Memory)
        ⊎ ((fault : LoadFault) × ((told ≡ Fault.Load fault) × IsRefused fault image))) }
{
    match load(alloc, image) {
        Ok(program) => Ok(program),
        Err(LoadFault::Memory) => Err(Fault::Memory),
        Err(fault) => Err(Fault::Load(fault)),
    }
}

/// Returns why a live run was broken off, as a command's fault.
pub fn fault_of_live(fault: LiveFault) -> Fault
    ensures fault { result ≡ fault_of_live fault }
    ensures either { (result ≡ Fault.Memory) ⊎ (result ≡ Fault.Spawn) }
{
    match fault {
        LiveFault::Memory(_) => Fault::Memory,
        LiveFault::Spawn => Fault::Spawn,
    }
}

/// Returns the choices of a live run, read from its schedule, or why the run was broken off. Reading the schedule fails only if
/// out of memory.
fn runs_of(alloc: Global, ran: Result<LiveRun, LiveFault>) -> Result<Vec<Run>, Fault>
    requires few { IfOk ran (λ run. length run.schedule.items ≤ 4000000000) }
    ensures runs { IfOk result (λ runs. All IsRun runs.items) }
    ensures choices { IfOk result (λ runs. (run : LiveRun) × ((ran ≡ Ok run)
        × (choices_of (finished_schedule run.schedule.items).runs ≡ choices_of runs.items))) }
    ensures broken { (fault : LiveFault) → ran ≡ Err fault → result ≡ Err (fault_of_live fault) }
    ensures fault { IfErr result (λ fault. (fault ≡ Fault.Memory) ⊎ (fault ≡ Fault.Spawn)) }
{
    let run = match ran {
        Ok(run) => run,
        Err(fault) => return Err(fault_of_live(fault)),
    };
    match read_schedule(alloc, run.schedule.as_slice()) {
        Ok(runs) => Ok(runs),
        Err(_) => Err(Fault::Memory),
    }
}
