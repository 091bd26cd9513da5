// A run under a schedule that is read piece by piece.
ghost use Rattle.std.specs.Prelude.{◌≡◌, ◌+◌, ◌≤◌, [], Ok, Err, IfErr, IfOk, OnOk, false};
ghost use Rattle.row_code.specs.declared.image.Image.{Image};
ghost use Rattle.schedule_reader.specs.Schedule.{choices_of};
ghost use Rattle.thread_machine.specs.World.{world_of};
ghost use Rattle.trace_text.specs.{declared.run_end.RunEnd.RunEnd, Outcome.ComesTo, Outcome.Stops, Outcome.StopsFrom};
ghost use Rattle.trace_text.specs.Playing.{HasPlayedAll, IsFaultOfReader, PlaysOn, StopsAt, played_fault};
ghost use Rattle.trace_text.specs.Start.{Begins};

use crate::choice_line::ChoiceLine;
use crate::play::{PlayFault, Refused, play_runs};
use crate::run_end::{RunEnd, push_end};
use crate::start::{StartFault, first_machine};
use byte_ports::{Sink, Source};
use loader::LoadFault;
use row_code::Image;
use schedule_reader::{Reader, Run, ScheduleFault};
use std::alloc::Global;
use thread_machine::Machine;

/// How many bytes of a schedule are read at a time.
const PIECE: usize = 4096;

/// The most runs that such a piece completes: one for every three bytes, and one that began before the piece.
const MOST_RUNS: usize = 1400;

/// The most pieces of a schedule that are read.
const MOST_READS: u64 = 1_000_000_000;

/// Why a trace is not written, or is cut short.
#[derive(Clone, Copy, PartialEq, Eq)]
pub enum RunFault {
    /// The image can't be loaded. The fault is never `Memory`.
    Load(LoadFault),
    /// The schedule has a fault, which is never `Memory`.
    Schedule(ScheduleFault),
    /// Out of memory.
    Memory,
    /// The schedule can't be read.
    Read,
    /// The trace can't be written.
    Write,
}

impl RunFault {
    /// Returns a fault of playing choices as the fault of the whole run.
    fn of_play(fault: PlayFault) -> RunFault
        ensures { result ≡ played_fault fault }
    {
        match fault {
            PlayFault::Memory => RunFault::Memory,
            PlayFault::Write => RunFault::Write,
        }
    }
}

/// Returns the fault in `told`, which the schedule's reader returned. If there is none, returns the refused choice, or `None`
/// if no choice was refused.
fn read_or_refused(
    told: Result<(), ScheduleFault>,
    refused: Option<Refused>,
) -> Result<Option<Refused>, RunFault>
    ensures ok { IfOk result (λ last. (told ≡ Ok tt) × (last ≡ refused)) }
    ensures err { IfErr result (λ fault. IsFaultOfReader fault told) }
{
    match told {
        Ok(()) => Ok(refused),
        Err(ScheduleFault::Memory) => Err(RunFault::Memory),
        Err(fault) => Err(RunFault::Schedule(fault)),
    }
}

/// Plays the runs that a reader appended to the list, unless a choice was refused before, and empties the list. Then returns
/// the reader's fault, `told`, if it has one, and otherwise the refused choice, or `None` if none was refused.
fn play_piece<W: Sink>(
    machine: &mut Machine,
    refused: Option<Refused>,
    told: Result<(), ScheduleFault>,
    runs: &mut Vec<Run>,
    line: &mut ChoiceLine,
    output: &mut W,
) -> Result<Option<Refused>, RunFault>
    ensures told { OnOk result (told ≡ Ok tt) }
    ensures plays { IfOk result (λ last. PlaysOn (world_of machine.old) (world_of machine.new) refused last
        (choices_of runs.old.items) (W.written output.old) (W.written output.new)) }
    ensures stops { IfErr result (λ fault. StopsAt fault told (world_of machine.old) refused
        (choices_of runs.old.items) (W.written output.old) (W.written output.new) (W.has_failed output.new)) }
    ensures runs { runs.new.items ≡ [] }
{
    if refused.is_some() {
        runs.clear();
        return read_or_refused(told, refused);
    }
    let played = play_runs(machine, runs.as_slice(), line, output);
    runs.clear();
    match played {
        Ok(refused) => read_or_refused(told, refused),
        Err(fault) => Err(RunFault::of_play(fault)),
    }
}

/// Reads a schedule to its end, even after a refused choice, to find its faults. Plays it up to that choice. Returns the
/// refused choice, or `None` if no choice was refused. `runs` has the caller's memory for the runs of one piece.
fn play_stream<S: Source, W: Sink>(
    machine: &mut Machine,
    schedule: &mut S,
    runs: &mut Vec<Run>,
    output: &mut W,
) -> Result<Option<Refused>, RunFault>
    requires { runs.old.items ≡ [] }
    ensures done { IfOk result (λ refused. HasPlayedAll (world_of machine.old) (world_of machine.new) refused
        (S.left schedule.old) (S.left schedule.new) (W.written output.old) (W.written output.new)) }
    ensures sound { OnOk result (S.has_failed schedule.new ≡ false) }
    ensures stops { IfErr result (λ fault. StopsFrom (world_of machine.old) fault
        (S.left schedule.old) (S.left schedule.new) (S.has_failed schedule.new)
        (W.written output.old) (W.written output.new) (W.has_failed output.new)) }
    ensures reads { S.reads schedule.new ≤ S.reads schedule.old + 1000000000 }
{
    let mut reader = Reader::new();
    let mut piece = [0u8; PIECE];
    let mut line = ChoiceLine::new();
    let mut refused = None;
    for _ in 0..MOST_READS {
        let count = match schedule.pull(&mut piece) {
            Ok(count) => count,
            Err(_) => return Err(RunFault::Read),
        };
        if count == 0 {
            let told = reader.finish(runs);
            return play_piece(machine, refused, told, runs, &mut line, output);
        }
        let told = reader.feed(&piece[..count], runs);
        match play_piece(machine, refused, told, runs, &mut line, output) {
            Ok(last) => refused = last,
            Err(fault) => return Err(fault),
        }
    }
    // The schedule doesn't end: it counts as one that can't be read.
    Err(RunFault::Read)
}

/// Plays a schedule on a machine, writes the trace, and returns how the run has ended.
fn run_from<S: Source, W: Sink>(
    alloc: Global,
    machine: &mut Machine,
    schedule: &mut S,
    output: &mut W,
) -> Result<RunEnd, RunFault>
    ensures outcome { (image : Image) → Begins image (world_of machine.old)
        → ComesTo image result (S.left schedule.old) (S.left schedule.new) (S.has_failed schedule.new)
        (W.written output.old) (W.written output.new) (W.has_failed output.new) }
    ensures reads { S.reads schedule.new ≤ S.reads schedule.old + 1000000000 }
{
    let Ok(mut runs) = Vec::with_capacity(alloc, MOST_RUNS) else {
        return Err(RunFault::Memory);
    };
    let refused = match play_stream(machine, schedule, &mut runs, output) {
        Ok(refused) => refused,
        Err(fault) => return Err(fault),
    };
    match push_end(alloc, machine, refused, output) {
        Ok(end) => Ok(end),
        Err(fault) => Err(RunFault::of_play(fault)),
    }
}

/// Plays an image's program under a schedule, writes a line for each choice and then the state, and returns how the run ended.
/// The schedule is read piece by piece to its end. A fault in it is returned, even if a choice was refused before.
pub fn run_to_end<S: Source, W: Sink>(
    alloc: Global,
    image: Image,
    schedule: &mut S,
    output: &mut W,
) -> Result<RunEnd, RunFault>
    ensures outcome { ComesTo image result (S.left schedule.old) (S.left schedule.new) (S.has_failed schedule.new)
        (W.written output.old) (W.written output.new) (W.has_failed output.new) }
    ensures reads { S.reads schedule.new ≤ S.reads schedule.old + 1000000000 }
{
    match first_machine(alloc, image) {
        Ok(mut machine) => run_from(alloc, &mut machine, schedule, output),
        Err(StartFault::Load(fault)) => Err(RunFault::Load(fault)),
        Err(StartFault::Memory) => Err(RunFault::Memory),
    }
}

/// Plays an image's program under a schedule, and writes the trace. The caller needn't know how the run ended (`_end`).
pub fn run_text<S: Source, W: Sink>(
    alloc: Global,
    image: Image,
    schedule: &mut S,
    output: &mut W,
) -> Result<(), RunFault>
    ensures ends { OnOk result ((end : RunEnd) × ComesTo image (Ok end)
        (S.left schedule.old) (S.left schedule.new) (S.has_failed schedule.new)
        (W.written output.old) (W.written output.new) (W.has_failed output.new)) }
    ensures stops { IfErr result (λ fault. Stops image fault
        (S.left schedule.old) (S.left schedule.new) (S.has_failed schedule.new)
        (W.written output.old) (W.written output.new) (W.has_failed output.new)) }
    ensures reads { S.reads schedule.new ≤ S.reads schedule.old + 1000000000 }
{
    let _end = match run_to_end(alloc, image, schedule, output) {
        Ok(end) => end,
        Err(fault) => return Err(fault),
    };
    Ok(())
}
