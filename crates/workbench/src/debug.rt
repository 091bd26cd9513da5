// A session of the debugger: a line is read, carried out and replied to before the next one.
ghost use Rattle.std.specs.Prelude.{◌≡◌, ◌⊎◌, ◌+◌, ◌∷◌, [], true, false, ℕ, length, None, Some, Ok, Err, IsTrue, IfOk, IfErr, OnOk, Result};
ghost use Rattle.std.specs.Io.KnownBytes.{Appends, Consumes};
ghost use Rattle.trace_compare.specs.Naming.{HasNamed};
ghost use Rattle.trace_text.specs.{Outcome.IsUntouched, RunText.GivesOnAndOn};
ghost use Rattle.debugger.specs.declared.stop.Stop.{Stop};
ghost use Rattle.row_code.specs.declared.image.Image.{Image};
ghost use Rattle.workbench.specs.declared.debug.PlayedTrace.TheVariants as played;
ghost use Rattle.workbench.specs.{declared.fault.Fault.Fault, Compare.verdict_line, Done.IsSettledBy, Done.as_asked};
ghost use Rattle.workbench.specs.Debug.{Converses, Debugs, DebugsAt, Exchange, Finished, GivesFew, HasConversed, HasNoSession, IsDialogue, IsFirstSession, IsPlayedTo, bytes_of};
ghost use Rattle.workbench.specs.{Input.GivesInEach, Input.IsCounted, Outcome.ComesOfProgram};
ghost use Rattle.trace_compare.specs.declared.comparison.Verdict.TheVariants as verdict;

use crate::companion::Companion;
use crate::compare::push_verdict;
use crate::done::{Done, as_asked, settled, settled_as_asked};
use crate::fault::Fault;
use crate::program::image_from;
use byte_ports::{Sink, Source, SourceLines};
use debugger::{CommandFault, Debugger, Stop, say_stop};
use row_code::Image;
use schedule_reader::Run;
use std::alloc::Global;
use trace_compare::Verdict;
use trace_compare::naming::{MOST_LINES, NextName, next_name};
use trace_text::start::{StartFault, first_machine};

/// How many choices can be taken back.
const MOST_KEPT: u16 = 4096;

/// How many bytes are read of the commands at most, over all lines.
const MOST_READS: u64 = 1_000_000_000;

/// Debugs the program in `file`: reads a line of `commands`, carries it out, writes its reply to `output`, and goes on up to
/// the line `q` or to the end. Returns the exit status: 0 even if a line is no command or its choice is refused. With any other
/// status `errors` gets one line: `refused ..` (3), `memory` (4), or `read` or `write` (5). No byte after a line's LF is read
/// before its reply is written, and none after `q`. Each reply is written in one piece.
pub fn debug_cmd<F: Source, S: Source, K: Sink, E: Sink>(
    alloc: Global,
    file: &mut F,
    commands: &mut S,
    output: &mut K,
    errors: &mut E,
) -> u8
    ensures outcome { (answer : Result (Unit {0}) Fault)
        × (ComesOfProgram (λ image came. Debugs None image came (S.left commands.old) (S.left commands.new) (S.has_failed commands.new)
        (K.written output.old) (K.written output.new) (K.has_failed output.new))
        (IsUntouched (S.left commands.old) (S.left commands.new) (K.written output.old) (K.written output.new))
        answer (F.left file.old) (F.left file.new) (F.has_failed file.new)
        × IsSettledBy as_asked answer result (E.has_failed errors.new) (E.written errors.old) (E.written errors.new)) }
    ensures few { GivesFew (S.left commands.old) (S.left commands.new) }
{
    match image_from(alloc, file) {
        Ok(image) => settled_as_asked(debug(alloc, image, commands, output), errors),
        Err(fault) => settled(Err(fault), errors),
    }
}

/// Debugs an image's program: reads a line of `commands`, carries it out, writes its reply, and so on, up to `q` or the end.
pub fn debug<C: Companion, K: Sink>(
    alloc: Global,
    image: Image,
    commands: &mut C,
    output: &mut K,
) -> Result<(), Fault>
    ensures outcome { Debugs None image result (C.left commands.old) (C.left commands.new) (C.has_failed commands.new)
        (K.written output.old) (K.written output.new) (K.has_failed output.new) }
    ensures few { GivesFew (C.left commands.old) (C.left commands.new) }
{
    let mut debugger = match first_debugger(alloc, image) {
        Ok(debugger) => debugger,
        Err(fault) => return Err(fault),
    };
    converse(alloc, &mut debugger, commands, output)
}

/// Plays `runs` of choices, writes the reply of the command `g`, and then carries out the lines of `commands`.
pub fn debug_behind<C: Companion, K: Sink>(
    alloc: Global,
    image: Image,
    runs: &[Run],
    commands: &mut C,
    output: &mut K,
) -> Result<(), Fault>
    ensures outcome { Debugs (Some runs.now) image result
        (C.left commands.old) (C.left commands.new) (C.has_failed commands.new)
        (K.written output.old) (K.written output.new) (K.has_failed output.new) }
    ensures few { GivesFew (C.left commands.old) (C.left commands.new) }
{
    let mut debugger = match first_debugger(alloc, image) {
        Ok(debugger) => debugger,
        Err(fault) => return Err(fault),
    };
    match debugger.go_command(runs, output) {
        Ok(()) => converse(alloc, &mut debugger, commands, output),
        Err(_) => Err(Fault::Write),
    }
}

/// Plays the choices of a trace as they are read, writes the reply of the command `g`, and carries out the lines of `commands`.
/// If `trace` isn't a trace, it writes `not a trace LINE` for the first wrong line, and reads no command.
pub fn debug_at<T: Source, C: Companion, K: Sink>(
    alloc: Global,
    image: Image,
    trace: &mut T,
    commands: &mut C,
    output: &mut K,
) -> Result<Done, Fault>
    ensures outcome { DebugsAt image result (T.left trace.old) (T.left trace.new) (T.has_failed trace.new)
        (C.left commands.old) (C.left commands.new) (C.has_failed commands.new)
        (K.written output.old) (K.written output.new) (K.has_failed output.new) }
    ensures few { GivesFew (C.left commands.old) (C.left commands.new) }
{
    let mut debugger = match first_debugger(alloc, image) {
        Ok(debugger) => debugger,
        Err(fault) => return Err(fault),
    };
    let stop = match play_trace(alloc, &mut debugger, trace) {
        Ok(PlayedTrace::To(stop)) => stop,
        Ok(PlayedTrace::NotATrace { line }) => return not_a_trace(output, line),
        Err(fault) => return Err(fault),
    };
    match say_stop(output, stop) {
        Ok(()) => as_asked(converse(alloc, &mut debugger, commands, output)),
        Err(_) => Err(Fault::Write),
    }
}

/// The result of playing the choices of a trace as the trace is read.
enum PlayedTrace {
    /// The choices were played up to this stop.
    To(Stop),
    /// It is no trace: this line, counted from 1, is the first that is no line of a trace.
    NotATrace { line: u64 },
}

/// Plays a trace's choices up to a breakpoint or a refusal, and reads on to its state. If a line isn't a trace's, returns its
/// number. A trace that ends with a choice's line lacks the next line: that is the first wrong one.
fn play_trace<T: Source>(
    alloc: Global,
    debugger: &mut Debugger,
    trace: &mut T,
) -> Result<PlayedTrace, Fault>
    ensures stopped { (stop : Stop) → result ≡ Ok (played.To stop)
        → IsPlayedTo stop debugger.old debugger.new (T.left trace.old) (T.left trace.new) }
    ensures none { (line : ℕ) → result ≡ Ok (played.NotATrace line)
        → HasNamed (T.left trace.old) (T.left trace.new) (Err line) }
    ensures fault { IfErr result (λ fault. ((fault ≡ Fault.Memory) × (T.left trace.new ≡ T.left trace.old))
        ⊎ ((fault ≡ Fault.Read) × (IsTrue (T.has_failed trace.new)
        ⊎ GivesOnAndOn (T.left trace.old) (T.left trace.new)))) }
{
    let Ok(mut lines) = SourceLines::new(alloc) else {
        return Err(Fault::Memory);
    };
    // No choice is played yet, so the first one may be.
    let mut stop = Stop::End(0);
    for before in 0..MOST_LINES {
        match next_name(&mut lines, trace) {
            Ok(NextName::Made(choice)) => stop = debugger.go_on(stop, choice),
            Ok(NextName::State) => return Ok(PlayedTrace::To(stop)),
            Ok(NextName::NotATrace) => return Ok(PlayedTrace::NotATrace { line: before + 1 }),
            Ok(NextName::CutOff(_)) => return Ok(PlayedTrace::NotATrace { line: before + 2 }),
            Err(_) => return Err(Fault::Read),
        }
    }
    Err(Fault::Read)
}

/// Writes `not a trace LINE`, and returns `Unlike`, which is exit status 1.
fn not_a_trace<K: Sink>(output: &mut K, line: u64) -> Result<Done, Fault>
    ensures told { OnOk result (Appends (K.written output.old) (K.written output.new)
        (verdict_line (verdict.NotATrace line))) }
    ensures unlike { IfOk result (λ done. done ≡ Done.Unlike) }
    ensures fault { IfErr result (λ fault. (fault ≡ Fault.Write) × IsTrue (K.has_failed output.new)) }
{
    match push_verdict(output, Verdict::NotATrace { line }) {
        Ok(()) => Ok(Done::Unlike),
        Err(_) => Err(Fault::Write),
    }
}

/// Makes the debugger of an image's program before its first choice. The last 4,096 choices can be taken back.
pub fn first_debugger(alloc: Global, image: Image) -> Result<Debugger, Fault>
    ensures first { IfOk result (λ debugger. IsFirstSession image debugger) }
    ensures none { IfErr result (λ fault. HasNoSession fault image) }
{
    let machine = match first_machine(alloc, image) {
        Ok(machine) => machine,
        Err(StartFault::Load(fault)) => return Err(Fault::Load(fault)),
        Err(StartFault::Memory) => return Err(Fault::Memory),
    };
    Debugger::new(alloc, machine, MOST_KEPT).map_err(|_| Fault::Memory)
}

/// Reads a line, writes its reply, and goes on so, up to `q` or to the end. Fails with `Read` after 1,000,000,000 bytes.
fn converse<C: Companion, K: Sink>(
    alloc: Global,
    debugger: &mut Debugger,
    commands: &mut C,
    output: &mut K,
) -> Result<(), Fault>
    ensures outcome { Converses (GivesOnAndOn (C.left commands.old) (C.left commands.new)) result debugger.old
        (C.left commands.old) (C.left commands.new) (C.has_failed commands.new)
        (K.written output.old) (K.written output.new) (K.has_failed output.new) }
    ensures few { GivesFew (C.left commands.old) (C.left commands.new) }
{
    let mut line = Vec::new(alloc);
    let mut reads = MOST_READS;
    while reads > 0 {
        match take_turn(debugger, &mut line, &mut reads, commands, output) {
            Ok(true) => {}
            Ok(false) => return Ok(()),
            Err(fault) => return Err(fault),
        }
    }
    Err(Fault::Read)
}

/// Reads a line and writes its reply. Returns whether the session goes on: not after `q`, nor after a last line without LF.
fn take_turn<C: Companion, K: Sink>(
    debugger: &mut Debugger,
    line: &mut Vec<u8>,
    reads: &mut u64,
    commands: &mut C,
    output: &mut K,
) -> Result<bool, Fault>
    ensures next { result ≡ Ok true → (exchange : Exchange)
        × (IsDialogue debugger.old (exchange ∷ []) debugger.new
        × Consumes (C.left commands.old) (C.left commands.new) (bytes_of exchange.line true)
        × Appends (K.written output.old) (K.written output.new) exchange.reply
        × (length exchange.line + 1 + reads.new ≡ reads.old)) }
    ensures last { result ≡ Ok false → HasConversed Finished debugger.old
        (C.left commands.old) (C.left commands.new) (K.written output.old) (K.written output.new) }
    ensures fault { IfErr result (λ fault.
        Converses (GivesInEach reads.old (C.left commands.old) (C.left commands.new)) (Err fault) debugger.old
        (C.left commands.old) (C.left commands.new) (C.has_failed commands.new)
        (K.written output.old) (K.written output.new) (K.has_failed output.new)) }
    ensures few { IsCounted reads.old reads.new (C.left commands.old) (C.left commands.new) }
{
    let is_ended = match commands.next_line(debugger, reads, line) {
        Ok(is_ended) => is_ended,
        Err(fault) => return Err(fault),
    };
    if !is_ended && line.is_empty() {
        return Ok(false);
    }
    match debugger.command(line.as_slice(), output) {
        Ok(goes_on) => Ok(is_ended && goes_on),
        Err(CommandFault::Memory) => Err(Fault::Memory),
        Err(CommandFault::Write) => Err(Fault::Write),
    }
}
