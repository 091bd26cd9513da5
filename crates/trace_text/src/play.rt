// Plays choices on a machine, and writes the line of each.
ghost use Rattle.std.specs.Prelude.{◌≡◌, ◌≢◌, ◌+◌, ◌++◌, ◌<◌, ◌≤◌, ◌∷◌, decimal, length, [], Some, Ok, false, replicate, IsTrue, true, IfOk, OnOk};
ghost use Rattle.std.specs.Io.KnownBytes.{Appends};
ghost use Rattle.thread_machine.specs.World.{world_of};
ghost use Rattle.schedule_reader.specs.Schedule.{choices_of};
ghost use Rattle.trace_text.specs.{Lines.event_text, Lines.refusal_text, Playing.PlaysTo};
ghost use Rattle.trace_text.specs.Trace.{AppendsPartOf, Plays, lines_of};

use crate::choice_line::ChoiceLine;
use crate::line::{put_event, put_played, put_refusal};
use crate::line_end::LineEnd;
use byte_ports::Sink;
use schedule_reader::Run;
use std::alloc::AllocError;
use thread_machine::{Choice, Event, Machine, StepFault};

/// Why a trace is cut short.
#[derive(Clone, Copy, PartialEq, Eq)]
pub enum PlayFault {
    /// Out of memory.
    Memory,
    /// The trace can't be written.
    Write,
}

/// Writes a complete line. It fails only with `Write`.
fn push_line<W: Sink>(line: &[u8], output: &mut W) -> Result<(), PlayFault>
    ensures line { OnOk result (Appends (W.written output.old) (W.written output.new) line.now) }
    ensures write { result ≡ Err PlayFault.Write → IsTrue (W.has_failed output.new) }
    ensures memory { result ≢ Err PlayFault.Memory }
{
    match output.push(line) {
        Ok(()) => Ok(()),
        Err(_) => Err(PlayFault::Write),
    }
}

/// The choice that ends a run, since the machine has refused it, and why: `NoSuchThread`, or `StepLimit`.
#[derive(Clone, Copy, PartialEq, Eq)]
pub struct Refused {
    pub choice: Choice,
    pub why: StepFault,
}

/// Writes the line of a choice that was played. `line` is its buffer.
fn push_event<W: Sink>(
    step: u64,
    choice: Choice,
    pc: u16,
    event: &Event,
    line: &mut ChoiceLine,
    output: &mut W,
) -> Result<(), PlayFault>
    requires { step ≤ 1000000000000 }
    ensures line { OnOk result (Appends (W.written output.old) (W.written output.new)
        (event_text step choice pc event.now)) }
    ensures write { result ≡ Err PlayFault.Write → IsTrue (W.has_failed output.new) }
    ensures memory { result ≢ Err PlayFault.Memory }
{
    line.put_event(step, choice, pc, event);
    push_line(line.as_slice(), output)
}

/// Writes the line of the choice that this machine refused as its next: `pc` is the thread's row, or `None` for no such thread.
fn push_refusal<W: Sink>(
    machine: &Machine,
    choice: Choice,
    pc: Option<u16>,
    line: &mut ChoiceLine,
    output: &mut W,
) -> Result<(), PlayFault>
    ensures line { OnOk result (Appends (W.written output.old) (W.written output.new)
        (refusal_text (machine.now.choices + 1) choice pc)) }
    ensures write { result ≡ Err PlayFault.Write → IsTrue (W.has_failed output.new) }
    ensures memory { result ≢ Err PlayFault.Memory }
{
    line.put_refusal(machine.choices() + 1, choice, pc);
    push_line(line.as_slice(), output)
}

/// Plays one choice and writes its line, also if it is refused. `Some`: it was refused, and why. `line` is only the buffer.
#[inline(always)]
fn play_choice<W: Sink>(
    machine: &mut Machine,
    choice: Choice,
    line: &mut ChoiceLine,
    output: &mut W,
) -> Result<Option<Refused>, PlayFault>
    ensures plays { IfOk result (λ refused. PlaysTo (world_of machine.old) (world_of machine.new) (choice ∷ []) refused
        (W.written output.old) (W.written output.new)) }
    ensures write { result ≡ Err PlayFault.Write → IsTrue (W.has_failed output.new) }
    ensures memory { result ≡ Err PlayFault.Memory → W.written output.new ≡ W.written output.old }
{
    if usize::from(choice.thread) >= machine.thread_count() {
        push_refusal(machine, choice, None, line, output)?;
        return Ok(Some(Refused {
            choice,
            why: StepFault::NoSuchThread,
        }));
    }
    let pc = machine.pc(choice.thread);
    match machine.step(choice) {
        Ok(event) => {
            push_event(machine.choices(), choice, pc, &event, line, output)?;
            Ok(None)
        }
        Err(StepFault::Memory) => Err(PlayFault::Memory),
        Err(why) => {
            push_refusal(machine, choice, Some(pc), line, output)?;
            Ok(Some(Refused { choice, why }))
        }
    }
}

/// Plays one choice, and makes `line` its line, also if it is refused. Returns whether it was accepted. Fails if out of memory.
pub fn line_of_choice(
    machine: &mut Machine,
    choice: Choice,
    line: &mut LineEnd,
) -> Result<bool, AllocError>
    ensures { IfOk result (λ accepted. Plays (world_of machine.old) (world_of machine.new) (choice ∷ []) accepted
        (Some []) (Some line.new)) }
{
    let step = machine.choices() + 1;
    if usize::from(choice.thread) >= machine.thread_count() {
        put_refusal(line, step, choice, None);
        return Ok(false);
    }
    let pc = machine.pc(choice.thread);
    match machine.step(choice) {
        Ok(event) => {
            put_event(line, machine.choices(), choice, pc, &event);
            Ok(true)
        }
        Err(StepFault::Memory) => Err(AllocError),
        Err(_) => {
            put_refusal(line, step, choice, Some(pc));
            Ok(false)
        }
    }
}

/// Plays the choice of an existing thread, and makes its line without the number. `false`: it was refused; there is no line.
#[inline(always)]
pub fn own_line_of_choice(
    machine: &mut Machine,
    choice: Choice,
    line: &mut LineEnd,
) -> Result<bool, AllocError>
    requires there { choice.thread < length machine.old.scene.threads }
    ensures played { result ≡ Ok true → Plays (world_of machine.old) (world_of machine.new) (choice ∷ []) true
        (Some []) (Some (decimal (machine.old.choices + 1) ++ line.new)) }
    ensures few { result ≡ Ok true → length line.new ≤ 100 }
    ensures refused { result ≡ Ok false → machine.new ≡ machine.old }
{
    let pc = machine.pc(choice.thread);
    match machine.step(choice) {
        Ok(event) => {
            put_played(line, choice, pc, &event);
            Ok(true)
        }
        Err(StepFault::Memory) => Err(AllocError),
        Err(_) => Ok(false),
    }
}

/// Plays one choice as often as the run says, and writes the lines. `Some`: this choice was refused, and the rest isn't played.
fn play_run<W: Sink>(
    machine: &mut Machine,
    run: &Run,
    line: &mut ChoiceLine,
    output: &mut W,
) -> Result<Option<Refused>, PlayFault>
    ensures plays { IfOk result (λ refused.
        PlaysTo (world_of machine.old) (world_of machine.new) (replicate run.now.times run.now.choice) refused
        (W.written output.old) (W.written output.new)) }
    ensures write { result ≡ Err PlayFault.Write → IsTrue (W.has_failed output.new) }
    ensures memory { result ≡ Err PlayFault.Memory
        → AppendsPartOf (W.written output.old) (W.written output.new)
        (lines_of (world_of machine.old) (replicate run.now.times run.now.choice)) }
{
    let mut left = run.times;
    while left > 0 {
        match play_choice(machine, run.choice, line, output) {
            Ok(None) => left -= 1,
            Ok(Some(refused)) => return Ok(Some(refused)),
            Err(fault) => return Err(fault),
        }
    }
    Ok(None)
}

/// Plays runs and writes their lines. `Some`: this choice was refused, and the rest isn't played.
pub(crate) fn play_runs<W: Sink>(
    machine: &mut Machine,
    runs: &[Run],
    line: &mut ChoiceLine,
    output: &mut W,
) -> Result<Option<Refused>, PlayFault>
    ensures plays { IfOk result (λ refused.
        PlaysTo (world_of machine.old) (world_of machine.new) (choices_of runs.now) refused
        (W.written output.old) (W.written output.new)) }
    ensures write { result ≡ Err PlayFault.Write → IsTrue (W.has_failed output.new) }
    ensures memory { result ≡ Err PlayFault.Memory
        → AppendsPartOf (W.written output.old) (W.written output.new)
        (lines_of (world_of machine.old) (choices_of runs.now)) }
{
    for run in runs {
        match play_run(machine, run, line, output) {
            Ok(None) => {}
            Ok(Some(refused)) => return Ok(Some(refused)),
            Err(fault) => return Err(fault),
        }
    }
    Ok(None)
}
