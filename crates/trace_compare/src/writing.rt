// The schedule of a trace, written as the trace is read.
ghost use Rattle.std.specs.Prelude.{◌≡◌, ◌⊎◌, ◌≤◌, ◌+◌, ◌++◌, ◌∷◌, [], ℕ, List, Option, Some, None, Err, length, IfErr, IfOk, IsErr, MatchOption, Ok, OnOk, OnErr, IsTrue, is_none};
ghost use Rattle.std.specs.Io.KnownBytes.{Appends};
ghost use Rattle.schedule_reader.specs.Text.{letter_of, times_text, token_of};
ghost use Rattle.thread_machine.specs.declared.choice.Choice.{Choice};
ghost use Rattle.trace_text.specs.RunText.{GivesOnAndOn};
ghost use Rattle.trace_compare.specs.{Naming.HasRead, Writing.HasWritten, Writing.HasWrittenPart, Writing.HasWrittenUpTo};

use crate::naming::{MOST_LINES, NextName, next_name};
use byte_ports::{Failed, Sink, Source, SourceLines};
use schedule_reader::Run;
use std::alloc::Global;
use thread_machine::Choice;
use trace_text::LineEnd;

/// Why a schedule isn't written, or not to its end.
#[derive(Clone, Copy, PartialEq, Eq)]
pub enum WritingFault {
    /// Out of memory.
    Memory,
    /// The trace can't be read.
    Read,
    /// The schedule can't be written.
    Write,
}

/// Puts `*` and the count before the line, unless the count is 1.
#[inline(always)]
fn put_times(line: &mut LineEnd, times: u32)
    requires { length line.old ≤ 1 }
    ensures text { line.new ≡ times_text times ++ line.old }
    ensures length { length line.new ≤ 22 }
{
    if times == 1 {
        return;
    }
    line.put_count(u64::from(times));
    line.put_word(b"*");
}

/// Puts a choice's letter, `t` for a turn or `x` for an expiry, before the bytes of `line`, which is filled from its end.
fn put_letter(line: &mut LineEnd, expiry: bool)
    requires { length line.old ≤ 42 }
    ensures { line.new ≡ letter_of expiry ∷ line.old }
{
    if expiry {
        line.put_word(b"x");
    } else {
        line.put_word(b"t");
    }
}

/// Writes a run's token, as `t2*3`, and after it the byte `behind`. `line` is only the buffer: its old content doesn't matter.
pub fn push_token<K: Sink>(
    output: &mut K,
    line: &mut LineEnd,
    run: Run,
    behind: u8,
) -> Result<(), Failed>
    ensures token { OnOk result (Appends (K.written output.old) (K.written output.new) (token_of run ++ behind ∷ [])) }
    ensures failed { OnErr result (IsTrue (K.has_failed output.new)) }
{
    // from the end of the token to its beginning
    line.clear();
    line.put_word(&[behind]);
    put_times(line, run.times);
    line.put_count(u64::from(run.choice.thread));
    put_letter(line, run.choice.expiry);
    output.push(line.as_slice())
}

/// Returns the run `last` with `choice` added. If `last` has another choice or is full, writes `last` and returns a new run.
fn take<K: Sink>(
    last: Option<Run>,
    choice: Choice,
    output: &mut K,
    line: &mut LineEnd,
) -> Result<Run, Failed>
    requires thread { choice.thread ≤ 63 }
    requires few { MatchOption last Unit (λ run. run.times ≤ 1000000000) }
    ensures taken { (start : Option (List ℕ)) → (choices : List Choice) → HasWritten start last (K.written output.old) choices
        → IfOk result (λ run. HasWritten start (Some run) (K.written output.new) (choices ++ choice ∷ [])) }
    ensures few { IfOk result (λ run. run.times ≤ 1000000000) }
    ensures failed { OnErr result (IsTrue (K.has_failed output.new)) }
{
    let Some(run) = last else {
        return Ok(Run::once(choice));
    };
    if let Some(more) = run.with(choice) {
        return Ok(more);
    }
    push_token(output, line, run, b' ')?;
    Ok(Run::once(choice))
}

/// Writes the last run and an LF. Without a run it writes only the LF, or nothing if the input is no trace.
fn end<K: Sink>(
    last: Option<Run>,
    is_trace: bool,
    output: &mut K,
    line: &mut LineEnd,
) -> Result<(), Failed>
    ensures ended { (start : Option (List ℕ)) → (choices : List Choice) → HasWritten start last (K.written output.old) choices
        → OnOk result (HasWrittenUpTo is_trace choices start (K.written output.new)) }
    ensures failed { OnErr result (IsTrue (K.has_failed output.new)) }
{
    match last {
        Some(run) => push_token(output, line, run, b'\n'),
        None if is_trace => output.push(b"\n"),
        None => Ok(()),
    }
}

/// Writes the schedule of a trace as one line: the choices that its lines name, up to the line of its state, with repeated
/// choices joined. If a line isn't a line of a trace, it writes the choices before that line, and returns its number, from 1.
pub fn write_choices<S: Source, K: Sink>(
    alloc: Global,
    trace: &mut S,
    output: &mut K,
) -> Result<Option<u64>, WritingFault>
    ensures written { IfOk result (λ no_line. (choices : List Choice)
        × (HasRead (S.left trace.old) (S.left trace.new) (record { choices = choices; no_line = no_line })
        × HasWrittenUpTo (is_none no_line) choices (K.written output.old) (K.written output.new))) }

    // Memory is wanted before anything is read.
    ensures memory { result ≡ Err WritingFault.Memory
        → (S.left trace.new ≡ S.left trace.old) × (K.written output.new ≡ K.written output.old) }
    ensures part { result ≡ Err WritingFault.Read
        → HasWrittenPart (S.left trace.old) (S.left trace.new) (K.written output.old) (K.written output.new) }
    ensures read { result ≡ Err WritingFault.Read → IsTrue (S.has_failed trace.new)
        ⊎ GivesOnAndOn (S.left trace.old) (S.left trace.new) }
    ensures write { result ≡ Err WritingFault.Write → IsTrue (K.has_failed output.new) }
{
    let Ok(mut lines) = SourceLines::new(alloc) else {
        return Err(WritingFault::Memory);
    };
    let mut line = LineEnd::new();
    let mut last = None;
    for before in 0..MOST_LINES {
        match next_name(&mut lines, trace) {
            Ok(NextName::Made(choice)) => match take(last, choice, output, &mut line) {
                Ok(run) => last = Some(run),
                Err(_) => return Err(WritingFault::Write),
            },
            Ok(NextName::State) => return result_of(end(last, true, output, &mut line), None),
            Ok(NextName::NotATrace) => {
                return result_of(end(last, false, output, &mut line), Some(before + 1));
            }
            Ok(NextName::CutOff(choice)) => {
                let Ok(run) = take(last, choice, output, &mut line) else {
                    return Err(WritingFault::Write);
                };
                return result_of(end(Some(run), false, output, &mut line), Some(before + 2));
            }
            Err(_) => return Err(WritingFault::Read),
        }
    }
    Err(WritingFault::Read)
}

/// Returns `no_line`, the number of the first wrong line, if any; or the fault `Write` if the end wasn't written.
fn result_of(written: Result<(), Failed>, no_line: Option<u64>) -> Result<Option<u64>, WritingFault>
    ensures ok { OnOk result (written ≡ Ok tt) }
    ensures value { IfOk result (λ answer. answer ≡ no_line) }
    ensures err { IfErr result (λ fault. (fault ≡ WritingFault.Write) × IsErr written) }
{
    match written {
        Ok(()) => Ok(no_line),
        Err(_) => Err(WritingFault::Write),
    }
}
