// The choices of a trace that comes as a stream.
ghost use Rattle.std.specs.Prelude.{◌≡◌, ◌≢◌, ◌⊎◌, ◌≤◌, ◌+◌, ◌∷◌, [], ℕ, Ok, Err, IsTrue, IfOk, OnErr, OnOk, false};
ghost use Rattle.std.specs.Io.KnownBytes.{Consumes, prepend_known};
ghost use Rattle.thread_machine.specs.declared.choice.Choice.{Choice};
ghost use Rattle.trace_text.specs.RunText.{GivesOnAndOn};
ghost use Rattle.trace_compare.specs.NamedLines.{HasEnded, HasGone, HasTaken, last_naming, next_by};
ghost use Rattle.trace_compare.specs.{Naming.HasNamed, Named.AreRuns, Named.named_by};

use crate::line_names::{LineNames, line_names};
use byte_ports::{Failed, LineEnded, Source, SourceLines};
use schedule_reader::{Run, push_joined};
use std::alloc::Global;
use thread_machine::Choice;

/// The most lines that are read: a trace has at most 1,000,000,000,000 choices. A longer one counts as one that can't be read.
pub const MOST_LINES: u64 = 1_000_000_000_001;

/// What the next line of a trace names.
#[derive(Clone, Copy, PartialEq, Eq)]
pub enum NextName {
    /// A choice, and a line follows, perhaps an empty one.
    Made(Choice),
    /// The state, which ends the choices.
    State,
    /// Nothing: it is no line of a trace.
    NotATrace,
    /// A choice, but the trace ends with this line, without a state. So the next, missing line is the first wrong one.
    CutOff(Choice),
}

/// What a trace names.
#[derive(Drop)]
pub enum Named {
    /// These choices, as runs that are joined if they can be.
    Choices(Vec<Run>),
    /// It is no trace: this line, counted from 1, is the first that is no line of a trace.
    NotATrace { line: u64 },
}

/// Why a trace's choices aren't known.
#[derive(Clone, Copy, PartialEq, Eq)]
pub enum NamingFault {
    /// Out of memory.
    Memory,
    /// The trace can't be read.
    Read,
}

/// Returns what a line names, by how the line ended. A choice in the last line is cut off, since no state follows.
fn next_by(named: LineNames, ended: LineEnded) -> NextName
    ensures { result ≡ next_by named ended }
{
    match named {
        LineNames::Nothing => NextName::NotATrace,
        LineNames::State => NextName::State,
        LineNames::Made(choice) => match ended {
            LineEnded::AtEnd => NextName::CutOff(choice),
            _ => NextName::Made(choice),
        },
    }
}

/// Reads the next line of a trace into `lines`, and returns what it names. Fails if the trace can't be read.
pub fn next_name<S: Source>(lines: &mut SourceLines, trace: &mut S) -> Result<NextName, Failed>
    ensures thread { (choice : Choice) → (result ≡ Ok (NextName.Made choice)) ⊎ (result ≡ Ok (NextName.CutOff choice))
        → choice.thread ≤ 63 }
    ensures made { (choice : Choice) → result ≡ Ok (NextName.Made choice) → (n : ℕ)
        → HasTaken n (choice ∷ []) (n + 1) lines.old lines.new (S.left trace.old) (S.left trace.new) }
    ensures last { (name : NextName) → result ≡ Ok name → ((choice : Choice) → name ≢ NextName.Made choice) → (n : ℕ)
        → HasEnded n (last_naming name n) lines.old lines.new (S.left trace.old) (S.left trace.new) }
    ensures failed { OnErr result (IsTrue (S.has_failed trace.new) ⊎ ((lines.new.reads ≡ 1000000000)
        × HasGone [] lines.old lines.new (S.left trace.old) (S.left trace.new))) }
    ensures kept { OnErr result (Consumes (prepend_known lines.old.held (S.left trace.old))
        (prepend_known lines.new.held (S.left trace.new)) []) }
    ensures sound { OnOk result (S.has_failed trace.old ≡ false → S.has_failed trace.new ≡ false) }
{
    let ended = lines.read_line(trace)?;
    Ok(next_by(line_names(lines.line()), ended))
}

/// Returns the choices that a trace's lines name, up to the line of its state, or the number of the first line that isn't a
/// line of a trace. It doesn't look at what follows the state's first line or the wrong line.
pub fn choices_in<S: Source>(alloc: Global, trace: &mut S) -> Result<Named, NamingFault>
    ensures named { IfOk result (λ named. HasNamed (S.left trace.old) (S.left trace.new) (named_by named)) }
    ensures runs { IfOk result (λ named. AreRuns named) }
    ensures read { result ≡ Err NamingFault.Read → IsTrue (S.has_failed trace.new)
        ⊎ GivesOnAndOn (S.left trace.old) (S.left trace.new) }
    ensures sound { result ≢ Err NamingFault.Read → S.has_failed trace.old ≡ false → S.has_failed trace.new ≡ false }
{
    let Ok(mut lines) = SourceLines::new(alloc) else {
        return Err(NamingFault::Memory);
    };
    let mut runs = Vec::new(alloc);
    for before in 0..MOST_LINES {
        match next_name(&mut lines, trace) {
            Ok(NextName::Made(choice)) => {
                if runs.reserve(1).is_err() {
                    return Err(NamingFault::Memory);
                }
                push_joined(&mut runs, choice);
            }
            Ok(NextName::State) => return Ok(Named::Choices(runs)),
            Ok(NextName::NotATrace) => return Ok(Named::NotATrace { line: before + 1 }),
            Ok(NextName::CutOff(_)) => return Ok(Named::NotATrace { line: before + 2 }),
            Err(_) => return Err(NamingFault::Read),
        }
    }
    Err(NamingFault::Read)
}
