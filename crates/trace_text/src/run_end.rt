// How a run has ended, and the choice that ended it if one was refused.
ghost use Rattle.std.specs.Prelude.{◌≡◌, ◌+◌, IfOk, IsTrue, OnOk, Option, option_map};
ghost use Rattle.std.specs.Io.KnownBytes.{Appends};
ghost use Rattle.thread_machine.specs.{World.world_of, Standing.standing_of};
ghost use Rattle.trace_text.specs.{Lines.refusal_text, Playing.row_of, Playing.refusal_reported, State.state_text};

use crate::line::put_refusal;
use crate::line_end::LineEnd;
use crate::play::{PlayFault, Refused};
use crate::state::state_text;
use byte_ports::Sink;
use std::alloc::Global;
use thread_machine::{Choice, Machine, Standing, StepFault};

/// The refused choice that ended a run.
#[derive(Drop)]
pub struct Refusal {
    /// Its number, from 1.
    pub number: u64,
    /// Its line, with its LF: the last before the state.
    pub line: LineEnd,
    pub choice: Choice,
    /// `NoSuchThread` or `StepLimit`: the line's word is `none` or `limit`.
    pub why: StepFault,
}

/// How a run has ended: what its trace says last.
#[derive(Drop)]
pub struct RunEnd {
    pub standing: Standing,
    /// The text of the state, the end of the trace.
    pub state: Vec<u8>,
    /// The choice that was refused, if one was.
    pub refused: Option<Refusal>,
}

/// Returns the row that a choice's thread is at. `None`: there is no such thread.
fn row_of(machine: &Machine, choice: Choice) -> Option<u16>
    ensures { result ≡ row_of (world_of machine.now) choice }
{
    if usize::from(choice.thread) < machine.thread_count() {
        Some(machine.pc(choice.thread))
    } else {
        None
    }
}

/// Returns what is reported of a choice that this machine has refused: its number, its line and the cause.
fn refusal_reported(machine: &Machine, refused: Refused) -> Refusal
    ensures { result ≡ refusal_reported (world_of machine.now) refused }
{
    let mut line = LineEnd::new();
    let number = machine.choices() + 1;
    put_refusal(
        &mut line,
        number,
        refused.choice,
        row_of(machine, refused.choice),
    );
    Refusal {
        number,
        line,
        choice: refused.choice,
        why: refused.why,
    }
}

/// Writes the text of a machine's state, and returns how its run ended: `refused` is the choice that was refused, if one was.
pub fn push_end<W: Sink>(
    alloc: Global,
    machine: &Machine,
    refused: Option<Refused>,
    output: &mut W,
) -> Result<RunEnd, PlayFault>
    ensures tells { IfOk result (λ end. (end.standing ≡ standing_of (world_of machine.now))
        × (end.state.items ≡ state_text (world_of machine.now))
        × (end.refused ≡ option_map (refusal_reported (world_of machine.now)) refused)) }
    ensures state { OnOk result (Appends (W.written output.old) (W.written output.new)
        (state_text (world_of machine.now))) }
    ensures memory { result ≡ Err PlayFault.Memory → W.written output.new ≡ W.written output.old }
    ensures write { result ≡ Err PlayFault.Write → IsTrue (W.has_failed output.new) }
{
    let state = match state_text(alloc, machine) {
        Ok(state) => state,
        Err(_) => return Err(PlayFault::Memory),
    };
    match output.push(state.as_slice()) {
        Ok(()) => Ok(RunEnd {
            standing: machine.standing(),
            state,
            refused: match refused {
                Some(refused) => Some(refusal_reported(machine, refused)),
                None => None,
            },
        }),
        Err(_) => Err(PlayFault::Write),
    }
}
