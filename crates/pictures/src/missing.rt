ghost use Rattle.std.specs.Prelude.{◌≡◌};
ghost use Rattle.pictures.specs.Missing.{missing_at, missing_of};
ghost use Rattle.thread_machine.specs.World.{world_of};

use thread_machine::{Choice, Machine, StepFault};
use trace_text::RunEnd;

/// The bytes of a page or a picture, and whether a thread that doesn't exist ended its run.
#[derive(Drop)]
pub struct Shown {
    pub bytes: Vec<u8>,
    /// The choice of a thread that doesn't exist, and its number from 1, if this choice ended the run.
    pub missing: Option<(u64, Choice)>,
}

/// Returns the choice whose thread doesn't exist, and its number from 1, if it ended the run. None if none did. `machine` is
/// the one after the run.
pub fn missing(machine: &Machine, choices: &[Choice]) -> Option<(u64, Choice)>
    ensures { result ≡ missing_at (world_of machine.now) choices.now }
{
    let made = machine.choices();
    let choice = *choices.get(made as usize)?;
    if usize::from(choice.thread) < machine.thread_count() {
        return None;
    }
    Some((made.saturating_add(1), choice))
}

/// Returns the choice whose thread doesn't exist, and its number from 1, if a run's end names one. None if it names none.
pub(crate) fn missing_of(end: &RunEnd) -> Option<(u64, Choice)>
    ensures { result ≡ missing_of end.now.refused }
{
    match &end.refused {
        Some(refusal) if refusal.why == StepFault::NoSuchThread => {
            Some((refusal.number, refusal.choice))
        }
        _ => None,
    }
}
