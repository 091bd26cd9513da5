//! The states that runs ended in, each with how often.
ghost use Rattle.std.specs.Prelude.{◌≡◌, ◌<◌, ◌++◌, ◌∷◌, [], List, IfOk, IfSome, OnOk, nat_lt};
ghost use Rattle.std.specs.{Ordering.is_lt, String.string_bytes};
ghost use Rattle.indexmap.specs.IndexMap.{get};
ghost use Rattle.commands.specs.Outcomes.{AreOutcomes, Ended, IsMostFrequentFirst, is_state};

use crate::end_state::EndState;
use indexmap::IndexMap;
use std::alloc::AllocError;
use std::cmp::Ordering;
use thread_runner::Ending;

/// What is reported about the runs that ended in one state.
#[derive(Drop)]
pub struct Outcome {
    /// How many runs ended in this state.
    pub times: u32,
    pub ending: Ending,
    /// The seed of the first of these runs, if its order has one.
    pub seed: Option<u64>,
    /// The schedule of the first of these runs.
    pub schedule: String,
}

/// The states that runs ended in, and what is reported about each.
pub type Outcomes = IndexMap<EndState, Outcome>;

/// Counts one more run that ended in this state. The seed and the schedule of the first such run are kept.
pub fn add(
    outcomes: &mut Outcomes,
    state: EndState,
    ending: Ending,
    seed: Option<u64>,
    schedule: String,
) -> Result<(), AllocError>
    requires { (other : EndState) → IfSome (get is_state outcomes.old other) (λ outcome. outcome.times < 4294967295) }
    ensures { (runs : List Ended) → AreOutcomes runs outcomes.old.entries → OnOk result
        (AreOutcomes (runs ++ (record { seed = seed; schedule = string_bytes schedule; ending = ending; state = state.text.items } ∷ []))
        outcomes.new.entries) }
{
    if let Some(outcome) = outcomes.get_mut(&state) {
        outcome.times += 1;
        return Ok(());
    }
    outcomes.insert(
        state,
        Outcome {
            times: 1,
            ending,
            seed,
            schedule,
        },
    )?;
    Ok(())
}

/// Sorts the states by how many runs ended in them, the most frequent first.
pub fn sort(outcomes: &mut Outcomes) -> Result<(), AllocError>
    ensures sorted { OnOk result (IsMostFrequentFirst outcomes.new.entries) }
    ensures same { OnOk result ((runs : List Ended) → AreOutcomes runs outcomes.old.entries
        → AreOutcomes runs outcomes.new.entries) }
{
    outcomes.sort_by(
        |_first: &EndState, a: &Outcome, _second: &EndState, b: &Outcome| -> Ordering
            ensures { is_lt result ≡ nat_lt b.now.times a.now.times }
        { b.times.cmp(&a.times) },
    )
}
