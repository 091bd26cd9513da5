ghost use Rattle.std.specs.Prelude.{◌≤◌, IfOk};
ghost use Rattle.plans.specs.Planned.{AreRuns, IsPlanAt, IsPlanOf};
ghost use Rattle.thread_machine.specs.World.{world_of};

use crate::planned::Planned;
use crate::player::{MOST_CHOICES, Player};
use crate::words::WordsFrom;
use loader::Loaded;
use std::alloc::{AllocError, Global};
use thread_machine::Machine;

/// Plays a plan from the beginning of a program, and makes at most `most` choices. Returns its choices, the machine after them,
/// and whether the plan wanted more of them.
pub fn plan_runs(
    alloc: Global,
    program: Loaded,
    words: &WordsFrom<'_>,
    most: u32,
) -> Result<Planned, AllocError>
    requires { most ≤ 1000000 }
    ensures planned { IfOk result (λ planned. IsPlanOf program most words.now planned) }
    ensures runs { IfOk result (λ planned. AreRuns planned.runs.items) }
{
    let mut player = Player::new(alloc, program, most)?;
    // The result would be the count of a `)` that no `(` opened. The words of a plan that was read have none.
    player.play_words(alloc, &mut words.again())?;
    Ok(player.into_planned())
}

/// Plays a plan from a machine's present state, as `plan_runs` does from a program's beginning, with at most 1,000,000 choices.
pub fn plan_runs_at(
    alloc: Global,
    machine: Machine,
    words: &WordsFrom<'_>,
) -> Result<Planned, AllocError>
    ensures planned { IfOk result (λ planned. IsPlanAt (world_of machine) words.now planned) }
    ensures runs { IfOk result (λ planned. AreRuns planned.runs.items) }
{
    let mut player = Player::with_room(alloc, machine, MOST_CHOICES);
    player.play_words(alloc, &mut words.again())?;
    Ok(player.into_planned())
}
