// What holds of every accepted program. Each law is the contract of a function that does nothing.
ghost use Rattle.std.specs.Prelude.{◌≡◌, ◌≤◌, ℕ, List, None};
ghost use Rattle.loader.specs.Program.{IsProgramOf, Program};
ghost use Rattle.row_code.specs.declared.image.Image.{Image};
ghost use Rattle.thread_machine.specs.{declared.choice.Choice.Choice, Execution.execution, Limit.under_limit, Limit.with_limit};
ghost use Rattle.thread_machine.specs.World.{IsFirstOf, World, first_world};
ghost use Rattle.headline.specs.Headline.{
  ArrivalsAreTaken,
  BarriersHavePasts,
  EndsFewPhases,
  EndsNoPhaseEarly,
  NumbersChangeAtEnds,
  PhasesEndInTime,
  StoredAlike,
  TerminationsAreSaid,
};

/// A law: no phase ends while a registered party has neither arrived nor left, unless an unregistered party arrived.
#[tactic(auto, using(crate::proofs::PhaseEnds::no_early_end))]
pub fn no_phase_ends_early()
    ensures { EndsNoPhaseEarly }
{}

/// A law: the choice with which the last registered party of a tree arrives or leaves ends the phase, or its thread
/// enters the tree's routine, whose `ret` ends the phase. This isn't about trees that are terminated, or in which an
/// unregistered party has arrived.
#[tactic(auto, using(crate::proofs::PhaseEnds::ends_in_time))]
pub fn phases_end_in_time()
    ensures { PhasesEndInTime }
{}

/// A law: an arrival doesn't throw while a party registered with its phaser is left to arrive, unless its thread runs
/// the tree's `onAdvance` or has no stack room for it. It leaves out terminated trees, and those with an unregistered arrival.
#[tactic(auto, using(crate::proofs::PhaseEnds::are_taken))]
pub fn arrivals_are_taken()
    ensures { ArrivalsAreTaken }
{}

/// A law: a phase ends only if `onAdvance` returns a result. A phaser is terminated only if this result is true, or by force.
#[tactic(auto, using(crate::proofs::PhaseEnds::terminations_said))]
pub fn terminations_are_said()
    ensures { TerminationsAreSaid }
{}

/// A law: at the end of a phase, each phaser of the tree gets the next phase number of its root. Else it keeps its own.
#[tactic(auto, using(crate::proofs::PhaseEnds::numbers_at_ends))]
pub fn numbers_change_at_ends()
    ensures { NumbersChangeAtEnds }
{}

/// A law: each barrier has a past, the calls that threads have made at it, to which their further calls are added. In
/// each state of a run, the barrier is what this past leads to.
#[tactic(auto, using(crate::proofs::Pasts::have_pasts))]
pub fn barriers_have_pasts()
    ensures { BarriersHavePasts }
{}

/// A law: the limit of steps allows no tree so many phases that an old number in a word is taken for the present one.
#[tactic(auto, using(crate::proofs::PhaseEnds::few_phases))]
pub fn phases_are_few()
    ensures { EndsFewPhases }
{}

/// A law: it makes no difference to the executions of a program how its phasers are stored at first.
#[tactic(auto, using(crate::proofs::Scenes::stored_alike))]
pub fn phasers_may_be_stored_otherwise()
    ensures { StoredAlike }
{}

/// A law: the machine of a loaded program begins in the first state of its image, however its phasers are stored at first.
#[tactic(auto, using(thread_machine::proofs::Firsts::is_first))]
pub fn programs_begin_as_their_images()
    ensures { (image : Image) (program : Program) (limit : ℕ) → IsProgramOf image program
        → IsFirstOf image limit (first_world program limit) }
{}

/// A law: a machine may have a lower limit of steps, as that of a live run. As long as no choice is refused, its
/// execution is that with the higher limit, but for the limit. So what the other laws say of accepted choices holds of it, too.
pub fn a_higher_limit_changes_nothing()
    ensures { (limit : ℕ) (world : World) (choices : List Choice) → world.limit ≤ limit
        → (execution world choices).refusal ≡ None
        → execution (with_limit limit world) choices ≡ under_limit limit (execution world choices) }
{
    thread_machine::a_higher_limit_changes_nothing_that_was_accepted();
}
