//! What is true of every execution. Each law is the contract of a function that does nothing.
ghost use Rattle.std.specs.Prelude.{◌≡◌, ◌≤◌, ℕ, List, [], ◌∷◌, ◌++◌, None};
ghost use Rattle.tier_tree.specs.{Origin.Origin, Origin.AreTallied, Stored.phasers_of};
ghost use Rattle.row_code.specs.{Image.IsImage, declared.image.Image.Image};
ghost use Rattle.loader.specs.{Declarations.declared_origin, Fault.first_fault, Program.IsProgramOf};
ghost use Rattle.thread_machine.specs.{declared.choice.Choice.Choice, World.World, World.first_of};
ghost use Rattle.thread_machine.specs.{Execution.execution, Execution.extended, Limit.under_limit, Limit.with_limit};
ghost use Rattle.thread_machine.specs.DirectCounts.{NoPhaseEndsEarly, NoPhaseEndsEarlyFrom};

use loader::Loaded;

/// A law: if choices are played, and then one more, the execution of all of them is that of the first ones, extended by
/// the last one. So a caller that plays choice by choice has, at each moment, the execution of all choices so far.
pub fn one_more_choice_extends_the_execution()
    ensures { (world : World) (choices : List Choice) (choice : Choice)
        → execution world (choices ++ choice ∷ []) ≡ extended (execution world choices) choice }
{}

/// A law: if all choices are accepted, a higher limit of steps changes nothing. The events are the same, and the machine
/// comes to the same state, but for its limit.
pub fn a_higher_limit_changes_nothing_that_was_accepted()
    ensures { (limit : ℕ) (world : World) (choices : List Choice) → world.limit ≤ limit
        → (execution world choices).refusal ≡ None
        → execution (with_limit limit world) choices ≡ under_limit limit (execution world choices) }
{}

/// A law: no phase of a loaded program ends early, whichever choices were made before. If an accepted choice ends a phase,
/// every party that registered directly with a phaser of the tree has arrived or left. The only exception is a tree in which a
/// party arrived earlier when no directly registered party was left to arrive. A termination by force ends no phase. The two
/// calls in the body only serve the proof.
pub fn no_phase_ends_early(program: &Loaded)
    ensures declared { (image : Image) → IsProgramOf image program.now
        → NoPhaseEndsEarly program.now (declared_origin image.phasers) }
    ensures any { (counts : Origin) → AreTallied (phasers_of program.now.phasers) counts
        → NoPhaseEndsEarly program.now counts }
{
    program.each_program_is_whole();
    program.phasers().is_forest();
}

/// A law: no phase of an image without a fault ends early, even if the image is never loaded.
pub fn no_phase_of_an_image_ends_early()
    ensures { (image : Image) (limit : ℕ) → IsImage image → first_fault image ≡ None → limit ≤ 1000000000
        → NoPhaseEndsEarlyFrom (first_of image limit) (declared_origin image.phasers) }
{}
