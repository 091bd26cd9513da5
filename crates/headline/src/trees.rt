//! What is promised of trees of phasers whose words may lag behind their state: in a machine, by a step, and at all times.
ghost use Rattle.std.specs.Prelude.{◌≡◌, ◌↔◌, Err, IfOk, OnErr, OnOk, None, Some, true};
ghost use Rattle.tier_tree.specs.Stored.{IsNear};
ghost use Rattle.thread_machine.specs.{Step.puts_out, Step.refusal_of, World.world_of};
ghost use Rattle.thread_machine.specs.declared.fault.StepFault.TheVariants as fault;
ghost use Rattle.headline.specs.Headline.{StepGivesTheRow};

use thread_machine::{Choice, Event, Machine, StepFault};

/// Plays a choice on a machine. A phaser's stored word may still have an old phase number: the result is as if it hadn't. If
/// the choice is refused, the machine is as before.
pub fn step(machine: &mut Machine, choice: Choice) -> Result<Event, StepFault>
    ensures row { IfOk result (λ event. StepGivesTheRow machine.old choice event machine.new) }
    ensures accepted { OnOk result (refusal_of (world_of machine.old) choice ≡ None) }
    ensures no_thread { (result ≡ Err fault.NoSuchThread) ↔ (refusal_of (world_of machine.old) choice ≡ Some fault.NoSuchThread) }
    ensures limit { (result ≡ Err fault.StepLimit) ↔ (refusal_of (world_of machine.old) choice ≡ Some fault.StepLimit) }
    ensures memory { result ≡ Err fault.Memory → puts_out (world_of machine.old) choice ≡ true }
    ensures refused { OnErr result (machine.new ≡ machine.old) }
{
    machine.step(choice)
}

/// A law: a phaser's word is at most so many phases behind its root's as phases have ended in its tree (`is_forest` states it).
pub fn no_word_lags_far(machine: &Machine)
    ensures { IsNear machine.now.scene.phasers }
{
    machine.forest().is_forest();
}
