//! The machine of an accepted program after its choices.
ghost use Rattle.std.specs.Prelude.{◌≡◌, ◌≢◌, None, Some, Err, IfOk, OnOk};
ghost use Rattle.loader.specs.Fault.{first_fault};
ghost use Rattle.thread_machine.specs.{World.world_of, Execution.execution};
ghost use Rattle.headline.specs.{Headline.GivesTheRows, Playing.Leaves};

use loader::LoadFault;
use row_code::Image;
use std::alloc::Global;
use thread_machine::{Choice, Machine, StepFault};
use trace_text::start::{StartFault, first_machine};

/// Plays one choice. Returns whether it was accepted. A refused choice is `Ok(false)`: only a lack of memory is `Err`.
#[tactic(auto, using(crate::proofs::Scenes::led_on, crate::proofs::Scenes::led_nowhere))]
fn play_one(machine: &mut Machine, choice: Choice) -> Result<bool, StartFault>
    ensures led { IfOk result (λ accepted. Leaves (world_of machine.old) choice accepted (world_of machine.new)) }
    ensures memory { (fault : LoadFault) → result ≢ Err (StartFault.Load fault) }
{
    match machine.step(choice) {
        Ok(_) => Ok(true),
        Err(StepFault::NoSuchThread | StepFault::StepLimit) => Ok(false),
        Err(StepFault::Memory) => Err(StartFault::Memory),
    }
}

/// Plays these choices in order, up to the first that is refused, which is `Ok`, too: only a lack of memory is `Err`.
fn play_all(machine: &mut Machine, choices: &[Choice]) -> Result<(), StartFault>
    ensures left { OnOk result (world_of machine.new ≡ (execution (world_of machine.old) choices.now).world) }
    ensures memory { (fault : LoadFault) → result ≢ Err (StartFault.Load fault) }
{
    for choice in choices {
        if !play_one(machine, *choice)? {
            return Ok(());
        }
    }
    Ok(())
}

/// Loads a program, plays these choices up to the first that is refused, and returns the machine.
#[tactic(auto, using(crate::proofs::Scenes::world_left))]
pub fn play(alloc: Global, image: Image, choices: &[Choice]) -> Result<Machine, StartFault>
    ensures accepted { OnOk result (first_fault image ≡ None) }
    ensures played { IfOk result (λ machine. GivesTheRows image choices.now (world_of machine)) }
    ensures load { (fault : LoadFault) → result ≡ Err (StartFault.Load fault) → first_fault image ≡ Some fault }
{
    let mut machine = first_machine(alloc, image)?;
    play_all(&mut machine, choices)?;
    Ok(machine)
}
