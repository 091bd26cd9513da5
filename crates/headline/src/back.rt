//! Choices that are played and taken back.
ghost use Rattle.std.specs.Prelude.{◌≡◌, ◌↔◌, ◌≤◌, ◌∷◌, [], length, true, None, Some, Err, IfOk, OnErr};
ghost use Rattle.thread_machine.specs.{World.world_of, Execution.execution, Step.puts_out, Step.refusal_of};
ghost use Rattle.thread_machine.specs.Undo.{CanUndo, undone};
ghost use Rattle.thread_machine.specs.declared.fault.StepFault.TheVariants as fault;
ghost use Rattle.debugger.specs.Moves.{AreSteps, backs};
ghost use Rattle.headline.specs.{Headline.BackRestores, Headline.StepsAndReturns, Playing.LeavesSteps};

use debugger::Debugger;
use std::alloc::Global;
use thread_machine::{Choice, Event, Machine, StepFault, Undo};

/// Plays a choice on a machine. Returns its event, and what undoes it (`take_back`). If the choice is refused, nothing changes.
pub fn step(machine: &mut Machine, choice: Choice) -> Result<(Event, Undo), StepFault>
    ensures returns { IfOk result (λ both. StepsAndReturns machine.old choice both.0 both.1 machine.new) }
    ensures can { IfOk result (λ both. CanUndo both.1 machine.new) }
    ensures refused { OnErr result (machine.new ≡ machine.old) }
    ensures no_thread { (result ≡ Err fault.NoSuchThread) ↔ (refusal_of (world_of machine.old) choice ≡ Some fault.NoSuchThread) }
    ensures limit { (result ≡ Err fault.StepLimit) ↔ (refusal_of (world_of machine.old) choice ≡ Some fault.StepLimit) }
    ensures memory { result ≡ Err fault.Memory → puts_out (world_of machine.old) choice ≡ true }
{
    machine.step_noting(choice)
}

/// Plays a choice on a machine, and takes it back, so that the machine is as before. Returns the event, or why it was refused.
pub fn step_and_back(machine: &mut Machine, choice: Choice) -> Result<Event, StepFault>
    ensures restores { IfOk result (λ event. BackRestores machine.old (choice ∷ []) (event ∷ []) machine.new) }
    ensures refused { OnErr result (machine.new ≡ machine.old) }
    ensures no_thread { (result ≡ Err fault.NoSuchThread) ↔ (refusal_of (world_of machine.old) choice ≡ Some fault.NoSuchThread) }
    ensures limit { (result ≡ Err fault.StepLimit) ↔ (refusal_of (world_of machine.old) choice ≡ Some fault.StepLimit) }
    ensures memory { result ≡ Err fault.Memory → puts_out (world_of machine.old) choice ≡ true }
{
    let (event, undo) = step(machine, choice)?;
    take_back(machine, undo);
    Ok(event)
}

/// Takes the last choice back, with the `undo` that `step` returned for it. Several can be taken back, in reverse order.
pub fn take_back(machine: &mut Machine, undo: Undo)
    requires { CanUndo undo machine.old }
    ensures { machine.new ≡ undone undo machine.old }
{
    machine.back(undo);
}

/// Plays these choices in order and returns their events. If one is refused, those before it stay played (`Err` says why).
fn steps(
    alloc: Global,
    debugger: &mut Debugger,
    choices: &[Choice],
) -> Result<Vec<Event>, StepFault>
    ensures steps { IfOk result (λ events. AreSteps debugger.old choices.now debugger.new) }
    ensures accepted { IfOk result (λ events. (execution (world_of debugger.old.machine) choices.now).refusal ≡ None) }
    ensures events { IfOk result (λ events. (execution (world_of debugger.old.machine) choices.now).events ≡ events.items) }
    ensures err { OnErr result (LeavesSteps debugger.old choices.now debugger.new) }
    ensures no_thread { result ≡ Err fault.NoSuchThread
        → (execution (world_of debugger.old.machine) choices.now).refusal ≡ Some fault.NoSuchThread }
    ensures limit { result ≡ Err fault.StepLimit
        → (execution (world_of debugger.old.machine) choices.now).refusal ≡ Some fault.StepLimit }
{
    let mut events = Vec::new(alloc);
    for choice in choices {
        let event = debugger.step(*choice)?;
        match events.push(event) {
            Ok(()) => {}
            Err(_) => return Err(StepFault::Memory),
        }
    }
    Ok(events)
}

/// Takes back the last `count` choices, or as many as the session still keeps: then `back` fails and does nothing (`let _`).
fn backs(debugger: &mut Debugger, count: usize)
    ensures { debugger.new ≡ backs count debugger.old }
{
    for _ in 0..count {
        let _ = debugger.back();
    }
}

/// Plays these choices, takes all back, and returns their events. If one can't be played, those before it stay played. The
/// session can take back as many: its `kept`, the most that it can, isn't less.
pub fn steps_and_backs(
    alloc: Global,
    debugger: &mut Debugger,
    choices: &[Choice],
) -> Result<Vec<Event>, StepFault>
    requires { length choices.now ≤ debugger.old.kept }
    ensures restores { IfOk result (λ events.
        BackRestores debugger.old.machine choices.now events.items debugger.new.machine) }
    ensures err { OnErr result (LeavesSteps debugger.old choices.now debugger.new) }
    ensures no_thread { result ≡ Err fault.NoSuchThread
        → (execution (world_of debugger.old.machine) choices.now).refusal ≡ Some fault.NoSuchThread }
    ensures limit { result ≡ Err fault.StepLimit
        → (execution (world_of debugger.old.machine) choices.now).refusal ≡ Some fault.StepLimit }
{
    let events = steps(alloc, debugger, choices)?;
    backs(debugger, choices.len());
    Ok(events)
}
