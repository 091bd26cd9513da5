//! The limits of a machine.
ghost use Rattle.std.specs.Prelude.{◌≤◌};

use crate::programs::{MEETING, program_of, refused};
use std::alloc::Global;
use std::test::Fail;
use thread_machine::{Choice, Machine, StepFault};

const TURN: Choice = Choice {
    thread: 0,
    expiry: false,
};

const EXPIRY: Choice = Choice {
    thread: 0,
    expiry: true,
};

/// Asks for `most` turns of a waiting thread 0, which are idle. Returns whether exactly `taken` of them were played.
fn idles(machine: &mut Machine, most: u64, taken: u64) -> bool {
    machine.thread_count() == 2 && machine.idle(TURN, most) == taken
}

/// Returns whether a machine whose thread 0 begins to wait plays 10^12 choices, nearly all idle, and then refuses every choice.
fn ends_at_the_most(machine: &mut Machine) -> bool {
    machine.step(TURN).is_ok()
        && idles(machine, 999_999_999_998, 999_999_999_998)
        && idles(machine, u64::MAX, 1)
        && idles(machine, u64::MAX, 0)
        && machine.choices() == 1_000_000_000_000
        && machine.steps() == 1
        && machine.step(TURN) == Err(StepFault::StepLimit)
        && machine.step(EXPIRY) == Err(StepFault::StepLimit)
}

/// Returns the machine of a program's text, with this limit of steps.
fn machine_of(alloc: Global, text: &str, limit: u32) -> Result<Machine, Fail>
    requires { limit ≤ 1000000000 }
{
    Ok(Machine::new(alloc, program_of(alloc, text)?, limit)?)
}

/// Checks that no machine plays more than 1,000,000,000,000 choices. Nearly all are idle, and don't count as steps (limit 9).
#[test]
fn idle_choices_end_at_the_most(rt: HostRuntime) -> Result<(), Fail> {
    let mut machine = machine_of(rt.alloc(), MEETING, 9)?;
    assert!(rt; ends_at_the_most(&mut machine));
    Ok(())
}

/// Checks that a turn is refused, and not counted, at the limit of steps.
#[test]
fn steps_end_at_the_limit(rt: HostRuntime) -> Result<(), Fail> {
    let mut machine = machine_of(rt.alloc(), ".thread a m\nm: jmp m\n", 3)?;
    for _ in 0..3 {
        machine.step(TURN).map_err(|_| refused())?;
    }
    assert!(rt; machine.step(TURN) == Err(StepFault::StepLimit));
    assert!(rt; machine.steps() == 3);
    Ok(())
}
