//! The record that a run leaves when it is out of memory.
ghost use Rattle.std.specs.Prelude.{◌≡◌, ◌≤◌, IfErr, IfOk};
ghost use Rattle.schedule_reader.specs.Schedule.{choices_of, finished_schedule};
ghost use Rattle.thread_machine.specs.World.{World, first_world};
ghost use Rattle.thread_runner.specs.Replay.{IsRecordOf};

use crate::journaled::Journaled;
use loader::Loaded;
use std::alloc::Global;
use std::marker::Model;

/// The choices that a run had played when it was out of memory, as a schedule. Only a run's own record becomes such a value,
/// and always the whole record. It is empty if there was no memory for a machine.
#[derive(Drop)]
pub struct LeftRecord {
    schedule: Vec<u8>,
}

impl Model for LeftRecord {
    ghost use Rattle.std.specs.Prelude.{ℕ, List};

    ghost Value = { List ℕ };

    ghost view = { λ left. left.schedule.items };
}

impl LeftRecord {
    /// Takes the whole schedule of a run that is out of memory. The machine is dropped.
    pub(crate) fn of(journaled: Journaled) -> LeftRecord
        ensures left { (world : World) × IsRecordOf journaled.first result world }
        ensures whole { choices_of (finished_schedule result).runs ≡ journaled.choices }
    {
        let (schedule, _) = journaled.into_parts();
        LeftRecord { schedule }
    }

    /// Returns the schedule: a token for each choice, with one space between them.
    pub fn into_schedule(self) -> Vec<u8>
        ensures { result.items ≡ self }
    {
        self.schedule
    }
}

/// Makes the record of a machine before its first choice. If there is no memory for the machine, an empty record is left.
pub(crate) fn first_record(
    alloc: Global,
    program: Loaded,
    limit: u32,
) -> Result<Journaled, LeftRecord>
    requires { limit ≤ 1000000000 }
    ensures first { IfOk result (λ journaled. journaled.first ≡ first_world program limit) }
    ensures left { IfErr result (λ left. (world : World) × IsRecordOf (first_world program limit) left world) }
{
    match Journaled::new(alloc, program, limit) {
        Ok(journaled) => Ok(journaled),
        Err(_) => Err(LeftRecord {
            schedule: Vec::new(alloc),
        }),
    }
}
