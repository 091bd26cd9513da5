ghost use Rattle.std.specs.Prelude.{◌≡◌, ◌⊎◌, ◌↔◌, ◌<◌, All, IfOk, IfErr, Err, true, Some, None, length};
ghost use Rattle.schedule_reader.specs.Schedule.{IsRun, finished_schedule};

use crate::fault::ScheduleFault;
use crate::reader::Reader;
use crate::run::Run;
use std::alloc::Global;

/// Returns the runs of a whole schedule, or its first fault. If `feed` finds a fault,
/// `finish` returns it again. Only `Memory` is returned at once.
pub fn read_schedule(alloc: Global, schedule: &[u8]) -> Result<Vec<Run>, ScheduleFault>
    requires { length schedule.now < 9223372036854775807 }
    ensures runs { IfOk result (λ runs.
        finished_schedule schedule.now ≡ record { runs = runs.items; fault = None }) }
    ensures spelled { IfOk result (λ runs. All IsRun runs.items) }
    ensures fault { IfErr result (λ fault. (fault ≡ ScheduleFault.Memory)
        ⊎ ((finished_schedule schedule.now).fault ≡ Some fault)) }
{
    let mut reader = Reader::new();
    let mut runs = Vec::new(alloc);
    let fed = reader.feed(schedule, &mut runs);
    if is_refused(fed) {
        return Err(ScheduleFault::Memory);
    }
    match reader.finish(&mut runs) {
        Ok(()) => Ok(runs),
        Err(fault) => Err(fault),
    }
}

/// Returns whether `told`, the result of a reader's `feed`, is that memory was refused.
fn is_refused(told: Result<(), ScheduleFault>) -> bool
    ensures { (result ≡ true) ↔ (told ≡ Err ScheduleFault.Memory) }
{
    matches!(told, Err(ScheduleFault::Memory))
}
