//! How few runs a whole schedule has: what can be said of it without a list.
ghost use Rattle.std.specs.Prelude.{◌≡◌, ◌≢◌, ◌+◌, ◌<◌, ◌≤◌, ◌∷◌, ◌++◌, List, ℕ, IfOk, IfErr, OnOk, Ok, Err, true, Some, None, length};
ghost use Rattle.schedule_reader.specs.{declared.fault.ScheduleFault.TheVariants.Memory, Few.few_of, Few.with_ended};
ghost use Rattle.schedule_reader.specs.Places.{IsLeft, IsPlace, ended_with, schedule_from};
ghost use Rattle.schedule_reader.specs.Schedule.{finished_schedule};

use crate::fault::ScheduleFault;
use crate::place::{Place, is_blank};
use crate::run::Run;

/// How many runs a schedule has, and which if it has one.
#[derive(Clone, Copy, PartialEq, Eq)]
pub enum Few {
    /// None.
    Nothing,
    /// One.
    One(Run),
    /// Two or more: only a list could hold them.
    More,
}

impl Few {
    /// Returns how many runs there are with `ended`, the run of a token that has just ended, if one has.
    fn with(self, ended: Option<Run>) -> Few
        ensures { (runs : List Run) → self ≡ few_of runs → result ≡ few_of (with_ended runs ended) }
    {
        match (self, ended) {
            (few, None) => few,
            (Few::Nothing, Some(run)) => Few::One(run),
            (_, Some(_)) => Few::More,
        }
    }
}

/// Reads a whole schedule without a list, so that it needs no memory. Returns how few runs it has, or its first fault.
pub fn few_runs(schedule: &[u8]) -> Result<Few, ScheduleFault>
    requires { length schedule.now < 9223372036854775807 }
    ensures few { IfOk result (λ few. few ≡ few_of (finished_schedule schedule.now).runs) }
    ensures faultless { OnOk result ((finished_schedule schedule.now).fault ≡ None) }
    ensures fault { IfErr result (λ fault. (finished_schedule schedule.now).fault ≡ Some fault) }
{
    let mut place = Place::Between;
    let mut few = Few::Nothing;
    for at in 0..schedule.len() {
        let (next, ended) = after_byte(place, at as u64, schedule[at])?;
        place = next;
        few = few.with(ended);
    }
    match place.end(schedule.len() as u64) {
        Ok(ended) => Ok(few.with(ended)),
        Err(fault) => Err(fault),
    }
}

/// Returns the place after the byte at this offset, and the run whose token it ends. `None`: it ends no token.
fn after_byte(place: Place, at: u64, byte: u8) -> Result<(Place, Option<Run>), ScheduleFault>
    requires { IsPlace at place }
    ensures left { (rest : List ℕ) → IsLeft result (λ next. ended_with (Ok next.1) (schedule_from true next.0 (at + 1) rest))
        (schedule_from true place at (byte ∷ rest)) }
    ensures place { IfOk result (λ next. IsPlace (at + 1) next.0) }
    ensures memory { result ≢ Err Memory }
{
    if is_blank(byte) {
        return match place.end(at) {
            Ok(ended) => Ok((Place::Between, ended)),
            Err(fault) => Err(fault),
        };
    }
    match place.with_byte(at, byte) {
        Ok(next) => Ok((next, None)),
        Err(fault) => Err(fault),
    }
}
