//! A session goes to any choice of what was played.
ghost use Rattle.std.specs.Prelude.{◌≡◌, ◌-◌, IfErr, OnErr, OnOk, length};
ghost use Rattle.schedule_reader.specs.Schedule.{choices_of};
ghost use Rattle.vuthgal_c.specs.Sessions.{GoesTo, HasGone, HasNotGone, not_there_status};

use crate::handle::Handle;
use crate::held::Held;
use crate::keeping::{put, take};
use crate::sessions::CLOSED;
use crate::stepping::refused_status;
use schedule_reader::{Run, ScheduleFault, read_schedule};
use std::alloc::Global;
use thread_machine::StepFault;

/// How many bytes the schedule of what was played may have.
const MOST_BYTES: usize = 1_000_000_000;

/// Why a session went nowhere.
#[derive(Clone, Copy)]
enum NotThere {
    /// The schedule is too long.
    TooLong,
    /// The schedule can't be read.
    NoSchedule,
    /// The schedule has fewer choices.
    Fewer,
    /// A choice is refused, or it is out of memory.
    Refused(StepFault),
}

impl NotThere {
    /// Returns the number that `vuthgal_session_go_to` returns for this reason.
    fn status(self) -> u8
        ensures { result ≡ not_there_status self }
    {
        match self {
            NotThere::TooLong => 5,
            NotThere::NoSchedule => 3,
            NotThere::Fewer => 1,
            NotThere::Refused(fault) => refused_status(fault),
        }
    }
}

/// Returns how many choices fewer than `number` these runs have: 0 if they have as many or more.
fn lacking(runs: &[Run], number: u64) -> u64
    ensures { result ≡ number - length (choices_of runs.now) }
{
    let mut left = number;
    for run in runs {
        left = left.saturating_sub(u64::from(run.times));
    }
    left
}

/// Brings a session to the state after the first `number` choices of a schedule. If that fails, nothing changes.
fn go_to(alloc: Global, held: &mut Held, played: &[u8], number: u64) -> Result<(), NotThere>
    ensures there { OnOk result (HasGone held.old played.now number held.new) }
    ensures none { IfErr result (λ why. HasNotGone why held.old played.now number) }
    ensures same { OnErr result (held.new ≡ held.old) }
{
    if played.len() > MOST_BYTES {
        return Err(NotThere::TooLong);
    }
    let runs = match read_schedule(alloc, played) {
        Ok(runs) => runs,
        Err(ScheduleFault::Memory) => return Err(NotThere::Refused(StepFault::Memory)),
        Err(_) => return Err(NotThere::NoSchedule),
    };
    if lacking(runs.as_slice(), number) > 0 {
        return Err(NotThere::Fewer);
    }
    match held.go_to(alloc, runs.as_slice(), number) {
        Ok(()) => Ok(()),
        Err(fault) => Err(NotThere::Refused(fault)),
    }
}

/// Goes to the state after the first `number` choices of `played`, the schedule of what was played from the beginning on.
/// Returns 0; 6 if no session is open; 1 if `played` has fewer choices; 3 if it is no schedule; 5 if it is too long; 7 or 8 if
/// one of these choices is refused; or 4 without memory. With any status but 0, nothing changes.
#[unsafe(no_mangle)]
pub extern "C" fn vuthgal_session_go_to(
    alloc: Global,
    session: &mut Handle,
    played: &[u8],
    number: u64,
) -> u8
    ensures { GoesTo session.old.session played.now number session.new.session result }
{
    let Some(mut held) = take(alloc, session) else {
        return CLOSED;
    };
    let gone = go_to(alloc, &mut held, played, number);
    put(alloc, session, held);
    match gone {
        Ok(()) => 0,
        Err(why) => why.status(),
    }
}
