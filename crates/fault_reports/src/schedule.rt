//! Why a schedule is refused, and which choice of it was.

use crate::place::Place;
use crate::report::{Report, Reported};
use assembler::word_place::WordPlace;
use command_line::ports::watched::Watched;
use commands::unplanned::Unplanned;
use line_reader::words::{is_blank, length_before};
use schedule_reader::ScheduleFault;
use suggestions::hint::help_if_any;
use suggestions::schedule_fault::{Origin, helps_in_schedule};
use workbench::fault::Fault;

/// Reports why a schedule is refused: shows its wrong byte, and advice. `origin` says where the schedule is from.
pub fn fail<S>(
    report: &Report<'_>,
    name: &str,
    origin: Origin,
    watched: &Watched<S>,
    fault: ScheduleFault,
) -> Reported {
    let place = match fault {
        ScheduleFault::Byte(at) | ScheduleFault::Number(at) | ScheduleFault::Repeat(at) => {
            Place::of_byte(watched, at)
        }
        ScheduleFault::Memory => None,
    };
    let line = place.map_or(b"".as_slice(), |place| place.line.bytes);
    let at = place.and_then(|place| place.part).map_or(0, |part| part.at);
    let helps = helps_in_schedule(watched.whole().unwrap_or(&[]), line, at, origin);
    report.fail(
        Unplanned::Fault(Fault::Schedule(fault)),
        name,
        place,
        help_if_any(report.alloc(), helps),
    )
}

/// Returns how many choices a token stands for: 3 for `t0*3`, and 1 for `t0`.
fn times_of(token: &[u8]) -> u64 {
    let digits = token
        .get(length_before(b'*', token).saturating_add(1)..)
        .unwrap_or(&[]);
    str::from_utf8(digits)
        .unwrap_or("")
        .parse::<u64>()
        .unwrap_or(1)
}

/// Returns where the token is that has the choice of this number, from 1. None if a schedule has fewer choices.
fn token_of_choice(schedule: &[u8], number: u64) -> Option<WordPlace> {
    let mut at: usize = 0;
    let mut played: u64 = 0;
    for token in schedule.split(|byte| *byte == b'\n' || is_blank(*byte)) {
        if !token.is_empty() {
            played = played.saturating_add(times_of(token));
        }
        if played >= number {
            return Some(WordPlace {
                at,
                length: token.len(),
            });
        }
        at = at.saturating_add(token.len()).saturating_add(1);
    }
    None
}

/// Returns where the choice of this number, from 1, is in a schedule. None if a part of the schedule isn't kept any more.
fn place_of_choice<S>(watched: &Watched<S>, number: u64) -> Option<Place<'_>> {
    let token = token_of_choice(watched.whole()?, number)?;
    let (line, at) = watched.line_of(token.at as u64)?;
    Some(Place {
        line,
        part: Some(WordPlace { at, ..token }),
    })
}

/// Shows a person the choice of this number, from 1, which is that of a thread that the program doesn't have.
pub fn note_missing<S>(report: &Report<'_>, name: &str, watched: &Watched<S>, number: u64) {
    report.note(
        name,
        place_of_choice(watched, number),
        "none: the program has no such thread, and the rest of the schedule wasn't played",
        "threads are numbered from 0, in the order of their `.thread` lines",
    );
}
