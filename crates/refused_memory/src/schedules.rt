//! Schedules that are read and written. A try of a call, from `begin` to `end`, is `Right`, out of `Memory`, or `Wrong`.

use crate::trial::{Answer, Trial, Tried};
use schedule_reader::{Reader, Run, ScheduleFault, write_schedule};
use thread_machine::Choice;

const TOKENS: &[u8] = b"t0 t1*2 t2*3 t3*4 t4*5 t5*6 t6*7 t7*8 x8*9 ";

/// Returns whether `runs` is a beginning of what `TOKENS` says, where thread n has n + 1 turns: at most nine runs.
fn is_beginning(runs: &[Run]) -> bool {
    for (run, thread) in runs.iter().zip(0..9u8) {
        if run.choice.thread != thread || run.times != u32::from(thread) + 1 {
            return false;
        }
    }
    runs.len() <= 9
}

/// Tries `Reader::feed` of `TOKENS`, and feeds them again with memory. After `Memory` the list has the runs of some first
/// tokens, and the reader returns `Memory` again.
pub fn feeding(trial: Trial) -> Tried {
    let mut runs = Vec::new(trial.alloc);
    let mut reader = Reader::new();
    trial.begin();
    let answered = trial.end(reader.feed(TOKENS, &mut runs));
    let (count, is_first) = (runs.len(), is_beginning(runs.as_slice()));
    let again = reader.feed(TOKENS, &mut runs);
    Ok(match (answered, again) {
        (Ok(()), Ok(())) => Answer::Right.provided(is_first && count == 9 && runs.len() == 18),
        (Err(ScheduleFault::Memory), Err(ScheduleFault::Memory)) => {
            Answer::Memory.provided(is_first && count < 9 && runs.len() == count)
        }
        _ => Answer::Wrong,
    })
}

/// Tries `Reader::finish`, which appends the last token, since no space follows it. After `Memory` the list is still empty.
pub fn finishing(trial: Trial) -> Tried {
    let mut runs = Vec::new(trial.alloc);
    let mut reader = Reader::new();
    let fed = reader.feed(b"t7*5", &mut runs);
    trial.begin();
    let answered = trial.end(reader.finish(&mut runs));
    Ok(match (fed, answered) {
        (Ok(()), Ok(())) => Answer::Right.provided(runs.len() == 1),
        (Ok(()), Err(ScheduleFault::Memory)) => Answer::Memory.provided(runs.is_empty()),
        _ => Answer::Wrong,
    })
}

/// Tries `write_schedule`, which returns a token for each of two runs.
pub fn writing(trial: Trial) -> Tried {
    let choice = Choice {
        thread: 63,
        expiry: true,
    };
    let runs = [Run { choice, times: 1 }, Run { choice, times: 70 }];
    Ok(
        match trial.end(write_schedule(trial.begin(), runs.as_slice())) {
            Ok(text) => Answer::Right.provided(text.as_bytes() == b"x63 x63*70".as_slice()),
            Err(_) => Answer::Memory,
        },
    )
}
