//! Shows a person the lines of choices that were played at once.

use byte_ports::{Failed, Sink};
use schedule_reader::Run;
use thread_machine::{Choice, Machine};
use trace_text::{LineEnd, line_of_choice};

/// How many choices have their lines shown at most. Of more none is shown.
const MOST_SHOWN: u64 = 20;

/// Plays a choice, and shows its line. Returns false, to show no more, if it was refused, or without memory.
fn push_choice<E: Sink>(
    notes: &mut E,
    machine: &mut Machine,
    choice: Choice,
) -> Result<bool, Failed> {
    let mut line = LineEnd::new();
    match line_of_choice(machine, choice, &mut line) {
        Ok(accepted) => {
            notes.push(b"  ")?;
            notes.push(line.as_slice())?;
            Ok(accepted)
        }
        Err(_) => Ok(false),
    }
}

/// Plays the first `count` choices of these runs on a machine, and shows the line of each. It shows none of more than 20.
pub fn push_replayed<E: Sink>(
    notes: &mut E,
    machine: &mut Machine,
    runs: &[Run],
    count: u64,
) -> Result<(), Failed> {
    if count > MOST_SHOWN {
        return Ok(());
    }
    let mut left = count;
    for run in runs {
        for _ in 0..run.times {
            if left == 0 || !push_choice(notes, machine, run.choice)? {
                return Ok(());
            }
            left = left.saturating_sub(1);
        }
    }
    Ok(())
}
