//! What a record takes and what it refuses, in the order in which workers ask.
use crate::programs::program_of;
use std::test::Fail;
use thread_machine::What;
use thread_runner::{Ending, Journaled, TakeFault};

/// A program, its limit of steps, what is taken in order, the record as text, and how the run has ended then. A turn or an
/// expiry is its token. After a token, `!` means that the choice isn't ready, `#` that the limit is reached, and `~` that the
/// thread begins to wait.
type Row = (
    &'static str,
    u32,
    &'static str,
    &'static str,
    Option<Ending>,
);

const LONELY: &str = ".phaser p 2\n.thread a main\nmain: paaa r0 p\nhalt\n";

const TIMED: &str =
    ".phaser p 2\n.thread a main\nmain: ldi r1 0\nldi r2 1\npawaitt r0 p r1 r2\nhalt\n";

const BOTH_TIMED: &str = ".phaser p 3\n.thread a main\n.thread b main\n\
main: ldi r2 1\npawaitt r0 p r1 r2\nhalt\n";

static ROWS: [Row; 4] = [
    (LONELY, 10, "t0~ t0! x0!", "t0", Some(Ending::Stuck)),
    (
        ".thread a m\nm: jmp m\n",
        3,
        "t0 t0 t0 t0#",
        "t0 t0 t0",
        Some(Ending::Limit),
    ),
    (
        TIMED,
        10,
        "x0! t0 t0 t0 t0! x0 x0! t0 t0! x0!",
        "t0 t0 t0 x0 t0",
        Some(Ending::AllEnded),
    ),
    (
        BOTH_TIMED,
        20,
        "t0 t0 x0! t1 t1 x1! x0 x1! t0 x1 t1",
        "t0 t0 t1 t1 x0 t0 x1 t1",
        Some(Ending::AllEnded),
    ),
];

/// Returns whether the choice of `token` (`t0`, `x1`) is taken, or refused: `!` as not ready, `#` by the limit of steps. With
/// `~` it is taken, and its thread begins to wait.
fn takes(journaled: &mut Journaled, token: &str) -> bool {
    let [kind, digit, rest @ ..] = token.as_bytes() else {
        return false;
    };
    let thread = digit.saturating_sub(b'0');
    if usize::from(thread) >= journaled.machine().thread_count() {
        return false;
    }
    let taken = if *kind == b'x' {
        journaled.take_expiry(thread)
    } else {
        journaled.take_step(thread)
    };
    match rest {
        [] => taken.is_ok(),
        [b'!'] => taken == Err(TakeFault::NotReady),
        [b'~'] => match taken {
            Ok(event) => event.what == What::Waits,
            Err(_) => false,
        },
        _ => taken == Err(TakeFault::StepLimit),
    }
}

/// Takes the choices of `row` in order. Returns whether each is taken or refused as its token says, and whether the record then
/// has the row's schedule and ending.
fn agrees(journaled: &mut Journaled, row: &Row) -> bool {
    let (_, _, tokens, schedule, ending) = *row;
    for token in tokens.split(' ') {
        if !takes(journaled, token) {
            return false;
        }
    }
    journaled.schedule() == schedule.as_bytes() && journaled.ending() == ending
}

/// Checks that a record has the choices that were taken, and none that was refused.
#[test]
fn what_is_taken_is_recorded(rt: HostRuntime) -> Result<(), Fail> {
    for row in &ROWS {
        let (text, limit, _, schedule, _) = *row;
        let program = program_of(rt.alloc(), text)?;
        let mut journaled = Journaled::new(rt.alloc(), program, limit.min(1_000_000_000))?;
        assert!(rt; agrees(&mut journaled, row), "{schedule}");
    }
    Ok(())
}
