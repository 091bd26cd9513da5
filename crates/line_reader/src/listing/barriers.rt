// The lines of the barriers.
ghost use Rattle.std.specs.Prelude.{◌≡◌, ◌<◌, ◌++◌, All, IfSome, OnOk};
ghost use Rattle.std.specs.List.{flat_map};
ghost use Rattle.row_code.specs.Barriers.{IsBarrier};
ghost use Rattle.line_reader.specs.Listing.{action_words, barrier_words, line_text, numbered, spaced};

use crate::listing::pieces::{push_count, push_number};
use row_code::DeclaredBarrier;
use std::alloc::AllocError;

/// Appends the option `action` and the action's first row, if there is one.
fn push_action(text: &mut Vec<u8>, action: Option<u16>) -> Result<(), AllocError>
    ensures text { OnOk result (text.new.items ≡ text.old.items ++ spaced (action_words action)) }
    ensures fits { OnOk result (IfSome action (λ row. row < 65536)) }
{
    match action {
        None => Ok(()),
        Some(row) => push_number(text, b"action", u64::from(row)),
    }
}

/// Appends the line of barrier `n`, such as `.barrier b0 3 action #7`.
#[tactic(auto, using(crate::proofs::ListedTexts::option_steps))]
fn push_barrier(text: &mut Vec<u8>, n: u64, barrier: DeclaredBarrier) -> Result<(), AllocError>
    ensures text { OnOk result (text.new.items
        ≡ text.old.items ++ line_text (barrier_words n barrier)) }
    ensures fits { OnOk result (IsBarrier barrier) }
{
    push_count(text, b".barrier b", n)?;
    push_count(text, b" ", u64::from(barrier.parties))?;
    push_action(text, barrier.action)?;
    text.extend_from_slice(b"\n")
}

/// Appends a line for each barrier, in order. Fails if it is out of memory.
#[tactic(auto, using(crate::proofs::ListedTexts::text_steps))]
pub(crate) fn push_barriers(
    text: &mut Vec<u8>,
    barriers: &[DeclaredBarrier],
) -> Result<(), AllocError>
    ensures text { OnOk result (text.new.items
        ≡ text.old.items ++ flat_map line_text (numbered barrier_words 0 barriers.now)) }
    ensures fits { OnOk result (All IsBarrier barriers.now) }
{
    for (n, barrier) in barriers.iter().enumerate() {
        push_barrier(text, n as u64, *barrier)?;
    }
    Ok(())
}
