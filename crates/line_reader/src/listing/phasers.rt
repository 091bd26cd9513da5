// The lines of the phasers.
ghost use Rattle.std.specs.Prelude.{◌≡◌, ◌++◌, OnOk};
ghost use Rattle.std.specs.List.{flat_map};
ghost use Rattle.line_reader.specs.Listing.{line_text, numbered, parent_words, phase_words, phaser_words, policy_words, spaced};

use crate::listing::pieces::{push_count, push_number, push_value};
use row_code::{DeclaredPhaser, DeclaredPolicy};
use std::alloc::AllocError;

/// Appends the option `parent` with the parent's number, as in ` parent #0`, if the phaser has a parent.
fn push_parent(text: &mut Vec<u8>, parent: Option<u8>) -> Result<(), AllocError>
    ensures { OnOk result (text.new.items ≡ text.old.items ++ spaced (parent_words parent)) }
{
    match parent {
        None => Ok(()),
        Some(number) => push_number(text, b"parent", u64::from(number)),
    }
}

/// Appends the option ` phase 5`, unless the phaser begins in phase 0.
#[tactic(auto, using(crate::proofs::ListedTexts::word_steps, crate::proofs::ListedTexts::phase_there))]
fn push_phase(text: &mut Vec<u8>, phase: i32) -> Result<(), AllocError>
    ensures { OnOk result (text.new.items ≡ text.old.items ++ spaced (phase_words phase)) }
{
    if phase == 0 {
        return Ok(());
    }
    push_value(text, b" phase ", phase)
}

/// Appends the policy's option: ` never`, ` until 5` or ` onadvance #9`. `Default` has none.
#[tactic(auto, using(crate::proofs::ListedTexts::word_steps))]
fn push_policy(text: &mut Vec<u8>, policy: DeclaredPolicy) -> Result<(), AllocError>
    ensures { OnOk result (text.new.items ≡ text.old.items ++ spaced (policy_words policy)) }
{
    match policy {
        DeclaredPolicy::Default => Ok(()),
        DeclaredPolicy::Never => text.extend_from_slice(b" never"),
        DeclaredPolicy::Until(phase) => push_value(text, b" until ", phase),
        DeclaredPolicy::Routine(row) => push_number(text, b"onadvance", u64::from(row)),
    }
}

/// Appends the line of phaser `n`, such as `.phaser p1 2 parent #0 never`.
#[tactic(auto, using(crate::proofs::ListedTexts::option_steps))]
fn push_phaser(text: &mut Vec<u8>, n: u64, phaser: DeclaredPhaser) -> Result<(), AllocError>
    ensures { OnOk result (text.new.items ≡ text.old.items ++ line_text (phaser_words n phaser)) }
{
    push_count(text, b".phaser p", n)?;
    push_count(text, b" ", u64::from(phaser.parties))?;
    push_parent(text, phaser.parent)?;
    push_phase(text, phaser.first_phase)?;
    push_policy(text, phaser.policy)?;
    text.extend_from_slice(b"\n")
}

/// Appends a line for each phaser, in order. Fails if it is out of memory.
#[tactic(auto, using(crate::proofs::ListedTexts::text_steps))]
pub(crate) fn push_phasers(text: &mut Vec<u8>, phasers: &[DeclaredPhaser]) -> Result<(), AllocError>
    ensures { OnOk result (text.new.items
        ≡ text.old.items ++ flat_map line_text (numbered phaser_words 0 phasers.now)) }
{
    for (n, phaser) in phasers.iter().enumerate() {
        push_phaser(text, n as u64, *phaser)?;
    }
    Ok(())
}
