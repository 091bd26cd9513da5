ghost use Rattle.std.specs.Prelude.{◌≡◌, map};
ghost use Rattle.line_reader.specs.Seen.{seen, name_seen, phaser_seen, policy_seen};
ghost use Rattle.line_reader.specs.Reading.{first_phase_at, phaser_at, phaser_with, policy_at};

use crate::argument::{end_at, phase_argument, reference_argument, reference_option_at};
use crate::asm_fault::{AsmFaultKind, WordFault, read_at};
use crate::name::name_at;
use crate::number::count_at;
use crate::reference::Reference;
use crate::words::is_word;

/// A phaser's policy whose routine may still be a name.
#[derive(Drop)]
pub enum SymbolicPolicy<N> {
    Default,
    Never,
    Until(i32),
    Routine(Reference<N>),
}

/// A phaser as a line declares it.
#[derive(Drop)]
pub struct SymbolicPhaser<N> {
    pub name: N,
    pub parties: u16,
    pub parent: Option<Reference<N>>,
    pub first_phase: i32,
    pub policy: SymbolicPolicy<N>,
}

/// The greatest number of a phaser.
pub(crate) const LAST_PHASER: u16 = 63;

/// Reads the option `phase`, if it comes next. Returns the phase (0 without the option), and the words after it.
#[tactic(auto, unfolding(crate::specs::Reading::first_phase_at))]
pub(crate) fn first_phase_at<'a, 'w>(
    words: &'w [&'a [u8]],
) -> Result<(i32, &'w [&'a [u8]]), WordFault>
    ensures { seen (λ x. (x.0, map name_seen x.1.now)) result
        ≡ first_phase_at (map name_seen words.now) }
{
    match words {
        [] => Ok((0, words)),
        [word, rest @ ..] => {
            if !is_word(*word, "phase") {
                return Ok((0, words));
            }
            phase_argument(rest)
        }
    }
}

/// Reads a policy, if one comes next. Returns the policy (`Default` if none comes), and the words after it.
#[tactic(auto, unfolding(crate::specs::Reading::policy_at))]
pub(crate) fn policy_at<'a, 'w>(
    words: &'w [&'a [u8]],
) -> Result<(SymbolicPolicy<&'a [u8]>, &'w [&'a [u8]]), WordFault>
    ensures { seen (λ x. (policy_seen x.0, map name_seen x.1.now)) result
        ≡ policy_at (map name_seen words.now) }
{
    match words {
        [] => Ok((SymbolicPolicy::Default, words)),
        [word, rest @ ..] => {
            if is_word(*word, "never") {
                return Ok((SymbolicPolicy::Never, rest));
            }
            if is_word(*word, "until") {
                let (phase, rest) = phase_argument(rest)?;
                return Ok((SymbolicPolicy::Until(phase), rest));
            }
            if is_word(*word, "onadvance") {
                let (row, rest) = reference_argument(u16::MAX, rest)?;
                return Ok((SymbolicPolicy::Routine(row), rest));
            }
            Ok((SymbolicPolicy::Default, words))
        }
    }
}

/// Reads the options of a phaser, in this order: parent, phase, policy. No word may be left.
fn phaser_with<'a>(
    name: &'a [u8],
    parties: u16,
    options: &[&'a [u8]],
) -> Result<SymbolicPhaser<&'a [u8]>, WordFault>
    ensures { seen phaser_seen result
        ≡ phaser_with name.now parties (map name_seen options.now) }
{
    let (parent, rest) = reference_option_at("parent", LAST_PHASER, options)?;
    let (first_phase, rest) = first_phase_at(rest)?;
    let (policy, rest) = policy_at(rest)?;
    end_at(rest)?;
    Ok(SymbolicPhaser {
        name,
        parties,
        parent,
        first_phase,
        policy,
    })
}

/// Reads the words after `.phaser`: a name, the parties, and perhaps options. Fewer than two words are `OperandCount`. The
/// place of a fault counts the words from the wrong one on: `words.len()` is that of the name, and one more that of `.phaser`.
#[tactic(auto, unfolding(crate::specs::Reading::phaser_at))]
pub fn phaser_at<'a>(words: &[&'a [u8]]) -> Result<SymbolicPhaser<&'a [u8]>, WordFault>
    ensures { seen phaser_seen result ≡ phaser_at (map name_seen words.now) }
{
    let [name, parties, options @ ..] = words else {
        return Err(WordFault::at(words.len() + 1, AsmFaultKind::OperandCount));
    };
    let name = read_at(words.len(), name_at(*name))?;
    let parties = read_at(words.len() - 1, count_at(u16::MAX, *parties))?;
    phaser_with(name, parties, options)
}
