//! A word of a plan in two bytes, and its number and its seed beside it.
ghost use Rattle.std.specs.Prelude.{◌≡◌, false};
ghost use Rattle.plans.specs.Parts.{Holds, takes_number, takes_seed, word_with};

use crate::word::{Chosen, Rule, Step, Word};

/// A word of a plan without its number (a count or a limit). A seed below 256 is in the part, a larger one isn't.
#[derive(Clone, Copy)]
pub enum Part {
    Turn(u8),
    Turns(u8),
    Expiry(u8),
    Expiries(u8),
    Alone(u8),
    AloneMost(u8),
    TurnAbout,
    TurnAboutMost,
    BySmallSeed(u8),
    BySmallSeedMost(u8),
    BySeed,
    BySeedMost,
    Open,
    Close,
    CloseTimes,
}

/// A word's part, its number and its seed. A number or a seed that the part doesn't take is 0.
#[derive(Clone, Copy)]
pub struct Stored {
    pub part: Part,
    pub number: u32,
    pub seed: u64,
}

/// Returns whether a part is stored with a number: a count other than 1, or the most choices of a rule.
pub fn takes_number(part: Part) -> bool
    ensures { result ≡ takes_number part }
{
    matches!(
        part,
        Part::Turns(_)
            | Part::Expiries(_)
            | Part::AloneMost(_)
            | Part::TurnAboutMost
            | Part::BySmallSeedMost(_)
            | Part::BySeedMost
            | Part::CloseTimes
    )
}

/// Returns whether a part is stored with a seed: one of 256 or more. A smaller seed is in the part.
pub fn takes_seed(part: Part) -> bool
    ensures { result ≡ takes_seed part }
{
    matches!(part, Part::BySeed | Part::BySeedMost)
}

/// Returns how a part without a number and without a seed is stored: both are 0.
fn alone(part: Part) -> Stored
    ensures { result ≡ record { part = part; number = 0; seed = 0 } }
{
    Stored {
        part,
        number: 0,
        seed: 0,
    }
}

/// Returns how a part with this number, but without a seed, is stored.
fn numbered(part: Part, number: u32) -> Stored
    ensures { result ≡ record { part = part; number = number; seed = 0 } }
{
    Stored {
        part,
        number,
        seed: 0,
    }
}

/// Returns how a choice that is made `times` times is stored. A number is stored only if `times` isn't 1.
fn stored_choice(chosen: Chosen, times: u32) -> Stored
    ensures { Holds result (Word.Step (Step.Make chosen times)) }
{
    match (chosen.expiry, times) {
        (false, 1) => alone(Part::Turn(chosen.thread)),
        (false, _) => numbered(Part::Turns(chosen.thread), times),
        (true, 1) => alone(Part::Expiry(chosen.thread)),
        (true, _) => numbered(Part::Expiries(chosen.thread), times),
    }
}

/// Returns how choices by a seed are stored, at most `most` if there is a limit. A seed below 256 is in the part itself.
fn stored_seed(seed: u64, most: Option<u32>) -> Stored
    ensures { Holds result (Word.Step (Step.Follow (Rule.BySeed seed) most)) }
{
    match (seed < 256, most) {
        (true, None) => alone(Part::BySmallSeed(seed as u8)),
        (true, Some(most)) => numbered(Part::BySmallSeedMost(seed as u8), most),
        (false, None) => Stored {
            part: Part::BySeed,
            number: 0,
            seed,
        },
        (false, Some(most)) => Stored {
            part: Part::BySeedMost,
            number: most,
            seed,
        },
    }
}

/// Returns how choices by a rule are stored, at most `most` of them if there is a limit.
fn stored_rule(rule: Rule, most: Option<u32>) -> Stored
    ensures { Holds result (Word.Step (Step.Follow rule most)) }
{
    match (rule, most) {
        (Rule::Alone(thread), None) => alone(Part::Alone(thread)),
        (Rule::Alone(thread), Some(most)) => numbered(Part::AloneMost(thread), most),
        (Rule::TurnAbout, None) => alone(Part::TurnAbout),
        (Rule::TurnAbout, Some(most)) => numbered(Part::TurnAboutMost, most),
        (Rule::BySeed(seed), most) => stored_seed(seed, most),
    }
}

/// Returns a word's part, its number and its seed. A number or a seed that the part doesn't take is 0.
pub fn stored_word(word: Word) -> Stored
    ensures { Holds result word }
{
    match word {
        Word::Step(Step::Make { chosen, times }) => stored_choice(chosen, times),
        Word::Step(Step::Follow { rule, most }) => stored_rule(rule, most),
        Word::Open => alone(Part::Open),
        Word::Close(1) => alone(Part::Close),
        Word::Close(times) => numbered(Part::CloseTimes, times),
    }
}

/// Returns the word for a thread's turn, or with `expiry` for its expiry, made `times` times.
fn choice(thread: u8, expiry: bool, times: u32) -> Word
    ensures { result ≡ Word.Step (Step.Make (record { thread = thread; expiry = expiry }) times) }
{
    Word::Step(Step::Make {
        chosen: Chosen { thread, expiry },
        times,
    })
}

/// Returns the word for choices by a rule, at most `most` of them if there is a limit.
fn rule(rule: Rule, most: Option<u32>) -> Word
    ensures { result ≡ Word.Step (Step.Follow rule most) }
{
    Word::Step(Step::Follow { rule, most })
}

/// Returns the word that is stored as this part, number and seed. A number or a seed that the part doesn't take is ignored.
pub fn word_with(part: Part, number: u32, seed: u64) -> Word
    ensures { result ≡ word_with part number seed }
{
    match part {
        Part::Turn(thread) => choice(thread, false, 1),
        Part::Turns(thread) => choice(thread, false, number),
        Part::Expiry(thread) => choice(thread, true, 1),
        Part::Expiries(thread) => choice(thread, true, number),
        Part::Alone(thread) => rule(Rule::Alone(thread), None),
        Part::AloneMost(thread) => rule(Rule::Alone(thread), Some(number)),
        Part::TurnAbout => rule(Rule::TurnAbout, None),
        Part::TurnAboutMost => rule(Rule::TurnAbout, Some(number)),
        Part::BySmallSeed(seed) => rule(Rule::BySeed(u64::from(seed)), None),
        Part::BySmallSeedMost(seed) => rule(Rule::BySeed(u64::from(seed)), Some(number)),
        Part::BySeed => rule(Rule::BySeed(seed), None),
        Part::BySeedMost => rule(Rule::BySeed(seed), Some(number)),
        Part::Open => Word::Open,
        Part::Close => Word::Close(1),
        Part::CloseTimes => Word::Close(number),
    }
}
