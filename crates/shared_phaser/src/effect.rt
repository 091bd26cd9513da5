//! What a call does to a word.
ghost use Rattle.std.specs.Prelude.{◌≡◌, true, false, unwrap_or};
ghost use Rattle.packed_phaser.specs.{Flat.advance, Flat.register, Word.record_of, Policy.ends};
ghost use Rattle.shared_phaser.specs.History.{effect, registering, forcing, awaiting};
ghost use Rattle.shared_phaser.specs.Outcome.{effect_of, IsTried, SuitsOutcome};
ghost use Rattle.shared_phaser.specs.declared.history.Call.TheVariants.{Register, Arrive, Force, Await};

use crate::history::{Answer, Call, Reply};
use packed_phaser::{Arrived, Policy, Registered, Word};
use phase_number::Phase;

/// What a call does to a word.
pub enum Outcome {
    /// It changes nothing, and has this result.
    Told(Answer),
    /// It changes the word to this one, and has that result.
    Change(Word, Answer),
    /// It can't be made yet.
    Wait,
}

/// Returns the word of a phaser, all of whose parties have arrived (`turned`), after the end of its phase. The policy says
/// whether it is then terminated. Only `Routine`, which no shared phaser has, doesn't say: the `false` is never used.
fn phase_ended(turned: Word, policy: Policy) -> Word
    requires { (record_of turned).turned ≡ true }
    ensures { record_of result
        ≡ advance (unwrap_or
        (ends policy (record_of turned).phase (record_of turned).parties) false)
        (record_of turned) }
{
    let phase = Phase::prevailing(turned.phase_view());
    let ends = policy.ends(phase, turned.parties()).unwrap_or(false);
    turned.advance(ends)
}

/// Returns what `register` or `bulkRegister` does to a word. It isn't turned, so never `Held`. 0 parties change nothing.
fn registration(word: Word, count: u32) -> Outcome
    requires { (record_of word).turned ≡ false }
    ensures effect { effect_of result ≡ registering count (register count (record_of word)) }
    ensures suits { SuitsOutcome (Register count) result }
{
    match word.register(count) {
        Registered::At(after, phase) => {
            let answer = Answer::Replied(Reply::Counted(phase));
            if count == 0 {
                Outcome::Told(answer)
            } else {
                Outcome::Change(after, answer)
            }
        }
        Registered::Dead(view) => Outcome::Told(Answer::Replied(Reply::Dead(view))),
        Registered::Held => unreachable!(),
        Registered::TooMany => Outcome::Told(Answer::Replied(Reply::TooMany)),
    }
}

/// Returns what `arrive` or `arriveAndDeregister` does to a word. The last arrival also ends the phase.
#[inline(always)]
fn arrival(word: Word, leave: bool, policy: Policy) -> Outcome
    requires { (record_of word).turned ≡ false }
    ensures effect { effect_of result ≡ effect policy (Arrive leave) (record_of word) }
    ensures suits { SuitsOutcome (Arrive leave) result }
{
    let answer = Answer::Replied(Reply::Counted(word.phase_view()));
    match word.arrive(leave) {
        Arrived::Counted(after) => Outcome::Change(after, answer),
        Arrived::Turned(turned) => Outcome::Change(phase_ended(turned, policy), answer),
        Arrived::Dead(view) => Outcome::Told(Answer::Replied(Reply::Dead(view))),
        Arrived::NotThere => Outcome::Told(Answer::Replied(Reply::NotThere)),
    }
}

/// Returns what `forceTermination` does to a word: nothing if it is terminated.
fn termination(word: Word) -> Outcome
    ensures effect { effect_of result ≡ forcing (record_of word) }
    ensures suits { SuitsOutcome Force result }
{
    if word.is_terminated() {
        return Outcome::Told(Answer::Replied(Reply::Dead(word.phase_view())));
    }
    let after = word.force();
    Outcome::Change(after, Answer::Replied(Reply::Dead(after.phase_view())))
}

/// Returns what `awaitAdvance` does: it waits while the phaser is in this phase, and otherwise returns the view.
#[inline(always)]
fn wait(word: Word, phase: i32) -> Outcome
    ensures effect { effect_of result ≡ awaiting phase (record_of word) }
    ensures suits { SuitsOutcome (Await phase) result }
{
    let view = word.phase_view();
    if !word.is_terminated() && view == phase {
        Outcome::Wait
    } else {
        Outcome::Told(Answer::Passed(view))
    }
}

/// Returns what the call does to the word: nothing, a new word, or a wait. Nobody calls it for `Look`, which changes nothing.
#[inline(always)]
pub fn outcome_at(word: Word, call: Call, policy: Policy) -> Outcome
    requires unturned { (record_of word).turned ≡ false }
    requires tried { IsTried call }
    ensures effect { effect_of result ≡ effect policy call (record_of word) }
    ensures suits { SuitsOutcome call result }
{
    match call {
        Call::Look => unreachable!(),
        Call::Register(count) => registration(word, count),
        Call::Arrive(leave) => arrival(word, leave, policy),
        Call::Force => termination(word),
        Call::Await(phase) => wait(word, phase),
    }
}
