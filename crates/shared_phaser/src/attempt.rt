//! One try of a call.
ghost use Rattle.std.specs.Prelude.{◌≡◌};
ghost use Rattle.shared_phaser.specs.{Known.phaser_of, Outcome.IsTried, Outcome.Tried};

use crate::effect::{Outcome, outcome_at};
use crate::history::{Answer, Call};
use crate::phaser::{Party, SharedPhaser};
use crate::rule::{Asked, Exchange, Load};
use packed_phaser::{Word, words_of_a_live_record_are_equal};

/// The result of one try of a call.
pub enum Attempt {
    /// The call was made, with this result.
    Made(Answer),
    /// Another call was faster, and left this word.
    Lost(Word),
    /// The call can't be made yet.
    Waiting,
}

impl SharedPhaser {
    /// Tries a call once: loads the word, and exchanges it if the call changes it. If another call has changed it in between,
    /// the try is `Lost`. A new phase or a termination changes the word's upper half: then the waiters are woken.
    #[inline(always)]
    pub(crate) fn attempt<C: Asked>(&self, party: &mut Party, call: Call) -> Attempt
        requires call { C.call ≡ call }
        requires tried { IsTried call }
        requires phaser { phaser_of party.old ≡ self.now }
        ensures phaser { phaser_of party.new ≡ self.now }
        ensures tried { Tried party.old.known call result party.new.known }
    {
        let table = &*self.table;
        let found = table.shared.load::<Load<C>>(&mut party.seat, 0);
        let Some(word) = Word::from_raw(found) else {
            unreachable!()
        };
        match outcome_at(word, call, self.policy) {
            Outcome::Told(answer) => Attempt::Made(answer),
            Outcome::Change(new, answer) => {
                let seat = &mut party.seat;
                let bits = new.raw();
                let shown = table
                    .shared
                    .compare_exchange::<Exchange<C>>(seat, 0, found, bits);
                if shown == found {
                    if bits >> 32 != found >> 32 {
                        self.ended.notify_all();
                    }
                    return Attempt::Made(answer);
                }
                // Does nothing: this law tells the proof that another word means another state of the phaser.
                words_of_a_live_record_are_equal();
                let Some(word) = Word::from_raw(shown) else {
                    unreachable!()
                };
                Attempt::Lost(word)
            }
            Outcome::Wait => Attempt::Waiting,
        }
    }
}
