//! The calls that never wait.
ghost use Rattle.std.specs.Prelude.{◌≡◌, ◌<◌, IfOk, IfErr};
ghost use Rattle.shared_phaser.specs.declared.history.Call.TheVariants.{Look, Register, Arrive, Force};
ghost use Rattle.shared_phaser.specs.declared.history.Answer.TheVariants.{Saw, Replied};
ghost use Rattle.shared_phaser.specs.{Known.phaser_of, Known.MakesCall, Outcome.IsPrompt, Outcome.Suits, Race.LosesRaces};

use crate::attempt::Attempt;
use crate::history::{Answer, Call, Reply};
use crate::phaser::{Party, SharedPhaser};
use crate::rule::{Asked, Load};
use packed_phaser::Word;
use std::marker::Brand;

/// Every try of a call lost to a call of another caller that changed the phaser.
#[derive(Clone, Copy, PartialEq, Eq)]
pub struct Raced {
    /// How often it was tried.
    pub tries: u32,
    /// The word that the last try found.
    pub word: Word,
}

/// Returns the reply in the result of a call that never waits.
#[tactic(auto, using(crate::proofs::Tries::prompt_replies))]
pub fn reply_of(call: Call, answer: Answer) -> Reply
    requires prompt { IsPrompt call }
    requires suits { Suits call answer }
    ensures { answer ≡ Replied result }
{
    match answer {
        Answer::Replied(reply) => reply,
        _ => unreachable!(),
    }
}

impl SharedPhaser {
    /// Returns the phaser as it is, from which `getPhase`, `getRegisteredParties` and the other getters are read.
    pub fn look(&self, party: &mut Party) -> Word
        requires { phaser_of party.old ≡ self.now }
        ensures phaser { phaser_of party.new ≡ self.now }
        ensures made { MakesCall party.old.known Look (Saw result) party.new.known }
    {
        let table = &*self.table;
        let found = table.shared.load::<Load<Brand>>(&mut party.seat, 0);
        match Word::from_raw(found) {
            Some(word) => word,
            None => unreachable!(),
        }
    }

    /// Tries a call that never waits, at most `tries` times. `Raced`: another call was faster each time. `last` begins as 1,
    /// the word of an empty phaser: any word would do, since the first lost try replaces it.
    fn within<C: Asked>(&self, party: &mut Party, call: Call, tries: u32) -> Result<Reply, Raced>
        requires call { C.call ≡ call }
        requires prompt { IsPrompt call }
        requires tries { 0 < tries }
        requires phaser { phaser_of party.old ≡ self.now }
        ensures phaser { phaser_of party.new ≡ self.now }
        ensures made { IfOk result
            (λ r. MakesCall party.old.known call (Replied r) party.new.known) }
        ensures raced { IfErr result (λ e. LosesRaces party.old.known tries e party.new.known) }
    {
        let mut last = 1;
        for lost in 0..tries {
            let tried = self.attempt::<C>(party, call);
            match tried {
                Attempt::Made(answer) => return Ok(reply_of(call, answer)),
                Attempt::Lost(word) => last = word.raw(),
                Attempt::Waiting => unreachable!(),
            }
        }
        match Word::from_raw(last) {
            Some(word) => Err(Raced { tries, word }),
            None => unreachable!(),
        }
    }

    /// Makes the call `register`, or `bulkRegister` for other than 1 party, in at most `tries` tries. `Raced`: all were lost.
    pub fn register_within(
        &self,
        party: &mut Party,
        parties: u32,
        tries: u32,
    ) -> Result<Reply, Raced>
        requires tries { 0 < tries }
        requires phaser { phaser_of party.old ≡ self.now }
        ensures phaser { phaser_of party.new ≡ self.now }
        ensures made { IfOk result
            (λ r. MakesCall party.old.known (Register parties) (Replied r) party.new.known) }
        ensures raced { IfErr result (λ e. LosesRaces party.old.known tries e party.new.known) }
    {
        self.within::<Brand>(party, Call::Register(parties), tries)
    }

    /// Makes the call `arrive`, or `arriveAndDeregister` if `leave`. The last arrival ends the phase. `Raced`: all tries lost.
    pub fn arrive_within(&self, party: &mut Party, leave: bool, tries: u32) -> Result<Reply, Raced>
        requires tries { 0 < tries }
        requires phaser { phaser_of party.old ≡ self.now }
        ensures phaser { phaser_of party.new ≡ self.now }
        ensures made { IfOk result
            (λ r. MakesCall party.old.known (Arrive leave) (Replied r) party.new.known) }
        ensures raced { IfErr result (λ e. LosesRaces party.old.known tries e party.new.known) }
    {
        self.within::<Brand>(party, Call::Arrive(leave), tries)
    }

    /// Makes the call `forceTermination`. The reply is what `getPhase` then returns. `Raced`: all `tries` tries were lost.
    pub fn force_within(&self, party: &mut Party, tries: u32) -> Result<Reply, Raced>
        requires tries { 0 < tries }
        requires phaser { phaser_of party.old ≡ self.now }
        ensures phaser { phaser_of party.new ≡ self.now }
        ensures made { IfOk result
            (λ r. MakesCall party.old.known Force (Replied r) party.new.known) }
        ensures raced { IfErr result (λ e. LosesRaces party.old.known tries e party.new.known) }
    {
        self.within::<Brand>(party, Call::Force, tries)
    }
}
