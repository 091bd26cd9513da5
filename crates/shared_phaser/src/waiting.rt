//! The calls that try until they have a result.
ghost use Rattle.std.specs.Prelude.{◌≡◌, true, false, pos, ◌≤ℤ◌, ◌<ℤ◌, IfOk, IfErr};
ghost use Rattle.shared_phaser.specs.declared.history.Call.TheVariants.{Register, Arrive, Force, Await};
ghost use Rattle.shared_phaser.specs.declared.history.Answer.TheVariants.{Replied, Passed};
ghost use Rattle.shared_phaser.specs.declared.history.Reply.TheVariants.{NotThere as Refused};
ghost use Rattle.shared_phaser.specs.Known.{phaser_of, MakesCall, ArrivesAndAwaits};
ghost use Rattle.shared_phaser.specs.Outcome.{IsTried, IsPrompt, Suits};

use crate::attempt::Attempt;
use crate::calls::reply_of;
use crate::history::{Answer, Call, Reply};
use crate::phaser::{Party, SharedPhaser};
use crate::rule::Asked;
use crossbeam_utils::sync::Key;
use std::hint::spin_loop;
use std::marker::Brand;
use std::sync::Wait;
use std::thread::yield_now;

/// No party was left that could arrive.
#[derive(Clone, Copy, PartialEq, Eq)]
pub struct NotThere;

/// The most parties that are few: they may all have a processor.
const FEW: u64 = 4;

/// How often a wait looks at the phase before it sleeps, among few parties. The next constant is for many.
const LOOKS_AMONG_FEW: u32 = 96;

const LOOKS_AMONG_MANY: u32 = 16;

/// How many pauses precede each look among few parties. A look that comes too early takes the word's cache line from the thread
/// that is about to end the phase.
const PAUSES: u32 = 12;

/// Returns how often a wait looks at the phase before it sleeps, among few parties or many.
#[inline(always)]
fn looks_among(few: bool) -> u32 {
    if few {
        LOOKS_AMONG_FEW
    } else {
        LOOKS_AMONG_MANY
    }
}

/// Rests before a look. Among many parties a wait yields: if it spun, it could keep a processor from a thread that has yet to
/// arrive. Among few it doesn't: only other work of the machine waits for its processor, and could keep it for milliseconds.
#[inline(always)]
fn rest_among(few: bool) {
    if few {
        for _ in 0..PAUSES {
            spin_loop();
        }
    } else {
        yield_now();
    }
}

impl SharedPhaser {
    /// Announces a wait if `sleeps`, or else returns `None`. The caller then tries once more: so it misses no end of a phase.
    #[inline(always)]
    fn announced(&self, sleeps: bool) -> Option<Key<'_>> {
        if sleeps {
            Some(self.ended.prepare_wait())
        } else {
            None
        }
    }

    /// Looks at the phase, the word's upper half, until it isn't `phase`, at most `looks_among` times. Returns whether it still
    /// is `phase`. The registered parties, in bits 16 to 31, say whether they are few.
    #[inline(always)]
    fn lingers(&self, phase: i32) -> bool {
        let phase = u64::from(phase.unsigned_abs());
        let table = &*self.table;
        let few = table.shared.peek(0) >> 16 & 0xffff <= FEW;
        for _ in 0..looks_among(few) {
            rest_among(few);
            if table.shared.peek(0) >> 32 != phase {
                return false;
            }
        }
        true
    }

    /// Rests between two tries of a wait. If the wait was announced (`key`), it sleeps until a phase has ended since then. If
    /// not, it looks at the phase for a while. Returns whether to announce the next try: true if the phase still hasn't ended.
    #[inline(always)]
    fn rests<R: Wait>(&self, rt: &R, key: Option<Key<'_>>, call: Call) -> bool {
        if let Some(key) = key {
            key.wait(rt);
            return false;
        }
        match call {
            Call::Await(phase) => self.lingers(phase),
            _ => false,
        }
    }

    /// Tries a call until it has a result. It is inlined with everything that it calls: the more work there is between the end
    /// of a phase and the next arrival, the more likely another thread looks in between.
    #[inline(always)]
    fn insist<C: Asked, R: Wait>(&self, rt: &R, party: &mut Party, call: Call) -> Answer
        requires call { C.call ≡ call }
        requires tried { IsTried call }
        requires phaser { phaser_of party.old ≡ self.now }
        ensures phaser { phaser_of party.new ≡ self.now }
        ensures made { MakesCall party.old.known call result party.new.known }
        ensures suits { Suits call result }
    {
        let mut sleeps = false;
        for _ in rt.forever() {
            let key = self.announced(sleeps);
            let tried = self.attempt::<C>(party, call);
            match tried {
                Attempt::Made(answer) => return answer,
                Attempt::Lost(_) => {}
                Attempt::Waiting => sleeps = self.rests(rt, key, call),
            }
        }
        unreachable!()
    }

    /// Tries a call that never waits, until it has a reply.
    #[inline(always)]
    fn insist_promptly<C: Asked, R: Wait>(&self, rt: &R, party: &mut Party, call: Call) -> Reply
        requires call { C.call ≡ call }
        requires tried { IsTried call }
        requires prompt { IsPrompt call }
        requires phaser { phaser_of party.old ≡ self.now }
        ensures phaser { phaser_of party.new ≡ self.now }
        ensures made { MakesCall party.old.known call (Replied result) party.new.known }
        ensures suits { Suits call (Replied result) }
    {
        reply_of(call, self.insist::<C, R>(rt, party, call))
    }

    /// Makes the call `register` if `parties` is 1, and otherwise `bulkRegister(parties)`. It tries until it has a reply.
    /// `party` is the caller's token for all its calls, not one of these parties.
    pub fn register<R: Wait>(&self, rt: &R, party: &mut Party, parties: u32) -> Reply
        requires { phaser_of party.old ≡ self.now }
        ensures phaser { phaser_of party.new ≡ self.now }
        ensures made { MakesCall party.old.known (Register parties) (Replied result)
            party.new.known }
    {
        self.insist_promptly::<Brand, R>(rt, party, Call::Register(parties))
    }

    /// Makes the call `arrive`. The last arrival of a phase ends it in the same step.
    pub fn arrive<R: Wait>(&self, rt: &R, party: &mut Party) -> Reply
        requires { phaser_of party.old ≡ self.now }
        ensures phaser { phaser_of party.new ≡ self.now }
        ensures made { MakesCall party.old.known (Arrive false) (Replied result) party.new.known }
    {
        self.insist_promptly::<Brand, R>(rt, party, Call::Arrive(false))
    }

    /// Makes the call `arriveAndDeregister`. The last arrival of a phase ends it in the same step.
    pub fn arrive_and_deregister<R: Wait>(&self, rt: &R, party: &mut Party) -> Reply
        requires { phaser_of party.old ≡ self.now }
        ensures phaser { phaser_of party.new ≡ self.now }
        ensures made { MakesCall party.old.known (Arrive true) (Replied result) party.new.known }
    {
        self.insist_promptly::<Brand, R>(rt, party, Call::Arrive(true))
    }

    /// Makes the call `forceTermination`. The reply has what `getPhase` returns after it.
    pub fn force<R: Wait>(&self, rt: &R, party: &mut Party) -> Reply
        requires { phaser_of party.old ≡ self.now }
        ensures phaser { phaser_of party.new ≡ self.now }
        ensures made { MakesCall party.old.known Force (Replied result) party.new.known }
    {
        self.insist_promptly::<Brand, R>(rt, party, Call::Force)
    }

    /// Waits until the phaser isn't in this phase, or is terminated. Returns the view then, as `getPhase` does.
    #[inline(always)]
    fn pass<R: Wait>(&self, rt: &R, party: &mut Party, phase: i32) -> i32
        requires { phaser_of party.old ≡ self.now }
        ensures phaser { phaser_of party.new ≡ self.now }
        ensures made { MakesCall party.old.known (Await phase) (Passed result) party.new.known }
    {
        match self.insist::<Brand, R>(rt, party, Call::Await(phase)) {
            Answer::Passed(view) => view,
            _ => unreachable!(),
        }
    }

    /// Waits as `awaitAdvance` does, until the phaser isn't in this phase. Returns the view then, or `phase` if it is negative.
    pub fn await_advance<R: Wait>(&self, rt: &R, party: &mut Party, phase: i32) -> i32
        requires { phaser_of party.old ≡ self.now }
        ensures phaser { phaser_of party.new ≡ self.now }
        ensures made { pos 0 ≤ℤ phase
            → MakesCall party.old.known (Await phase) (Passed result) party.new.known }
        ensures negative { phase <ℤ pos 0 → (result ≡ phase) × (party.new ≡ party.old) }
    {
        if phase < 0 {
            return phase;
        }
        self.pass(rt, party, phase)
    }

    /// Arrives, and waits for the end of the phase if the arrival counts: `arriveAndAwaitAdvance`. Returns the view then.
    pub fn arrive_and_await_advance<R: Wait>(
        &self,
        rt: &R,
        party: &mut Party,
    ) -> Result<i32, NotThere>
        requires { phaser_of party.old ≡ self.now }
        ensures phaser { phaser_of party.new ≡ self.now }
        ensures made { IfOk result (λ view. ArrivesAndAwaits party.old.known view party.new.known) }
        ensures refused { IfErr result
            (λ _. MakesCall party.old.known (Arrive false) (Replied Refused) party.new.known) }
    {
        match self.insist_promptly::<Brand, R>(rt, party, Call::Arrive(false)) {
            Reply::Counted(phase) => Ok(self.pass(rt, party, phase)),
            Reply::Dead(view) => Ok(view),
            Reply::NotThere => Err(NotThere),
            Reply::TooMany => unreachable!(),
        }
    }
}
