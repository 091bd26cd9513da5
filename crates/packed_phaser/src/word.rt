ghost use Rattle.std.specs.Prelude.{◌≡◌, ℕ, ℤ, pos, ◌-◌, ◌<◌, ◌≤◌, ◌^◌, max, true, false, if◌then◌else◌, IsTrue, ◌↔◌};
ghost use Rattle.std.specs.Option.{SomeIff};
ghost use Rattle.packed_phaser.specs.Flat.{Flat, fresh, view_of, unarrived_of, is_empty, register, arrive, advance, vacate, renew, force};
ghost use Rattle.packed_phaser.specs.{Word.IsWord, Word.fields_of, Word.record_of, Answer.registration_of, Answer.arrival_of};

use phase_number::Phase;
use std::marker::Model;

/// A phaser without tiers in 64 bits. The head of the crate says what its fields mean.
#[derive(Clone, Copy, PartialEq, Eq)]
pub struct Word {
    bits: u64,
}

impl Model for Word {
    ghost use Rattle.std.specs.Prelude.{ℕ};
    ghost use Rattle.packed_phaser.specs.Word.{IsWord};

    ghost Value = { ℕ };

    ghost view = { λ word. word.bits };

    ghost invariant = { λ word. IsWord word.bits };

    ghost inverse = { λ n. record { bits = n } };
}

/// The fields of a word, each as a number of its own.
#[derive(Clone, Copy)]
struct Fields {
    unarrived: u16,
    parties: u16,
    phase: u32,
    ended: bool,
}

/// The result of a registration.
#[derive(Clone, Copy)]
pub enum Registered {
    /// The parties are registered: the new word, and the number of the phase that they joined.
    At(Word, i32),
    /// The phaser is terminated, and this is its view.
    Dead(i32),
    /// The phaser is turned: the registration has to wait until the phase has ended.
    Held,
    /// There would be more than 65535 parties.
    TooMany,
}

/// The result of an arrival.
#[derive(Clone, Copy)]
pub enum Arrived {
    /// Other parties have yet to arrive.
    Counted(Word),
    /// All needed parties have arrived, or the last one has left: the phase is to be ended.
    Turned(Word),
    /// The phaser is terminated, and this is its view.
    Dead(i32),
    /// No party is left that could arrive.
    NotThere,
}

/// Splits 64 bits into the four fields: `unarrived` in bits 0 to 15, `parties` 16 to 31, `phase` 32 to 62, `ended` 63.
#[tactic(auto, using(std::proofs::lemmas::Nat::and_mask), unfolding(crate::specs::Word::fields_of))]
fn unpacked(bits: u64) -> Fields
    ensures fields { result ≡ fields_of bits }
    ensures phase { result.phase < 2 ^ 31 }
{
    Fields {
        unarrived: (bits & 0xffff) as u16,
        parties: (bits >> 16 & 0xffff) as u16,
        phase: (bits >> 32 & 0x7fff_ffff) as u32,
        ended: bits >> 63 == 1,
    }
}

/// Joins four fields to a word. `unarrived` is at most `parties`, or at most 1 if `parties` is 0.
#[tactic(auto, unfolding(crate::specs::Word::fields_of))]
fn packed(fields: Fields) -> Word
    requires phase { fields.phase < 2 ^ 31 }
    requires unarrived { fields.unarrived ≤ max fields.parties 1 }
    ensures { fields_of result ≡ fields }
{
    let ended = if fields.ended { 1u64 } else { 0 };
    let bits = fields.unarrived as u64
        + ((fields.parties as u64) << 16)
        + ((fields.phase as u64) << 32)
        + (ended << 63);
    Word { bits }
}

/// Returns `unarrived` at the start of a phase: the parties, or 1 if there are none.
fn all_of(parties: u16) -> u16
    ensures { result ≡ max parties 1 }
{
    parties.max(1)
}

/// Returns how many parties stay registered after an arrival: one fewer if the party leaves.
#[inline(always)]
fn remaining(parties: u16, leave: bool) -> u16
    requires { 0 < parties }
    ensures { result ≡ if leave then parties - 1 else parties }
{
    if leave { parties - 1 } else { parties }
}

impl Word {
    /// Returns a phaser at the start of a phase. With phase 0 it is `new Phaser(parties)`.
    pub fn fresh(phase: Phase, parties: u16) -> Word
        ensures { record_of result ≡ fresh phase parties }
    {
        packed(Fields {
            unarrived: all_of(parties),
            parties,
            phase: phase.number() as u32,
            ended: false,
        })
    }

    /// Returns the word with these bits. `None`: `unarrived` is above `parties`, or above 1 if `parties` is 0.
    pub fn from_raw(bits: u64) -> Option<Word>
        ensures { SomeIff result (IsWord bits) bits }
    {
        let fields = unpacked(bits);
        if fields.unarrived <= all_of(fields.parties) {
            Some(Word { bits })
        } else {
            None
        }
    }

    /// Returns the word's 64 bits.
    pub fn raw(self) -> u64
        ensures { result ≡ self }
    {
        self.bits
    }

    /// Returns the phase that the phaser is in, or in which it was terminated.
    fn phase(self) -> Phase
        ensures { result ≡ (record_of self).phase }
    {
        Phase::prevailing(unpacked(self.bits).phase as i32)
    }

    /// Returns `getPhase`: the phase's number, less 2147483648 once the phaser is terminated. It is the word's upper half.
    #[tactic(auto, unfolding(crate::specs::Word::fields_of))]
    pub fn phase_view(self) -> i32
        ensures { result ≡ view_of (record_of self) }
    {
        ((self.bits >> 32) as u32).cast_signed()
    }

    /// Returns `getRegisteredParties`: how many parties are registered, also once the phaser is terminated.
    pub fn parties(self) -> u16
        ensures { result ≡ (record_of self).parties }
    {
        unpacked(self.bits).parties
    }

    /// Returns `getArrivedParties`: how many parties have arrived in this phase, or all once the phaser is terminated. An empty
    /// phaser has 1 in `unarrived`: without `saturating_sub`, the result would be below 0.
    pub fn arrived(self) -> u16
        ensures { result ≡ (record_of self).arrived }
    {
        let fields = unpacked(self.bits);
        if fields.ended {
            fields.parties
        } else {
            fields.parties.saturating_sub(fields.unarrived)
        }
    }

    /// Returns `getUnarrivedParties`: how many parties are still to arrive; 0 once the phaser is terminated.
    pub fn unarrived(self) -> u16
        ensures { result ≡ unarrived_of (record_of self) }
    {
        self.parties() - self.arrived()
    }

    /// Returns `isTerminated`: whether the field `ended` is 1.
    pub fn is_terminated(self) -> bool
        ensures { result ≡ (record_of self).ended }
    {
        unpacked(self.bits).ended
    }

    /// Returns whether no party is registered, and the phase isn't about to end. False once terminated.
    pub fn is_empty(self) -> bool
        ensures { result ≡ is_empty (record_of self) }
    {
        let fields = unpacked(self.bits);
        !fields.ended && fields.parties == 0 && fields.unarrived == 1
    }

    /// Returns whether nobody is still to arrive, and the phase hasn't ended yet. False once terminated.
    pub fn is_turned(self) -> bool
        ensures { result ≡ (record_of self).turned }
    {
        let fields = unpacked(self.bits);
        !fields.ended && fields.unarrived == 0
    }

    /// Plays `register` if `count` is 1, and otherwise `bulkRegister(count)`. 0 parties change nothing. The first parties of an
    /// empty phaser replace the 1 in `unarrived`, which isn't a party. `Held`: Java's call would wait for the next phase.
    pub fn register(self, count: u32) -> Registered
        ensures { registration_of result ≡ register count (record_of self) }
    {
        let fields = unpacked(self.bits);
        if fields.ended {
            return Registered::Dead(self.phase_view());
        }
        if count == 0 {
            return Registered::At(self, self.phase_view());
        }
        if count > 65535 - fields.parties as u32 {
            return Registered::TooMany;
        }
        if fields.unarrived == 0 {
            return Registered::Held;
        }
        let count = count as u16;
        let awaited = if fields.parties == 0 {
            0
        } else {
            fields.unarrived
        };
        let after = Fields {
            unarrived: awaited + count,
            parties: fields.parties + count,
            ..fields
        };
        Registered::At(packed(after), self.phase_view())
    }

    /// Returns the word with one party fewer to arrive (1 less), and if the party leaves, one fewer registered (0x10000 less).
    #[inline(always)]
    fn without_one(self, leave: bool) -> Word
        requires awaited { 0 < (fields_of self).unarrived }
        requires registered { 0 < (fields_of self).parties }
        ensures { fields_of result ≡ record (fields_of self) {
          unarrived = (fields_of self).unarrived - 1;
          parties = if leave then (fields_of self).parties - 1 else (fields_of self).parties;
        } }
    {
        if leave {
            Word {
                bits: self.bits - 0x1_0001,
            }
        } else {
            Word {
                bits: self.bits - 1,
            }
        }
    }

    /// Plays `arrive`, or `arriveAndDeregister` if `leave`. After `Turned` the phase ends only when the caller calls `advance`.
    pub fn arrive(self, leave: bool) -> Arrived
        ensures { arrival_of result ≡ arrive leave (record_of self) }
    {
        let fields = unpacked(self.bits);
        if fields.ended {
            return Arrived::Dead(self.phase_view());
        }
        if fields.unarrived > 1 {
            return Arrived::Counted(self.without_one(leave));
        }
        if fields.unarrived == 0 || fields.parties == 0 {
            return Arrived::NotThere;
        }
        Arrived::Turned(self.without_one(leave))
    }

    /// Plays `arrive` for a word of an earlier phase: the word first enters the phase of `other`, in which none has arrived.
    #[inline(always)]
    pub fn arrive_anew(self, other: Word, leave: bool) -> Arrived
        ensures { arrival_of result
            ≡ arrive leave (renew (record_of other).phase (record_of self)) }
    {
        let parties = self.parties();
        let turned = Fields {
            unarrived: 0,
            parties: remaining(1, leave),
            phase: unpacked(other.bits).phase,
            ended: false,
        };
        match parties {
            1 => Arrived::Turned(packed(turned)),
            0 => Arrived::NotThere,
            _ => Arrived::Counted(packed(Fields {
                unarrived: parties - 1,
                parties: remaining(parties, leave),
                ..turned
            })),
        }
    }

    /// Moves a turned phaser to its next phase: all parties are to arrive, or if `ends`, it is terminated with `unarrived` 0.
    pub fn advance(self, ends: bool) -> Word
        requires { (record_of self).turned ≡ true }
        ensures record { record_of result ≡ advance ends (record_of self) }
        ensures lowest { ends ≡ true → (fields_of result).unarrived ≡ 0 }
    {
        let fields = unpacked(self.bits);
        packed(Fields {
            unarrived: if ends { 0 } else { all_of(fields.parties) },
            phase: self.phase().next().number() as u32,
            ended: ends,
            ..fields
        })
    }

    /// Makes a turned phaser without parties empty, and keeps its phase. A child does so when its last party has left.
    pub fn vacate(self) -> Word
        requires turned { (record_of self).turned ≡ true }
        requires no_parties { (record_of self).parties ≡ 0 }
        ensures { record_of result ≡ vacate (record_of self) }
    {
        packed(Fields {
            unarrived: 1,
            ..unpacked(self.bits)
        })
    }

    /// Returns a phaser with this word's parties at the start of `phase`, when none has arrived, and not terminated.
    pub fn renew(self, phase: Phase) -> Word
        ensures { record_of result ≡ renew phase (record_of self) }
    {
        Word::fresh(phase, self.parties())
    }

    /// Plays `forceTermination`: sets the field `ended`, and leaves the three others.
    pub fn force(self) -> Word
        ensures record { record_of result ≡ force (record_of self) }
        ensures fields { fields_of result ≡ record (fields_of self) { ended = true } }
    {
        packed(Fields {
            ended: true,
            ..unpacked(self.bits)
        })
    }
}
