//! The phaser that threads share, and its callers.
ghost use Rattle.std.specs.Prelude.{◌≡◌, IfOk, ◌↔◌};
ghost use Rattle.packed_phaser.specs.declared.policy.Policy.TheVariants.{Routine};
ghost use Rattle.shared_phaser.specs.Known.{phaser_of, newcomer, giving, given, JoinsCaller, EndsAs};

use crate::history::{Setup, View};
use crate::rule::{Both, Halves, Law, Watch};
use atomic_table::{Seat, Table};
use crossbeam_utils::CachePadded;
use crossbeam_utils::sync::EventCount;
use packed_phaser::{Policy, Word};
use phase_number::Phase;
use std::alloc::Global;
use std::marker::Model;

/// A phaser that threads share by reference: one word, number 0 of its table, which changes by compare-and-exchange.
#[derive(Drop)]
pub struct SharedPhaser {
    pub(crate) table: CachePadded<Table<(), View, Setup, Law, Global>>,
    pub(crate) policy: Policy,
    /// Counts the ends of phases: the waiters that sleep are woken at each.
    pub(crate) ended: CachePadded<EventCount>,
}

impl Model for SharedPhaser {
    ghost use Rattle.std.specs.Prelude.{◌≡◌};
    ghost use Rattle.crossbeam_utils.specs.Padded.{padded_value};
    ghost use Rattle.shared_phaser.specs.Known.{Identity};

    ghost Value = { Identity };

    ghost view = { λ p. record {
      table = (padded_value p.table).shared.table_id;
      opening = (padded_value p.table).shared.key;
    } };

    ghost invariant = { λ p. ((padded_value p.table).shared.table_id.words ≡ 1)
        × ((padded_value p.table).shared.table_id.slots ≡ 0)
        × ((padded_value p.table).shared.key.policy ≡ p.policy) };
}

/// A caller's token. Each thread that calls has its own.
#[derive(Drop)]
pub struct Party {
    pub(crate) seat: Seat<(), View>,
}

impl Model for Party {
    ghost use Rattle.std.specs.Prelude.{◌≡◌, [], true};
    ghost use Rattle.shared_phaser.specs.Known.{Caller};

    ghost Value = { Caller };

    ghost view = { λ p. record { table = p.seat.table_id; known = p.seat.me.0.known } };

    ghost invariant = { λ p. (p.seat.me.0.live ≡ true)
        × (p.seat.me.0.told ≡ [])
        × (p.seat.me.1 ≡ []) };
}

/// Why there is no shared phaser.
#[derive(Clone, Copy, PartialEq, Eq)]
pub enum NewFault {
    /// A routine is code of a program, which can't run within the one step that ends a phase.
    RoutinePolicy,
    /// There was no memory.
    Memory,
}

impl SharedPhaser {
    /// Makes a phaser in this phase, with this many parties, and its first caller. `Routine` is refused. Only this allocates.
    pub fn new(
        alloc: Global,
        parties: u16,
        policy: Policy,
        phase: Phase,
    ) -> Result<(SharedPhaser, Party), NewFault>
        ensures opened { IfOk result (λ r. r.0.opening
            ≡ record { parties = parties; phase = phase; policy = policy }) }
        ensures first { IfOk result (λ r. (r.1.table ≡ r.0.table)
            × (r.1.known ≡ newcomer r.0.opening)) }
        ensures routine { (result ≡ Err NewFault.RoutinePolicy) ↔ (policy ≡ Routine) }
    {
        if let Policy::Routine = policy {
            return Err(NewFault::RoutinePolicy);
        }
        let opening = Setup {
            parties,
            phase,
            policy,
        };
        let word = Word::fresh(phase, parties);
        let Ok((table, seat)) = Table::of_words(alloc, &[word.raw()], &opening) else {
            return Err(NewFault::Memory);
        };
        Ok((
            SharedPhaser {
                table: CachePadded::new(table),
                policy,
                ended: CachePadded::new(EventCount::new()),
            },
            Party { seat },
        ))
    }

    /// Makes another caller, for another thread. The new caller has seen what the first one has.
    pub fn split(&self, first: &mut Party) -> Party
        requires first { first.old.known.number ≡ 0 }
        requires phaser { phaser_of first.old ≡ self.now }
        ensures first { first.new ≡ record first.old { known = giving first.old.known } }
        ensures given { result ≡ record first.old { known = given first.old.known } }
    {
        let table = &*self.table;
        Party {
            seat: table.shared.split_seat::<Halves>(&mut first.seat),
        }
    }

    /// Takes in `other`, which can't call any more. The first caller keeps the other's calls, and has seen what either had
    /// seen.
    pub fn join(&self, first: &mut Party, other: Party)
        requires first { first.old.known.number ≡ 0 }
        requires phaser { phaser_of first.old ≡ self.now }
        requires other { phaser_of other ≡ self.now }
        ensures phaser { phaser_of first.new ≡ self.now }
        ensures joined { JoinsCaller first.old.known other.known first.new.known }
    {
        let table = &*self.table;
        let Party { seat } = other;
        table.shared.join_seat::<Both>(&mut first.seat, seat);
        // The loaded word isn't used: by the load, the first caller sees what the other one had seen.
        table.shared.load::<Watch>(&mut first.seat, 0);
    }

    /// Returns the phaser's last word. After this no caller can call.
    pub fn close(self, first: Party) -> Word
        requires first { first.known.number ≡ 0 }
        requires phaser { phaser_of first ≡ self }
        ensures { EndsAs first.known result }
    {
        let SharedPhaser {
            table,
            policy: _,
            ended: _,
        } = self;
        let Party { seat } = first;
        let closed = table.into_inner().close_with(seat);
        let bits = closed.word(0);
        closed.free();
        match Word::from_raw(bits) {
            Some(word) => word,
            None => unreachable!(),
        }
    }
}
