ghost use Rattle.std.specs.Prelude.{◌≡◌, ◌<◌, ◌↔◌, IsSome, IfSome};

use crate::waits::Waits;
use std::marker::Model;

mod entry;
pub mod law;
mod release;
#[cfg(test)]
mod tests;
mod wait;

/// A cyclic barrier with the threads that wait at it, which are numbers below 64. A copy is a barrier in the same state.
#[derive(Clone, Copy)]
pub struct Barrier {
    parties: u16,
    action: bool,
    broken: bool,
    runner: Option<u8>,
    waits: Waits,
}

impl Model for Barrier {
    ghost use Rattle.cyclic_barrier.specs.Barrier.{BarrierState, IsBarrier};

    ghost Value = { BarrierState };

    ghost use Rattle.cyclic_barrier.specs.Fields.{state_of_fields};

    ghost view = { state_of_fields };

    ghost invariant = { λ b. IsBarrier (state_of_fields b) };

    ghost inverse = { λ v. record {
      parties = v.parties;
      action = v.action;
      broken = v.broken;
      runner = v.runner;
      waits = v.waits;
    } };
}

impl Barrier {
    ghost use Rattle.cyclic_barrier.specs.Barrier.{fresh, number_waiting};

    /// Makes a barrier for this number of parties, with or without an action. Returns `None` for 0 parties, which Java refuses.
    pub fn new(parties: u16, action: bool) -> Option<Barrier>
        ensures some { IsSome result ↔ (0 < parties) }
        ensures fresh { IfSome result (λ b. b ≡ fresh parties action) }
    {
        if parties == 0 {
            None
        } else {
            Some(Barrier {
                parties,
                action,
                broken: false,
                runner: None,
                waits: Waits::none(),
            })
        }
    }

    /// Returns how many threads have to arrive for the barrier to trip, as `getParties` does.
    pub fn parties(&self) -> u16
        ensures { result ≡ self.now.parties }
    {
        self.parties
    }

    /// Returns whether the last thread to arrive runs an action before the others go on.
    pub fn has_action(&self) -> bool
        ensures { result ≡ self.now.action }
    {
        self.action
    }

    /// Returns whether the barrier broke since it was made or last reset, as `isBroken` does.
    pub fn is_broken(&self) -> bool
        ensures { result ≡ self.now.broken }
    {
        self.broken
    }

    /// Returns the thread that runs the action. `None`: no thread does. While one does, all other parties wait.
    pub fn runner(&self) -> Option<u8>
        ensures { result ≡ self.now.runner }
    {
        self.runner
    }

    /// Returns how many threads wait, as `getNumberWaiting` does: without those released and without the runner.
    pub fn number_waiting(&self) -> u16
        ensures { result ≡ number_waiting self.now }
    {
        self.waits.count() as u16
    }
}
