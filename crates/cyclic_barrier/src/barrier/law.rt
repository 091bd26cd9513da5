//! What is true of every barrier. Each law is the contract of a function that does nothing.
ghost use Rattle.std.specs.Prelude.{◌≡◌, ℕ, Bool};
ghost use Rattle.cyclic_barrier.specs.{Barrier.BarrierState, Barrier.IsBarrier, Barrier.fresh, WhoWaits.TellsWhoWaits};
ghost use Rattle.cyclic_barrier.specs.Past.{IsStateAfter, HasPast, FollowsPast};
ghost use Rattle.cyclic_barrier.specs.PlainBarrier as plain;

use super::Barrier;

/// A law: every barrier fulfils `IsBarrier`. Fewer threads wait than the barrier has parties, and none waits if it is broken.
/// While the action runs, all parties but the runner wait.
pub fn each_barrier_is_sound(barrier: &Barrier)
    ensures { IsBarrier barrier.now }
{
    // Reading a field tells the proof what always holds for a barrier: this is the law.
    let _parties = barrier.parties;
}

/// A law: each barrier has a past. A past says how each finished generation ended, and for which generation each thread waits.
/// A new barrier has a past without finished generations and without waits.
pub fn each_barrier_has_a_past()
    ensures new { (parties : ℕ) → (action : Bool)
        → IsStateAfter (fresh parties action) (plain.fresh parties action) }
    ensures each { (b : BarrierState) → HasPast b }
{}

/// A law: each call returns the same result for a barrier and for each past of it, and changes both in the same way. So a
/// waiting thread learns how its own generation ended, and arrival indices count down from the number of parties less one.
pub fn calls_agree_with_the_past()
    ensures { (b : BarrierState) → IsBarrier b → FollowsPast b }
{}

/// A law: `TellsWhoWaits` says for each call which threads have a wait after it, and after `enter` or `enter_timed` also which
/// thread runs the action.
pub fn calls_tell_who_waits()
    ensures { (b : BarrierState) → IsBarrier b → TellsWhoWaits b }
{}
