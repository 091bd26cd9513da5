//! Callers of one shared phaser, alone and between real threads.
ghost use Rattle.std.specs.Prelude.{◌≡◌, IfOk};
ghost use Rattle.shared_phaser.specs.Known.{phaser_of};

use crate::programs::refused;
use Call::{Arrive, Force, Register};
use Policy::{Default, Never, Until};
use Reply::{Counted, Dead, TooMany};
use packed_phaser::Policy;
use phase_number::Phase;
use shared_phaser::{Call, NewFault, NotThere, Party, Reply, SharedPhaser};
use std::alloc::Global;
use std::sync::Wait;
use std::test::Fail;
use std::thread::{Threads, join};

/// A phaser as it is made, and calls one after the other, each with its result and the packed state that it leaves.
type Session = (u16, i32, Policy, &'static [(Call, Reply, u64)]);

/// A terminated phaser stays terminated. At a phaser that goes on without parties nobody can arrive.
static SESSIONS: [Session; 9] = [
    (
        65535,
        0,
        Default,
        &[
            (Register(1), TooMany, 0xffffffff),
            (Register(0), Counted(0), 0xffffffff),
        ],
    ),
    (1, 7, Default, &[(Register(2), Counted(7), 0x700030003)]),
    (0, 0, Default, &[(Arrive(false), Reply::NotThere, 0x1)]),
    (1, 0, Default, &[(Arrive(false), Counted(0), 0x100010001)]),
    (
        1,
        0,
        Default,
        &[(Arrive(true), Counted(0), 0x8000000100000000)],
    ),
    (
        1,
        0,
        Until(0),
        &[(Arrive(false), Counted(0), 0x8000000100010000)],
    ),
    (
        1,
        2147483647,
        Default,
        &[(Arrive(false), Counted(2147483647), 0x10001)],
    ),
    (
        2,
        3,
        Default,
        &[
            (Force, Dead(-2147483645), 0x8000000300020002),
            (Force, Dead(-2147483645), 0x8000000300020002),
            (Arrive(false), Dead(-2147483645), 0x8000000300020002),
        ],
    ),
    (
        1,
        0,
        Never,
        &[
            (Arrive(true), Counted(0), 0x100000001),
            (Arrive(false), Reply::NotThere, 0x100000001),
        ],
    ),
];

/// Returns the result of `call` in one try. `None`: another caller came first, or `call` isn't one of these three calls.
fn tried(phaser: &SharedPhaser, party: &mut Party, call: Call) -> Option<Reply>
    requires { phaser_of party.old ≡ phaser.now }
    ensures { phaser_of party.new ≡ phaser.now }
{
    let made = match call {
        Register(parties) => phaser.register_within(party, parties, 1),
        Arrive(leave) => phaser.arrive_within(party, leave, 1),
        Force => phaser.force_within(party, 1),
        _ => return None,
    };
    made.ok()
}

/// Returns whether each of `calls`, made one after the other in one try, has its result and leaves its word.
fn go_on(phaser: &SharedPhaser, party: &mut Party, calls: &[(Call, Reply, u64)]) -> bool
    requires { phaser_of party.old ≡ phaser.now }
{
    let Some((first, rest)) = calls.split_first() else {
        return true;
    };
    let (call, reply, word) = *first;
    tried(phaser, party, call) == Some(reply)
        && phaser.look(party).raw() == word
        && go_on(phaser, party, rest)
}

/// Checks that each call of a session has its result and leaves its word.
#[test]
fn calls_in_a_row(rt: HostRuntime) -> Result<(), Fail> {
    for (parties, phase, policy, calls) in &SESSIONS {
        let phase = Phase::prevailing(*phase);
        let (phaser, mut party) = SharedPhaser::new(rt.alloc(), *parties, *policy, phase).map_err(
            |_| refused(),
        )?;
        assert!(rt; go_on(&phaser, &mut party, *calls), "{parties}");
    }
    Ok(())
}

/// Checks that a shared phaser can't have rows of a program as its `onAdvance`.
#[test]
fn a_routine_is_refused(rt: HostRuntime) {
    let answer = SharedPhaser::new(rt.alloc(), 1, Policy::Routine, Phase::prevailing(0));
    assert!(rt; answer.err() == Some(NewFault::RoutinePolicy));
}

/// Makes a phaser in phase 0, and its first caller: a `Party` is what a caller needs for its calls.
fn new_phaser(alloc: Global, parties: u16) -> Result<(SharedPhaser, Party), Fail>
    ensures { IfOk result (λ r. (phaser_of r.1 ≡ r.0) × (r.1.known.number ≡ 0)) }
{
    SharedPhaser::new(alloc, parties, Default, Phase::prevailing(0)).map_err(|_| refused())
}

/// Checks that no call waits on a terminated phaser: each returns the view.
#[test]
fn a_terminated_phaser_stays_so(rt: HostRuntime) -> Result<(), Fail> {
    let (phaser, mut party) = new_phaser(rt.alloc(), 2)?;
    assert!(rt; phaser.force_within(&mut party, 1) == Ok(Dead(-2147483648)));
    assert!(rt; phaser.await_advance(&rt, &mut party, 0) == -2147483648);
    assert!(rt; phaser.arrive_and_await_advance(&rt, &mut party) == Ok(-2147483648));
    Ok(())
}

/// Checks that the only party doesn't wait for a negative phase, for another one than the present, or after its arrival. A
/// party that isn't registered can't arrive, so it doesn't wait either.
#[test]
fn nobody_waits_without_need(rt: HostRuntime) -> Result<(), Fail> {
    let (phaser, mut party) = new_phaser(rt.alloc(), 1)?;
    assert!(rt; phaser.await_advance(&rt, &mut party, -5) == -5);
    assert!(rt; phaser.await_advance(&rt, &mut party, 3) == 0);
    assert!(rt; phaser.arrive_and_await_advance(&rt, &mut party) == Ok(1));
    assert!(rt; phaser.arrive_and_deregister(&rt, &mut party) == Counted(1));
    let (phaser, mut stray) = new_phaser(rt.alloc(), 0)?;
    assert!(rt; phaser.arrive_and_await_advance(&rt, &mut stray) == Err(NotThere));
    Ok(())
}

/// Checks the calls that try until they have a reply: one party meets itself, a second one comes, one of both leaves, and the
/// phaser is terminated in phase 2.
#[test]
fn calls_are_made_whatever_it_takes(rt: HostRuntime) -> Result<(), Fail> {
    let (phaser, mut party) = new_phaser(rt.alloc(), 1)?;
    assert!(rt; phaser.arrive_and_await_advance(&rt, &mut party) == Ok(1));
    assert!(rt; phaser.register(&rt, &mut party, 1) == Counted(1));
    assert!(rt; phaser.arrive_and_deregister(&rt, &mut party) == Counted(1));
    assert!(rt; phaser.arrive(&rt, &mut party) == Counted(1));
    assert!(rt; phaser.force(&rt, &mut party) == Dead(-2147483646));
    assert!(rt; phaser.close(party).parties() == 1);
    Ok(())
}

/// Checks that the first caller sees what a second one has registered.
#[test]
fn two_callers_of_one_phaser(rt: HostRuntime) -> Result<(), Fail> {
    let (phaser, mut first) = new_phaser(rt.alloc(), 1)?;
    let mut second = phaser.split(&mut first);
    assert!(rt; phaser.register_within(&mut second, 2, 1) == Ok(Counted(0)));
    assert!(rt; phaser.look(&mut first).parties() == 3);
    Ok(())
}

/// Checks that `close` returns the packed state: two parties in phase 1 after two arrivals, in phase 0 after none.
#[test]
fn closed_words(rt: HostRuntime) -> Result<(), Fail> {
    let (phaser, mut first) = new_phaser(rt.alloc(), 2)?;
    let mut second = phaser.split(&mut first);
    assert!(rt; phaser.arrive_within(&mut first, false, 1) == Ok(Counted(0)));
    assert!(rt; phaser.arrive_within(&mut second, false, 1) == Ok(Counted(0)));
    phaser.join(&mut first, second);
    assert!(rt; phaser.close(first).raw() == 0x100020002);
    let (phaser, first) = new_phaser(rt.alloc(), 2)?;
    assert!(rt; phaser.close(first).raw() == 0x20002);
    Ok(())
}

/// Has one thread wait for the end of phase 0, which has one party, and another make `call`. Returns both results. `None`: the
/// phaser can't be made, since it is out of memory.
fn released<R: Threads + Wait + Sync>(
    rt: &R,
    alloc: Global,
    call: Call,
) -> Option<(i32, Option<Reply>)> {
    let (phaser, mut first) = SharedPhaser::new(alloc, 1, Default, Phase::prevailing(0)).ok()?;
    let mut second = phaser.split(&mut first);
    let shared = &phaser;
    let waiting = &mut first;
    let calling = &mut second;
    Some(join(
        rt,
        move || shared.await_advance(rt, waiting, 0),
        move || tried(shared, calling, call),
    ))
}

/// The call, its result, and what the waiting thread gets.
static RELEASING: [(Call, Reply, i32); 3] = [
    (Arrive(false), Counted(0), 1),
    (Arrive(true), Counted(0), -2147483647),
    (Force, Dead(-2147483648), -2147483648),
];

/// Checks that a call that ends the phase or the phaser releases a waiting thread, whose wait returns the view after that.
#[test]
fn who_waits_is_released(rt: HostRuntime) {
    for (call, reply, told) in &RELEASING {
        let both = released(&rt, rt.alloc(), *call);
        assert!(rt; both == Some((*told, Some(*reply))), "{told}");
    }
}
