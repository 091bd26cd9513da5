//! Tests: tables of calls at one barrier, each with its result and what the barrier shows after it.
ghost use Rattle.std.specs.Prelude.{◌≡◌, ◌≢◌, ◌<◌, true, Some, None};
ghost use Rattle.cyclic_barrier.specs.{declared.answer.WaitState.TheVariants.Waiting, Waits.wait_at};

use super::Barrier;
use crate::answer::{Entered, WaitState};
use std::process::Abort;

/// A call, with the thread that makes it and its result. `EnterLate` has no time left. `EndAction` says if the action returned.
#[derive(Clone, Copy)]
enum Call {
    Enter(u8, Entered),
    EnterInterrupted(u8, Entered),
    EnterLate(u8, Entered),
    EnterLateInterrupted(u8, Entered),
    EndAction(bool),
    Look(u8, WaitState),
    Leave(u8),
    Interrupt(u8),
    Expire(u8),
    Reset,
}

/// A call, and then whether the barrier is broken and how many wait.
type Row = (Call, bool, u16);

impl Barrier {
    /// Whether `enter` may be called for the thread: there is such a thread, and it has no wait.
    fn has_no_wait(&self, thread: u8) -> bool
        ensures { result ≡ true → (thread < 64) × (wait_at self.now.waits thread ≡ None) }
    {
        thread < 64 && self.waits.get(thread).is_none()
    }

    /// Whether `look` may be called for the thread: it waits or was released.
    fn has_a_wait(&self, thread: u8) -> bool
        ensures { result ≡ true → (thread < 64) × (wait_at self.now.waits thread ≢ None) }
    {
        thread < 64 && self.waits.get(thread).is_some()
    }

    /// Whether the thread has a wait that a trip, a breakage or a reset released, so that it may `leave`.
    fn was_released(&self, thread: u8) -> bool
        ensures { result ≡ true → (thread < 64) × (wait_at self.now.waits thread ≢ Some Waiting) }
    {
        thread < 64
            && match self.waits.get(thread) {
                Some(WaitState::Tripped) | Some(WaitState::Broken) => true,
                _ => false,
            }
    }

    /// Whether the thread waits while no thread runs the action, so that `interrupt` and `expire` may be called.
    fn may_break(&self, thread: u8) -> bool
        ensures { result ≡ true → (thread < 64)
            × ((wait_at self.now.waits thread ≡ Some Waiting) × (self.now.runner ≡ None)) }
    {
        thread < 64
            && match self.waits.get(thread) {
                Some(WaitState::Waiting) => self.runner.is_none(),
                _ => false,
            }
    }
}

/// Calls `enter_timed` if it may be called, and says whether it returned this result.
fn enters(
    barrier: &mut Barrier,
    thread: u8,
    interrupted: bool,
    no_wait: bool,
    answer: Entered,
) -> bool {
    barrier.has_no_wait(thread) && barrier.enter_timed(thread, interrupted, no_wait) == answer
}

/// Says whether the thread has a wait in this state.
fn finds(barrier: &Barrier, thread: u8, state: WaitState) -> bool {
    barrier.has_a_wait(thread) && barrier.look(thread) == state
}

/// Calls `end_action` if a thread runs the action, and says whether it did.
fn ends_action(barrier: &mut Barrier, returned: bool) -> bool {
    if barrier.runner().is_none() {
        return false;
    }
    barrier.end_action(returned);
    true
}

/// Calls `leave` if the thread was released, and says whether it did.
fn leaves(barrier: &mut Barrier, thread: u8) -> bool {
    if !barrier.was_released(thread) {
        return false;
    }
    barrier.leave(thread);
    true
}

/// Calls `interrupt` if the thread waits and no thread runs the action, and says whether it did.
fn is_interrupted(barrier: &mut Barrier, thread: u8) -> bool {
    if !barrier.may_break(thread) {
        return false;
    }
    barrier.interrupt(thread);
    true
}

/// Calls `expire` if the thread waits and no thread runs the action, and says whether it did.
fn expires(barrier: &mut Barrier, thread: u8) -> bool {
    if !barrier.may_break(thread) {
        return false;
    }
    barrier.expire(thread);
    true
}

/// Calls `reset` unless a thread runs the action, and says whether it did.
fn is_reset(barrier: &mut Barrier) -> bool {
    if barrier.runner().is_some() {
        return false;
    }
    barrier.reset();
    true
}

/// Makes the call, if it may be made, and says whether it was made and returned the result in `call`.
fn agrees(barrier: &mut Barrier, call: &Call) -> bool {
    match *call {
        Call::Enter(thread, answer) => {
            barrier.has_no_wait(thread) && barrier.enter(thread, false) == answer
        }
        Call::EnterInterrupted(thread, answer) => {
            barrier.has_no_wait(thread) && barrier.enter(thread, true) == answer
        }
        Call::EnterLate(thread, answer) => enters(barrier, thread, false, true, answer),
        Call::EnterLateInterrupted(thread, answer) => enters(barrier, thread, true, true, answer),
        Call::EndAction(returned) => ends_action(barrier, returned),
        Call::Look(thread, state) => finds(barrier, thread, state),
        Call::Leave(thread) => leaves(barrier, thread),
        Call::Interrupt(thread) => is_interrupted(barrier, thread),
        Call::Expire(thread) => expires(barrier, thread),
        Call::Reset => is_reset(barrier),
    }
}

/// Makes the call, says whether it returned the result in `call`, and then puts back the barrier as it was.
fn agrees_and_goes_back(barrier: &mut Barrier, call: &Call) -> bool
    ensures { barrier.new ≡ barrier.old }
{
    let saved = *barrier;
    let answered = agrees(barrier, call);
    *barrier = saved;
    answered
}

/// Says whether the barrier is broken, and how many threads wait, as expected.
fn is_at(barrier: &Barrier, broken: bool, waiting: u16) -> bool {
    barrier.is_broken() == broken && barrier.number_waiting() == waiting
}

/// Makes a barrier, and panics if `parties` is 0.
fn new_barrier(rt: &impl Abort, parties: u16, action: bool) -> Barrier {
    match Barrier::new(parties, action) {
        Some(barrier) => barrier,
        None => panic!(rt; "no barrier of {parties}"),
    }
}

/// Makes the calls in order at a new barrier, each twice: first undone, then kept. Panics at a row that doesn't agree.
fn check(rt: &impl Abort, parties: u16, action: bool, rows: &[Row]) {
    let mut barrier = new_barrier(rt, parties, action);
    for (row, (call, broken, waiting)) in rows.iter().enumerate() {
        let back = agrees_and_goes_back(&mut barrier, call);
        let again = agrees(&mut barrier, call);
        assert!(rt;
            back && again && is_at(&barrier, *broken, *waiting),
            "row {row}"
        );
    }
}

// No barrier has 0 parties. Others have the parties and the action that they were made with.
#[test]
fn parties_and_action(rt: HostRuntime) {
    assert!(rt; Barrier::new(0, false).is_none() && Barrier::new(0, true).is_none());
    let barrier = new_barrier(&rt, 65535, true);
    assert!(rt; barrier.parties() == 65535 && barrier.has_action());
}

// The last thread runs the action while the others wait, and a thread that comes meanwhile finds the barrier busy.
#[test]
fn action_runs_before_the_others_go_on(rt: HostRuntime) {
    let rows = [
        (Call::Enter(0, Entered::Wait(2)), false, 1),
        (Call::Enter(1, Entered::Wait(1)), false, 2),
        (Call::Enter(2, Entered::Run), false, 2),
        (Call::Look(0, WaitState::Waiting), false, 2),
        (Call::Enter(3, Entered::Busy), false, 2),
        (Call::EnterLateInterrupted(3, Entered::Busy), false, 2),
        (Call::Enter(2, Entered::Own), false, 2),
        (Call::EndAction(true), false, 0),
        (Call::Look(1, WaitState::Tripped), false, 0),
        (Call::Leave(1), false, 0),
        (Call::Look(0, WaitState::Tripped), false, 0),
        (Call::Leave(0), false, 0),
    ];
    check(&rt, 3, true, &rows);
}

// If the action throws, the barrier breaks.
#[test]
fn action_that_throws_breaks_the_barrier(rt: HostRuntime) {
    let rows = [
        (Call::Enter(0, Entered::Wait(1)), false, 1),
        (Call::EnterLate(1, Entered::Run), false, 1),
        (Call::EndAction(false), true, 0),
        (Call::Look(0, WaitState::Broken), true, 0),
        (Call::Leave(0), true, 0),
    ];
    check(&rt, 2, true, &rows);
}

// An interrupt breaks the barrier for all, until a reset.
#[test]
fn interrupt_of_a_waiter_breaks_the_barrier(rt: HostRuntime) {
    let rows = [
        (Call::Enter(0, Entered::Wait(2)), false, 1),
        (Call::Enter(1, Entered::Wait(1)), false, 2),
        (Call::Interrupt(0), true, 0),
        (Call::Look(1, WaitState::Broken), true, 0),
        (Call::Leave(1), true, 0),
        (Call::Enter(2, Entered::Broken), true, 0),
        (Call::EnterInterrupted(2, Entered::Broken), true, 0),
        (Call::Reset, false, 0),
        (Call::Enter(3, Entered::Wait(2)), false, 1),
        (Call::Enter(4, Entered::Wait(1)), false, 2),
        (Call::Enter(2, Entered::Tripped), false, 0),
    ];
    check(&rt, 3, false, &rows);
}

// A thread without time breaks the barrier, unless it is the last, or the barrier is broken, or it is interrupted.
#[test]
fn wait_without_time_breaks_the_barrier(rt: HostRuntime) {
    let rows = [
        (Call::Enter(0, Entered::Wait(2)), false, 1),
        (Call::EnterLate(1, Entered::TimedOut), true, 0),
        (Call::Look(0, WaitState::Broken), true, 0),
        (Call::Leave(0), true, 0),
        (Call::EnterLate(1, Entered::Broken), true, 0),
        (Call::EnterLateInterrupted(1, Entered::Broken), true, 0),
        (Call::Reset, false, 0),
        (Call::EnterLateInterrupted(1, Entered::Interrupted), true, 0),
        (Call::Reset, false, 0),
        (Call::Enter(0, Entered::Wait(2)), false, 1),
        (Call::Enter(1, Entered::Wait(1)), false, 2),
        (Call::EnterLate(2, Entered::Tripped), false, 0),
        (Call::Leave(0), false, 0),
        (Call::Enter(0, Entered::Wait(2)), false, 1),
        (Call::Enter(3, Entered::Wait(1)), false, 2),
        (Call::Expire(3), true, 0),
        (Call::Look(0, WaitState::Broken), true, 0),
        (Call::Look(1, WaitState::Tripped), true, 0),
        (Call::Enter(3, Entered::Broken), true, 0),
    ];
    check(&rt, 3, false, &rows);
}

// A thread that looks late finds how its own generation ended, whatever has happened since.
#[test]
fn each_waiter_finds_its_own_generation(rt: HostRuntime) {
    let rows = [
        (Call::Enter(0, Entered::Wait(1)), false, 1),
        (Call::Enter(1, Entered::Tripped), false, 0),
        (Call::Enter(2, Entered::Wait(1)), false, 1),
        (Call::Enter(3, Entered::Tripped), false, 0),
        (Call::Enter(4, Entered::Wait(1)), false, 1),
        (Call::EnterInterrupted(5, Entered::Interrupted), true, 0),
        (Call::Reset, false, 0),
        (Call::Enter(63, Entered::Wait(1)), false, 1),
        (Call::Reset, false, 0),
        (Call::Enter(6, Entered::Wait(1)), false, 1),
        (Call::Look(0, WaitState::Tripped), false, 1),
        (Call::Look(2, WaitState::Tripped), false, 1),
        (Call::Look(4, WaitState::Broken), false, 1),
        (Call::Look(63, WaitState::Broken), false, 1),
        (Call::Look(6, WaitState::Waiting), false, 1),
        (Call::Leave(4), false, 1),
        (Call::Enter(4, Entered::Tripped), false, 0),
        (Call::Look(63, WaitState::Broken), false, 0),
        (Call::Look(0, WaitState::Tripped), false, 0),
    ];
    check(&rt, 2, false, &rows);
}

// A barrier of 64 parties trips at the last of 64 threads.
#[test]
fn sixty_four_threads(rt: HostRuntime) {
    let mut barrier = new_barrier(&rt, 64, false);
    for thread in 0..63 {
        let call = Call::Enter(thread, Entered::Wait(63 - thread as u16));
        assert!(rt; agrees(&mut barrier, &call));
    }
    assert!(rt; agrees(&mut barrier, &Call::Enter(63, Entered::Tripped)));
    for thread in 0..63 {
        assert!(rt; finds(&barrier, thread, WaitState::Tripped) && leaves(&mut barrier, thread));
    }
}

// 64 threads never trip a barrier of 65535 parties. A reset releases them, and each finds the barrier broken.
#[test]
fn more_parties_than_threads(rt: HostRuntime) {
    let mut barrier = new_barrier(&rt, 65535, false);
    for thread in 0..64 {
        let call = Call::Enter(thread, Entered::Wait(65534 - thread as u16));
        assert!(rt; agrees(&mut barrier, &call));
    }
    assert!(rt; is_at(&barrier, false, 64) && is_reset(&mut barrier));
    for thread in 0..64 {
        assert!(rt; finds(&barrier, thread, WaitState::Broken));
    }
}
