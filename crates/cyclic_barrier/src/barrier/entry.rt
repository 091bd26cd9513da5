ghost use Rattle.std.specs.Prelude.{◌≡◌, ◌+◌, ◌<◌, false, IsSome, None};
ghost use Rattle.cyclic_barrier.specs.Waits.{wait_at};
ghost use Rattle.cyclic_barrier.specs.Barrier.{number_waiting, enter, enter_timed, end_action, arrive, arrive_last, add_wait};

use super::Barrier;
use crate::answer::Entered;

/// A thread comes to the barrier, and runs its action if it is the last.
impl Barrier {
    /// Plays `await` up to where it would wait. The thread arrives, or the result says why not. `interrupted` is the thread's
    /// interrupted status, which the caller clears if the result is `Interrupted`. `Busy` and `Own` change nothing.
    pub fn enter(&mut self, thread: u8, interrupted: bool) -> Entered
        requires thread { thread < 64 }
        requires no_wait { wait_at self.old.waits thread ≡ None }
        ensures barrier { self.new ≡ (enter thread interrupted self.old).barrier }
        ensures answer { result ≡ (enter thread interrupted self.old).answer }
    {
        // `false`: the thread may wait.
        self.enter_timed(thread, interrupted, false)
    }

    /// Plays `await` with a time, up to where it would wait. `no_wait` says that no time is left: then a thread that would wait
    /// breaks the barrier, and the result is `TimedOut`.
    pub fn enter_timed(&mut self, thread: u8, interrupted: bool, no_wait: bool) -> Entered
        requires thread { thread < 64 }
        requires no_wait { wait_at self.old.waits thread ≡ None }
        ensures barrier { self.new ≡ (enter_timed thread interrupted no_wait self.old).barrier }
        ensures answer { result ≡ (enter_timed thread interrupted no_wait self.old).answer }
    {
        match self.runner {
            Some(runner) if runner == thread => Entered::Own,
            Some(_) => Entered::Busy,
            None => self.arrive(thread, interrupted, no_wait),
        }
    }

    /// Ends the runner's action. If the action returned, the barrier trips. If it threw, the barrier breaks.
    pub fn end_action(&mut self, returned: bool)
        requires { IsSome self.old.runner }
        ensures { self.new ≡ end_action returned self.old }
    {
        self.runner = None;
        if returned {
            self.trip();
        } else {
            self.break_barrier();
        }
    }

    /// Plays `await` while no thread runs the action. It checks in this order: broken, interrupted, last to arrive, no time.
    fn arrive(&mut self, thread: u8, interrupted: bool, no_wait: bool) -> Entered
        requires thread { thread < 64 }
        requires no_wait { wait_at self.old.waits thread ≡ None }
        requires no_runner { self.old.runner ≡ None }
        ensures barrier { self.new ≡ (arrive thread interrupted no_wait self.old).barrier }
        ensures answer { result ≡ (arrive thread interrupted no_wait self.old).answer }
    {
        if self.broken {
            Entered::Broken
        } else if interrupted {
            self.break_barrier();
            Entered::Interrupted
        } else if self.number_waiting() + 1 == self.parties {
            self.arrive_last(thread)
        } else if no_wait {
            self.break_barrier();
            Entered::TimedOut
        } else {
            self.add_wait(thread)
        }
    }

    /// Lets the last thread arrive. If the barrier has an action, this thread runs it next (`Run`). If not, the barrier trips.
    fn arrive_last(&mut self, thread: u8) -> Entered
        requires no_runner { self.old.runner ≡ None }
        requires whole { self.old.broken ≡ false }
        requires last { number_waiting self.old + 1 ≡ self.old.parties }
        ensures barrier { self.new ≡ (arrive_last thread self.old).barrier }
        ensures answer { result ≡ (arrive_last thread self.old).answer }
    {
        if self.action {
            self.runner = Some(thread);
            Entered::Run
        } else {
            self.trip();
            Entered::Tripped
        }
    }

    /// Lets a thread that isn't the last begin to wait. Returns `Wait` with its arrival index: how many are still to arrive.
    fn add_wait(&mut self, thread: u8) -> Entered
        requires thread { thread < 64 }
        requires no_wait { wait_at self.old.waits thread ≡ None }
        requires no_runner { self.old.runner ≡ None }
        requires whole { self.old.broken ≡ false }
        requires early { number_waiting self.old + 1 < self.old.parties }
        ensures barrier { self.new ≡ (add_wait thread self.old).barrier }
        ensures answer { result ≡ (add_wait thread self.old).answer }
    {
        let index = self.parties - 1 - self.number_waiting();
        self.waits.begin(thread);
        Entered::Wait(index)
    }
}
