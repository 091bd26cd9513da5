ghost use Rattle.std.specs.Prelude.{◌≡◌, ◌≢◌, ◌<◌, Some, None};
ghost use Rattle.cyclic_barrier.specs.{declared.answer.WaitState.TheVariants.Waiting, Waits.wait_at};
ghost use Rattle.cyclic_barrier.specs.Barrier.{leave, interrupt, expire};

use super::Barrier;
use crate::answer::WaitState;

/// A waiting thread asks for the state of its wait, and ends the wait.
impl Barrier {
    /// Returns whether the thread still waits, or how it was released. `None`: the thread has no wait here.
    pub fn wait(&self, thread: u8) -> Option<WaitState>
        requires { thread < 64 }
        ensures { result ≡ wait_at self.now.waits thread }
    {
        self.waits.get(thread)
    }

    /// Returns whether the thread still waits, or how it was released. Its caller knows that the thread has a wait here.
    pub fn look(&self, thread: u8) -> WaitState
        requires thread { thread < 64 }
        requires wait { wait_at self.now.waits thread ≢ None }
        ensures { Some result ≡ wait_at self.now.waits thread }
    {
        match self.waits.get(thread) {
            Some(state) => state,
            None => unreachable!(),
        }
    }

    /// Forgets the wait of a released thread, whose `await` returns. Without a wait nothing changes.
    pub fn leave(&mut self, thread: u8)
        requires thread { thread < 64 }
        requires released { wait_at self.old.waits thread ≢ Some Waiting }
        ensures { self.new ≡ leave thread self.old }
    {
        self.waits.end(thread);
    }

    /// Interrupts a waiting thread: the barrier breaks, and the thread's wait is forgotten (`InterruptedException`).
    pub fn interrupt(&mut self, thread: u8)
        requires thread { thread < 64 }
        requires waiting { wait_at self.old.waits thread ≡ Some Waiting }
        requires no_runner { self.old.runner ≡ None }
        ensures { self.new ≡ interrupt thread self.old }
    {
        self.break_barrier();
        self.leave(thread);
    }

    /// Lets a waiting thread's time run out. It does to the barrier what `interrupt` does: only the exception is another one.
    pub fn expire(&mut self, thread: u8)
        requires thread { thread < 64 }
        requires waiting { wait_at self.old.waits thread ≡ Some Waiting }
        requires no_runner { self.old.runner ≡ None }
        ensures { self.new ≡ expire thread self.old }
    {
        self.interrupt(thread);
    }
}
