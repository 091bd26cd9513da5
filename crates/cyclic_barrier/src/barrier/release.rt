ghost use Rattle.std.specs.Prelude.{◌≡◌, None};
ghost use Rattle.cyclic_barrier.specs.Barrier.{trip, break, reset};

use super::Barrier;

/// The generation under way ends, and all who wait are released.
impl Barrier {
    /// Plays `reset`: the waiting threads are released as if the barrier broke. After that, the barrier isn't broken.
    pub fn reset(&mut self)
        requires { self.old.runner ≡ None }
        ensures { self.new ≡ reset self.old }
    {
        self.break_barrier();
        self.broken = false;
    }

    /// Ends the generation without a breakage: the waiting threads are released, and their `await` returns.
    pub(super) fn trip(&mut self)
        requires { self.old.runner ≡ None }
        ensures { self.new ≡ trip self.old }
    {
        self.waits.trip();
    }

    /// Ends the generation as broken: the waiting threads are released with an exception, and the barrier stays broken.
    pub(super) fn break_barrier(&mut self)
        requires { self.old.runner ≡ None }
        ensures { self.new ≡ break self.old }
    {
        self.waits.break_all();
        self.broken = true;
    }
}
