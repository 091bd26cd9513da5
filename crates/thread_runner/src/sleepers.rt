//! The workers that sleep.
ghost use Rattle.std.specs.Prelude.{◌≡◌, ◌<◌};
ghost use Rattle.cyclic_barrier.specs.ThreadSet.{has};
ghost use Rattle.machine_scene.specs.ReadySet.{IsSetAt};

use machine_scene::set_at;
use std::marker::Model;
use std::sync::Condvar;

/// The workers that were found to wait. `note` removes one that needn't wait any more, and `wake_all` wakes and removes all.
#[derive(Drop)]
pub struct Sleepers {
    /// The worker of thread `n` is the bit `1 << n`.
    noted: u64,
}

impl Model for Sleepers {
    ghost use Rattle.std.specs.Prelude.{ℕ};

    ghost Value = { ℕ };

    ghost view = { λ sleepers. sleepers.noted };
}

impl Sleepers {
    /// Makes an empty set: no worker sleeps.
    pub fn none() -> Sleepers
        ensures { result ≡ 0 }
    {
        Sleepers { noted: 0 }
    }

    /// Notes whether the worker of a thread waits, and leaves the others as they are.
    pub fn note(&mut self, thread: u8, waits: bool)
        requires { thread < 64 }
        ensures { IsSetAt thread waits self.old self.new }
    {
        self.noted = set_at(self.noted, usize::from(thread), waits);
    }

    /// Returns whether the worker of a thread is noted as one that sleeps.
    pub fn has(&self, thread: u8) -> bool
        requires { thread < 64 }
        ensures { result ≡ has self.now thread }
    {
        (self.noted >> thread) & 1 == 1
    }

    /// Wakes all workers that sleep. Each of them finds out by itself whether it still waits, and is noted again if it does.
    pub fn wake_all(&mut self, changed: &Condvar)
        ensures { self.new ≡ 0 }
    {
        changed.notify_all();
        self.noted = 0;
    }
}
