ghost use Rattle.std.specs.Prelude.{◌≡◌, ◌<◌, count_ones};
ghost use Rattle.cyclic_barrier.specs.ThreadSet.{has, IsUnion, IsWith, IsWithout};

/// A set of threads, which are numbers below 64: bit n is thread n.
#[derive(Clone, Copy)]
pub struct ThreadSet {
    pub bits: u64,
}

#[tactic(auto, using(crate::proofs::ThreadSetLemmas::members))]
impl ThreadSet {
    pub const EMPTY: ThreadSet = ThreadSet { bits: 0 };

    /// Returns whether the thread is in the set.
    pub fn contains(self, thread: u8) -> bool
        requires { thread < 64 }
        ensures { result ≡ has self.bits thread }
    {
        (self.bits >> thread) & 1 == 1
    }

    /// Returns the set with this thread, whether it was in it or not.
    pub fn with(self, thread: u8) -> ThreadSet
        requires { thread < 64 }
        ensures { IsWith thread self.bits result.bits }
    {
        ThreadSet {
            bits: self.bits | (1 << thread),
        }
    }

    /// Returns the set without this thread, whether it was in it or not.
    pub fn without(self, thread: u8) -> ThreadSet
        requires { thread < 64 }
        ensures { IsWithout thread self.bits result.bits }
    {
        ThreadSet {
            bits: self.bits & !(1 << thread),
        }
    }

    /// Returns the threads that are in one of the two sets, or in both.
    pub fn union(self, other: ThreadSet) -> ThreadSet
        ensures { IsUnion self.bits other.bits result.bits }
    {
        ThreadSet {
            bits: self.bits | other.bits,
        }
    }

    /// Returns the number of threads in the set.
    pub fn count(self) -> u32
        ensures { result ≡ count_ones self.bits }
    {
        self.bits.count_ones()
    }
}
