ghost use Rattle.std.specs.Prelude.{◌<◌};
ghost use Rattle.machine_scene.specs.ReadySet.{IsSetAt};

/// Two sets of threads, with bit n for thread n. Those in `turns` can take their turn. Those in `registering` are about to
/// register at a phaser: any arrival may change whether they can take their turn.
#[derive(Clone, Copy)]
pub struct ReadySet {
    pub turns: u64,
    pub registering: u64,
}

/// Returns the set with this thread if `within` is true, and otherwise without it.
#[inline(always)]
#[tactic(auto, using(crate::proofs::ThreadSets::set_at))]
pub fn set_at(set: u64, thread: usize, within: bool) -> u64
    requires { thread < 64 }
    ensures { IsSetAt thread within set result }
{
    if within {
        set | (1 << thread)
    } else {
        set & !(1 << thread)
    }
}
