//! What is true of every live run. Each law is the contract of a function that does nothing.
ghost use Rattle.std.specs.Prelude.{◌≡◌, ◌<◌, ◌++◌, ◌∷◌, ℕ, List, true, false, Option, None, length};
ghost use Rattle.thread_machine.specs.{World.World, Execution.execution, declared.choice.Choice.Choice};
ghost use Rattle.thread_runner.specs.{declared.live.Break.Break, Endings.ending_of, Replay.IsReplay, Waiting.waits};
ghost use Rattle.thread_runner.specs.Turns.{expiry_of, is_ready_in, may_choose};

/// A law: if a run isn't over, some thread has a choice to make.
pub fn a_run_goes_on_or_is_over()
    ensures { (world : World) → ending_of world ≡ None
        → (t : ℕ) × (t < length world.scene.threads) × (may_choose world t ≡ true) }
{}

/// A law: in each state of a run, at least one worker doesn't wait.
pub fn some_worker_does_not_wait()
    ensures { (broken : Option Break) (world : World) → 0 < length world.scene.threads
        → ((t : ℕ) → t < length world.scene.threads → waits broken world t ≡ true) → ⊥ }
{}

/// A law: in the record of a run, no wait times out while a thread is ready.
pub fn no_time_passes_while_a_thread_is_ready()
    ensures { (first last : World) (before rest : List Choice) (waiting t : ℕ)
        → IsReplay (record { first = first; choices = before ++ expiry_of waiting ∷ rest }) last
        → t < length (execution first before).world.scene.threads
        → is_ready_in (execution first before).world t ≡ false }
{}
