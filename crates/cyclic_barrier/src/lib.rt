//! Java's `CyclicBarrier`, played one call at a time. A `Barrier` is a value. It is copied like a number, and needs no memory
//! from the heap.
//!
//! No call waits. If the thread has to wait, `enter` returns the thread's arrival index, and the barrier stores the wait.
//! Later, `look` returns the state of this wait. The contract of each call is one equation. It gives the result and the new
//! state as plain values.
//!
//! A generation is one round of arrivals. It ends when the barrier trips or breaks. The *past* of a barrier says how each
//! finished generation ended, and for which generation each thread waits. Laws about pasts say that each waiting thread
//! learns how its own generation ended, as in Java.
#![tactic(auto)]

mod answer;
mod barrier;
mod thread_set;
mod waits;

pub use answer::{Entered, WaitState};
pub use barrier::Barrier;
pub use barrier::law::{
    calls_agree_with_the_past, calls_tell_who_waits, each_barrier_has_a_past, each_barrier_is_sound,
};
