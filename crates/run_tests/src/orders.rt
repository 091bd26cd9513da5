//! Live runs in an order that a gate forces: each worker passes the gate before each of its steps.
use crate::programs::program_of;
use std::alloc::{AllocError, Global};
use std::sync::Wait;
use std::sync::atomic::{AtomicBool, AtomicU32, Ordering};
use std::test::Fail;
use std::thread;
use std::thread::Threads;
use thread_runner::{Ending, Gate, LiveRun, run_live};

/// How often a gate looks before it gives up.
const MOST_LOOKS: u32 = 100_000_000;

/// A gate that forces the threads' first steps into an order: `order`, a schedule. A worker passes the gate before each step.
/// Each pass waits until all steps before its own in `order` are done. A step counts as done when the next pass of its thread
/// has begun. Each pass also waits until the first passes of all threads below `meeting` have begun.
#[derive(Drop)]
struct Script {
    order: &'static str,
    meeting: u8,
    begun: [AtomicU32; 64],
    failed: AtomicBool,
}

impl Script {
    /// Returns a script in which no pass has begun.
    fn of(order: &'static str, meeting: u8) -> Script {
        Script {
            order,
            meeting,
            begun: [0; 64].map(AtomicU32::new),
            failed: AtomicBool::new(false),
        }
    }

    /// Returns how many passes of a thread have begun: 0 if its number is above 63.
    fn begun(&self, thread: u8) -> u32 {
        match self.begun.get(usize::from(thread)) {
            Some(begun) => begun.load(Ordering::SeqCst),
            None => 0,
        }
    }

    /// Waits until `passes` passes of `thread` have begun. After `MOST_LOOKS` looks it gives up, and notes this in `failed`.
    fn hold(&self, thread: u8, passes: u32) {
        for _ in 0..MOST_LOOKS {
            if self.begun(thread) >= passes {
                return;
            }
            thread::yield_now();
        }
        self.failed.store(true, Ordering::SeqCst);
    }
}

impl Gate for Script {
    /// Notes that a pass of `thread` has begun. Then waits for the first passes of the threads below `meeting`, and until the
    /// steps before this one in `order` are done: each other thread has begun one pass more than it has steps there.
    fn pass(&self, thread: u8, step: u32) {
        if let Some(begun) = self.begun.get(usize::from(thread)) {
            begun.store(step.saturating_add(1), Ordering::SeqCst);
        }
        for other in 0..self.meeting {
            self.hold(other, 1);
        }
        let mut steps = [0u32; 64];
        for digit in self.order.bytes().filter(u8::is_ascii_digit) {
            let other = digit - b'0';
            let Some(taken) = steps.get_mut(usize::from(other)) else {
                return;
            };
            if other == thread && *taken == step {
                return;
            }
            *taken = taken.saturating_add(1);
            let passes = taken.saturating_add(1);
            if other != thread {
                self.hold(other, passes);
            }
        }
    }
}

/// Plays `text` live, with 1,000,000 steps at most, and held by `gate`. Fails if the gate gives up, or if not all threads end.
fn run_of<R: Threads + Wait + Sync>(
    rt: &R,
    alloc: Global,
    text: &str,
    gate: &Script,
) -> Result<LiveRun, Fail> {
    let run = run_live(rt, alloc, program_of(alloc, text)?, 1_000_000, gate);
    let run = run.ok().ok_or("no run")?;
    if gate.failed.load(Ordering::SeqCst) || run.ending != Ending::AllEnded {
        return Err(Fail::new("out of order"));
    }
    Ok(run)
}

const TWO: &str = ".thread a m\n.thread b m\nm: ldi r0 1\nldi r0 2\nhalt\n";

const THREE: &str = ".thread a m\n.thread b m\n.thread c m\nm: ldi r0 1\nldi r0 2\nhalt\n";

/// The last thread to come doesn't wait. The two others have one step more: the end of their wait.
const MEETING: &str = ".phaser p 3\n.thread a m\n.thread b m\n.thread c m\nm: paaa r0 p\nhalt\n";

/// A program, and the order of its threads' steps, which is its schedule.
static ORDERS: [(&str, &str); 8] = [
    (TWO, "t0 t1 t0 t1 t1 t0"),
    (TWO, "t1 t0 t0 t1 t1 t0"),
    (TWO, "t0 t0 t0 t1 t1 t1"),
    (TWO, "t1 t1 t1 t0 t0 t0"),
    (THREE, "t1 t1 t1 t2 t2 t2 t0 t0 t0"),
    (THREE, "t2 t0 t0 t1 t2 t1 t0 t1 t2"),
    (MEETING, "t0 t1 t2 t1 t0 t2 t1 t0"),
    (MEETING, "t1 t2 t0 t2 t2 t1 t1 t0"),
];

/// Checks that workers step in the order of the gate's script, so that their record is this script.
#[test]
fn workers_step_in_the_order_that_a_gate_forces(rt: HostRuntime) -> Result<(), Fail> {
    for (text, schedule) in &ORDERS {
        let run = run_of(&rt, rt.alloc(), text, &Script::of(schedule, 0))?;
        assert!(rt;
            run.schedule.as_slice() == schedule.as_bytes(),
            "{schedule}"
        );
    }
    Ok(())
}

/// Returns the text of a program in which `threads` threads meet at one phaser and end.
fn crowd(alloc: Global, threads: u8) -> Result<String, AllocError> {
    let mut text = String::new(alloc);
    write!(text, ".phaser p {threads}\n")?;
    for t in 0..threads {
        write!(text, ".thread a{t} m\n")?;
    }
    text.push_str("m: paaa r0 p\nhalt\n")?;
    Ok(text)
}

/// Checks that 64 workers begin before any goes on. Each has two steps, and each but the last to arrive ends a wait: 128 + 63.
#[test]
fn sixty_four_workers_run_at_once(rt: HostRuntime) -> Result<(), Fail> {
    let text = crowd(rt.alloc(), 64)?;
    let run = run_of(&rt, rt.alloc(), text.as_str(), &Script::of("", 64))?;
    assert!(rt; run.machine.steps() == 191);
    Ok(())
}
