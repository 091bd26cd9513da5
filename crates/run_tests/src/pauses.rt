//! The pauses of live runs, and the meetings of a race.
use crate::programs::image_of;
use byte_ports::MemorySink;
use commands::pauses::Pausing;
use commands::pauses::pause::Pause;
use commands::pauses::stirred::Stirred;
use commands::{Asked, Pauses, report_runs};
use std::sync::atomic::{AtomicU32, Ordering};
use std::test::Fail;
use std::time::Instant;
use thread_runner::NoGate;
use workbench::racing::pace::Pace;
use workbench::racing::race;

/// A program of one thread. Its worker passes the gate before each of the three steps, and before it finds that all are done.
const ONE: &str = ".thread a m\nm: ldi r0 1\nldi r0 2\nhalt\n";

/// How often the worker of `ONE` passes.
const PASSES: u32 = 4;

const SEED: u32 = 7;

/// Notes of each of the first eight passes the pause before it, and the number of the step that the gate is told.
#[derive(Drop)]
struct Notes {
    passes: AtomicU32,
    pauses: [AtomicU32; 8],
    steps: [AtomicU32; 8],
}

/// Returns a number for a pause, to be kept in an atomic: 0 for none, even for a yield, odd for a spin.
fn number_of(pause: Pause) -> u32 {
    match pause {
        Pause::NoPause => 0,
        Pause::Yield(times) => times.saturating_mul(2),
        Pause::Spin(rounds) => rounds.saturating_mul(2).saturating_add(1),
    }
}

impl Pausing for Notes {
    /// Notes the pause and the step of one of the first eight passes. It doesn't pause.
    fn pass_after(&self, pause: Pause, _thread: u8, step: u32) {
        let pass = self.passes.fetch_add(1, Ordering::SeqCst) as usize;
        if let (Some(noted), Some(told)) = (self.pauses.get(pass), self.steps.get(pass)) {
            noted.store(number_of(pause), Ordering::SeqCst);
            told.store(step, Ordering::SeqCst);
        }
    }
}

/// Checks in two runs of four passes that the pause before each pass is the one that seed, run and step determine.
#[test]
fn each_run_has_pauses_of_its_own(rt: HostRuntime) -> Result<(), Fail> {
    let zeros = || [0; 8].map(AtomicU32::new);
    let notes = Notes {
        passes: AtomicU32::new(0),
        pauses: zeros(),
        steps: zeros(),
    };
    let asked = Asked {
        runs: 2,
        limit: 100,
        pauses: Pauses { seed: Some(SEED) },
        expected: &[],
    };
    let mut output = MemorySink::new(rt.alloc(), 1000, None)?;
    let image = image_of(rt.alloc(), ONE)?;
    let reported = report_runs(&rt, rt.alloc(), &asked, &notes, image, &mut output);
    assert!(rt; reported.is_ok() && notes.passes.load(Ordering::SeqCst) == 2 * PASSES);
    for pass in 0..2 * PASSES {
        let of_run = Stirred {
            seed: u64::from(SEED),
            run: pass / PASSES,
        };
        let due = number_of(of_run.pause(0, pass % PASSES));
        let noted = notes.pauses[pass as usize].load(Ordering::SeqCst);
        let told = notes.steps[pass as usize].load(Ordering::SeqCst);
        assert!(rt; noted == due && told == pass % PASSES, "{pass}");
    }
    Ok(())
}

/// Checks that a pause takes time: a spin of 10,000,000 rounds takes a millisecond or longer.
#[test]
fn a_worker_waits_at_its_pause(rt: HostRuntime) -> Result<(), Fail> {
    let began = Instant::now(&rt)?;
    NoGate.pass_after(Pause::Spin(10_000_000), 0, 0);
    assert!(rt; began.elapsed(&rt)?.as_micros() >= 1000);
    Ok(())
}

/// Counts the reports of meetings in a race.
#[derive(Drop)]
struct Meetings {
    count: AtomicU32,
}

impl Pace for Meetings {
    /// Counts a meeting.
    fn met(&self) {
        self.count.fetch_add(1, Ordering::SeqCst);
    }
}

/// Checks that each of three threads reports each of their five meetings: 15 reports.
#[test]
fn each_meeting_is_reported(rt: HostRuntime) -> Result<(), Fail> {
    let meetings = Meetings {
        count: AtomicU32::new(0),
    };
    let mut output = MemorySink::new(rt.alloc(), 1000, None)?;
    let is_over = race(&rt, rt.alloc(), 3, 5, &meetings, &mut output).is_ok();
    assert!(rt; is_over && meetings.count.load(Ordering::SeqCst) == 15);
    Ok(())
}
