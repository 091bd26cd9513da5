//! The command that plays a program several times.
ghost use Rattle.std.specs.Prelude.{◌≡◌, ◌⊎◌, ◌≤◌, Err, IsTrue, IfErr, IfOk, None, OnOk};
ghost use Rattle.std.specs.Io.KnownBytes.{Appends};
ghost use Rattle.workbench.specs.declared.fault.Fault.{Fault};
ghost use Rattle.thread_machine.specs.World.{first_world};
ghost use Rattle.commands.specs.Outcomes.{IsMostFrequentFirst, report, done_by};
ghost use Rattle.commands.specs.Runs.{AreOutcomesFrom, Reports};

use crate::outcomes::{Outcomes, sort};
use crate::pauses::{Pauses, Pausing};
use crate::report::{done_by, push_report};
use crate::runs::add_runs;
use byte_ports::Sink;
use loader::{LoadFault, Loaded, load};
use row_code::Image;
use std::alloc::Global;
use std::sync::Wait;
use std::thread::Threads;
use workbench::done::Done;
use workbench::fault::Fault;

/// Which runs are asked for.
#[derive(Clone, Copy)]
pub struct Asked<'a> {
    /// How many runs, 1 to 100,000.
    pub runs: u32,
    /// The most steps of each run, 1 to 1,000,000,000.
    pub limit: u32,
    pub pauses: Pauses,
    /// What is expected of the state at the end of each run: texts such as `ended` or `t0 ended` (`trace_text`).
    pub expected: &'a [Vec<u8>],
}

/// Plays an image's program on real threads as often as asked. Writes a line for each state that a run ended in, the most
/// frequent first. The line has the number of such runs, `all`, `stuck` or `live`, with `+died` if a thread died, and the first
/// such run's schedule. Nothing is written before all runs are over. The threads of each run pass `gate` after their pauses.
pub fn report_runs<R: Threads + Wait + Sync, G: Pausing + Sync, K: Sink>(
    rt: &R,
    alloc: Global,
    asked: &Asked<'_>,
    gate: &G,
    image: Image,
    output: &mut K,
) -> Result<Done, Fault>
    requires limit { asked.now.limit ≤ 1000000000 }
    requires count { asked.now.runs ≤ 100000 }
    ensures { Reports asked.now image result (K.written output.old) (K.written output.new) (K.has_failed output.new) }
{
    let program = match load(alloc, image) {
        Ok(program) => program,
        Err(LoadFault::Memory) => return Err(Fault::Memory),
        Err(fault) => return Err(Fault::Load(fault)),
    };
    let outcomes = match outcomes_of(rt, alloc, asked, gate, &program) {
        Ok(outcomes) => outcomes,
        Err(fault) => return Err(fault),
    };
    push_outcomes(alloc, asked.expected, &outcomes, output)
}

/// Plays all runs. Returns each state in which some of them ended, with how many did, the most frequent first.
fn outcomes_of<R: Threads + Wait + Sync, G: Pausing + Sync>(
    rt: &R,
    alloc: Global,
    asked: &Asked<'_>,
    gate: &G,
    program: &Loaded,
) -> Result<Outcomes, Fault>
    requires limit { asked.now.limit ≤ 1000000000 }
    requires count { asked.now.runs ≤ 100000 }
    ensures outcomes { IfOk result (λ outcomes. AreOutcomesFrom (first_world program.now asked.now.limit) asked.now outcomes.entries) }
    ensures sorted { IfOk result (λ outcomes. IsMostFrequentFirst outcomes.entries) }
    ensures fault { IfErr result (λ fault. (fault ≡ Fault.Memory) ⊎ (fault ≡ Fault.Spawn)) }
{
    let mut outcomes = Outcomes::new(alloc);
    add_runs(
        rt,
        alloc,
        program,
        asked.limit,
        asked.pauses,
        gate,
        asked.runs,
        &mut outcomes,
    )?;
    match sort(&mut outcomes) {
        Ok(()) => Ok(outcomes),
        Err(_) => Err(Fault::Memory),
    }
}

/// Writes the lines of all outcomes in one piece, with thread numbers for names (`None`). Returns `AsAsked` if each is as
/// `expected`, and otherwise `Unlike`.
fn push_outcomes<K: Sink>(
    alloc: Global,
    expected: &[Vec<u8>],
    outcomes: &Outcomes,
    output: &mut K,
) -> Result<Done, Fault>
    ensures by { IfOk result (λ done. done ≡ done_by expected.now outcomes.now.entries) }
    ensures report { OnOk result (Appends (K.written output.old) (K.written output.new) (report None outcomes.now.entries)) }
    ensures fault { IfErr result (λ fault. (fault ≡ Fault.Memory) ⊎ (fault ≡ Fault.Write)) }
    ensures unchanged { result ≡ Err Fault.Memory → K.written output.new ≡ K.written output.old }
    ensures write { result ≡ Err Fault.Write → IsTrue (K.has_failed output.new) }
{
    match push_report(alloc, None, outcomes, output) {
        Ok(()) => Ok(done_by(expected, outcomes)),
        Err(fault) => Err(fault),
    }
}
