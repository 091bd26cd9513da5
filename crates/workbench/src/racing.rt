//! A race as a command: threads meet at one shared phaser, and a line tells about this phaser.
//!
//! A thread meets the others when it calls `arriveAndAwaitAdvance`. In a race each thread does this the same number of times.
//! `meeting` returns the word that the phaser has after the last meeting, and `line` writes this word as a line.
ghost use Rattle.std.specs.Prelude.{◌≡◌, ◌⊎◌, ℕ, Err, IfErr, IsTrue, OnOk};
ghost use Rattle.std.specs.Io.KnownBytes.{Appends};
ghost use Rattle.packed_phaser.specs.Word.{record_of};
ghost use Rattle.workbench.specs.{Race.IsFinal, Race.IsRaceFault, Race.line_of, declared.fault.Fault.Fault};
ghost use Rattle.workbench.specs.Fault.{HasReported, status_of};

mod line;
mod meeting;
pub mod pace;

use crate::done::{as_asked, settled};
use crate::fault::Fault;
use crate::racing::line::push_line;
use crate::racing::pace::{NoPace, Pace};
use byte_ports::Sink;
use std::alloc::Global;
use std::sync::Wait;
use std::thread::Threads;

/// Lets `parties` threads call `arriveAndAwaitAdvance` `rounds` times each, on one shared phaser with as many parties. Writes
/// the line `phase A parties B unarrived C` of the closed phaser to `output`. Returns the exit status: 0; 4 with the line
/// `memory` or `spawn` on `errors`; or 5 with `write`. Any numbers are allowed.
pub fn race_cmd<R: Threads + Wait + Sync, K: Sink, E: Sink>(
    rt: &R,
    alloc: Global,
    parties: u16,
    rounds: u32,
    output: &mut K,
    errors: &mut E,
) -> u8
    ensures statuses { (result ≡ 0) ⊎ ((result ≡ 4) ⊎ (result ≡ 5)) }
    ensures done { result ≡ 0 → (word : ℕ) × (IsFinal parties rounds word
        × Appends (K.written output.old) (K.written output.new) (line_of (record_of word))) }
    ensures told { ((result ≡ 0) × (E.written errors.new ≡ E.written errors.old))
        ⊎ ((fault : Fault) × (IsRaceFault fault × (result ≡ status_of fault)
        × HasReported fault (E.has_failed errors.new) (E.written errors.old) (E.written errors.new))) }
    ensures unchanged { result ≡ 4 → K.written output.new ≡ K.written output.old }
    ensures port { result ≡ 5 → IsTrue (K.has_failed output.new) }
{
    settled(
        as_asked(race(rt, alloc, parties, rounds, &NoPace, output)),
        errors,
    )
}

/// Lets `parties` threads meet `rounds` times at one phaser, and writes its line `phase A parties B unarrived C`. Each thread
/// reports each meeting to `pace`.
pub fn race<R: Threads + Wait + Sync, P: Pace + Sync, K: Sink>(
    rt: &R,
    alloc: Global,
    parties: u16,
    rounds: u32,
    pace: &P,
    output: &mut K,
) -> Result<(), Fault>
    ensures done { OnOk result ((word : ℕ) × (IsFinal parties rounds word
        × Appends (K.written output.old) (K.written output.new) (line_of (record_of word)))) }
    ensures fault { IfErr result IsRaceFault }
    ensures unchanged { IfErr result (λ fault. (fault ≡ Fault.Write)
        ⊎ (K.written output.new ≡ K.written output.old)) }
    ensures write { result ≡ Err Fault.Write → IsTrue (K.has_failed output.new) }
{
    let word = meeting::race(rt, alloc, parties, rounds, pace)?;
    push_line(output, word).map_err(|_| Fault::Write)
}
