//! A sink in memory that counts all bytes, and keeps only the first ones.
ghost use Rattle.std.specs.Prelude.{◌≡◌, ◌≤◌, ◌↔◌, ◌++◌, [], ℕ, List, Some, IsTrue, false, length, min};
ghost use Rattle.std.specs.Io.KnownBytes.{Appends};
ghost use Rattle.byte_ports.specs.{Port.FailsForGood, Counting.AreFirst, Counting.Tally, Counting.most_counted};

use crate::came::Came;
use crate::failed::Failed;
use crate::sink::Sink;
use std::alloc::Global;
use std::marker::Model;

/// Counts all bytes, and keeps the first ones: at most `most`, and no more than there is memory for. It never fails.
#[derive(Drop)]
pub struct CountingSink {
    kept: Vec<u8>,
    most: usize,
    count: usize,
    came: Came,
}

impl Model for CountingSink {
    ghost Value = { Tally };

    ghost view = { λ s. record { written = s.came.bytes; kept = s.kept.items } };

    ghost invariant = { λ s. AreFirst s.kept.items s.came.bytes
        × (s.count ≡ min (length s.came.bytes) most_counted) };
}

impl CountingSink {
    /// Makes a sink that keeps at most `most` bytes. It allocates no memory before bytes come.
    pub fn new(alloc: Global, most: usize) -> CountingSink
        ensures { result ≡ record { written = []; kept = [] } }
    {
        CountingSink {
            kept: Vec::new(alloc),
            most,
            count: 0,
            came: Came::none(),
        }
    }

    /// Returns the bytes that it has kept: the first ones that came.
    pub fn kept(&self) -> &[u8]
        ensures kept { result.now ≡ self.now.kept }
        ensures first { AreFirst result.now self.now.written }
    {
        self.kept.as_slice()
    }

    /// Returns how many bytes came, or the largest `usize` if there were more.
    pub fn count(&self) -> usize
        ensures { result ≡ min (length self.now.written) most_counted }
    {
        self.count
    }

    /// Returns whether it has kept all that came, or the first `room` bytes of it. False: memory ran out, or `most` is less.
    pub fn has_kept(&self, room: usize) -> bool
        ensures { IsTrue result ↔ (min (length self.now.written) room ≤ length self.now.kept) }
    {
        self.kept.len() >= self.count.min(room)
    }
}

/// Appends as many of `bytes` as fit below `most`, if all `count` bytes that came before are kept. If memory is refused, it
/// keeps none of them, and ignores the refusal: the sink goes on counting, and `has_kept` says that bytes are missing.
fn keep(kept: &mut Vec<u8>, most: usize, count: usize, bytes: &[u8])
    ensures { (came : List ℕ) → AreFirst kept.old.items came → count ≡ min (length came) most_counted
        → AreFirst kept.new.items (came ++ bytes.now) }
{
    if kept.len() == count && kept.len() < most {
        let fits = bytes.len().min(most - kept.len());
        let _ = kept.extend_from_slice(&bytes[..fits]);
    }
}

impl Sink for CountingSink {
    ghost written = { λ s. Some s.written };

    ghost has_failed = { λ _. false };

    /// Counts these bytes, and keeps as many as fit. It never fails.
    fn push(&mut self, bytes: &[u8]) -> Result<(), Failed>
        ensures failed { FailsForGood false false result }
        ensures bytes { Appends (Some self.old.written) (Some self.new.written) bytes.now }
    {
        keep(&mut self.kept, self.most, self.count, bytes);
        self.count = self.count.saturating_add(bytes.len());
        self.came = self.came.and(bytes);
        Ok(())
    }
}
