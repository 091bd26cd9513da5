//! A sink in memory for the reply to one command of a session.
ghost use Rattle.std.specs.Prelude.{◌≡◌, ◌<◌, ◌≤◌, ◌++◌, [], ℕ, List, Some, IfOk, true, false, length};
ghost use Rattle.std.specs.{Io.KnownBytes.Appends, Option.MatchOption, Vec.vec_capacity};
ghost use Rattle.byte_ports.specs.Port.{FailsForGood};
ghost use Rattle.vuthgal_c.specs.Room.{HasKept, reply_room};

use byte_ports::{Came, Failed, Sink};
use std::alloc::{AllocError, Global};
use std::marker::Model;

/// Room for the reply to each command but `p`. It is allocated before the command is carried out.
const ROOM: usize = 192;

/// Keeps all bytes, unless there is no memory for more than it has room for. It never fails.
#[derive(Drop)]
pub struct SessionSink {
    kept: Vec<u8>,
    is_whole: bool,
    came: Came,
}

impl Model for SessionSink {
    ghost Value = { List ℕ };

    ghost view = { λ s. s.came.bytes };

    ghost invariant = { λ s. HasKept s.is_whole s.kept.items s.came.bytes × (reply_room ≤ vec_capacity s.kept) };
}

impl SessionSink {
    /// Makes an empty sink with room for 192 bytes.
    pub fn new(alloc: Global) -> Result<SessionSink, AllocError>
        ensures { IfOk result (λ sink. sink ≡ []) }
    {
        Ok(SessionSink {
            kept: Vec::with_capacity(alloc, ROOM)?,
            is_whole: true,
            came: Came::none(),
        })
    }

    /// Returns all bytes that came, or `None` if there was no memory for some.
    pub fn into_all(self) -> Option<Vec<u8>>
        ensures { MatchOption result (reply_room < length self) (λ all. all.items ≡ self) }
    {
        if self.is_whole { Some(self.kept) } else { None }
    }
}

/// Appends these bytes if all before them was kept (`is_whole`). Returns whether all is kept: not if memory was ever lacking.
fn keep(kept: &mut Vec<u8>, is_whole: bool, bytes: &[u8]) -> bool
    ensures kept { (came : List ℕ) → reply_room ≤ vec_capacity kept.old → HasKept is_whole kept.old.items came
        → HasKept result kept.new.items (came ++ bytes.now) }
    ensures room { vec_capacity kept.old ≤ vec_capacity kept.new }
{
    is_whole && kept.extend_from_slice(bytes).is_ok()
}

impl Sink for SessionSink {
    ghost written = { λ s. Some s };

    ghost has_failed = { λ _. false };

    /// Keeps these bytes, or notes that there is no memory for them. It never fails.
    fn push(&mut self, bytes: &[u8]) -> Result<(), Failed>
        ensures failed { FailsForGood false false result }
        ensures bytes { Appends (Some self.old) (Some self.new) bytes.now }
    {
        self.is_whole = keep(&mut self.kept, self.is_whole, bytes);
        self.came = self.came.and(bytes);
        Ok(())
    }
}
