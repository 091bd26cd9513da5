//! The 4 bytes of a thread: its first row. `read` reads entry `n` of a list that begins at the place `start` of the file, and
//! `push` writes an entry.
ghost use Rattle.std.specs.Prelude.{◌≡◌, length, IfOk};
ghost use Rattle.row_code.specs.{Threads.IsThread, Threads.thread_bytes, Reading.thread_at};

use crate::entry::Entry;
use crate::image_fault::ImageFault;
use crate::read_fields::{i32_at, target_at};
use crate::threads::DeclaredThread;
use crate::write_fault::WriteFault;
use byte_ports::Sink;

/// Reads a thread from the 4 bytes at the place `at` of the file. A number below 0 or above 65535 is the fault of this field.
#[tactic(auto, unfolding(crate::specs::Reading::thread_at))]
fn thread_at(at: usize, bytes: &[u8]) -> Result<DeclaredThread, ImageFault>
    requires { length bytes.now ≡ 4 }
    ensures read { result ≡ thread_at at bytes.now }
    ensures fits { IfOk result (λ thread. IsThread thread) }
{
    let first_row = target_at(at, i32_at(bytes, 0))?;
    Ok(DeclaredThread { first_row })
}

/// Returns the entry of a thread in an image: the number of its first row in 4 bytes, the lowest first.
fn thread_bytes(thread: DeclaredThread) -> [u8; 4]
    ensures { result ≡ thread_bytes thread }
{
    i32::from(thread.first_row).to_le_bytes()
}

impl Entry for DeclaredThread {
    ghost use Rattle.row_code.specs.{Threads.IsThread, Threads.thread_bytes, Reading.thread_entry};

    ghost SIZE = { 4 };

    ghost reading = { λ timed. thread_entry };

    ghost fits = { IsThread };

    ghost spelling = { thread_bytes };

    const SIZE: usize = 4;

    /// Reads thread `n` of the list that begins at `start`. `_timed` is only of use for rows.
    fn read(
        _timed: bool,
        start: usize,
        n: u16,
        bytes: &[u8],
    ) -> Result<DeclaredThread, ImageFault> {
        thread_at(start + 4 * usize::from(n), bytes)
    }

    /// Writes the 4 bytes of the thread. Fails if the sink does.
    fn push<W: Sink>(self, sink: &mut W) -> Result<(), WriteFault> {
        sink.push(&thread_bytes(self))?;
        Ok(())
    }
}
