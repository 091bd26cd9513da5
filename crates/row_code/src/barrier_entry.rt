//! The 8 bytes of a barrier: parties (2), 1 if it has an action (2), the action's first row or 0 (4). `read` reads entry `n`
//! of a list that begins at the place `start` of the file. `push` writes an entry.
ghost use Rattle.std.specs.Prelude.{◌≡◌, ◌+◌, ◌^◌, ◌<◌, length, IfOk, IfSome};
ghost use Rattle.row_code.specs.{Barriers.IsBarrier, Barriers.barrier_bytes, Reading.action_at, Reading.barrier_at};

use crate::barriers::DeclaredBarrier;
use crate::entry::Entry;
use crate::image_fault::ImageFault;
use crate::read_fields::{i32_at, target_at, u16_at, zero_at};
use crate::write_fault::WriteFault;
use byte_ports::Sink;

/// Returns the action's first row: `value`, if `flag` is 1. `None`: both are 0, so there is no action. Otherwise returns the
/// fault of a field: of the flag's, at the place `at`, or of the value's, two bytes later.
#[tactic(auto, unfolding(crate::specs::Reading::action_at))]
fn action_at(at: usize, flag: u16, value: i32) -> Result<Option<u16>, ImageFault>
    requires { at + 2 < 2 ^ 64 }
    ensures read { result ≡ action_at at flag value }
    ensures fits { IfOk result (λ action. IfSome action (λ row. row < 65536)) }
{
    match flag {
        0 => {
            zero_at(at + 2, value)?;
            Ok(None)
        }
        1 => Ok(Some(target_at(at + 2, value)?)),
        _ => Err(ImageFault::Field(at)),
    }
}

/// Reads a barrier from the 8 bytes at the place `at` of the file, or returns the first field that is wrong.
#[tactic(auto, unfolding(crate::specs::Reading::barrier_at))]
fn barrier_at(at: usize, bytes: &[u8]) -> Result<DeclaredBarrier, ImageFault>
    requires size { length bytes.now ≡ 8 }
    requires place { at + 8 < 2 ^ 64 }
    ensures read { result ≡ barrier_at at bytes.now }
    ensures fits { IfOk result (λ barrier. IsBarrier barrier) }
{
    let action = action_at(at + 2, u16_at(bytes, 2), i32_at(bytes, 4))?;
    let parties = u16_at(bytes, 0);
    Ok(DeclaredBarrier { parties, action })
}

/// Returns the 8 bytes of a barrier.
fn barrier_bytes(barrier: DeclaredBarrier) -> [u8; 8]
    ensures { result ≡ barrier_bytes barrier }
{
    let (flag, row) = match barrier.action {
        None => (0, 0),
        Some(row) => (1, i32::from(row)),
    };
    let [p0, p1] = barrier.parties.to_le_bytes();
    let [a0, a1, a2, a3] = row.to_le_bytes();
    [p0, p1, flag, 0, a0, a1, a2, a3]
}

impl Entry for DeclaredBarrier {
    ghost use Rattle.row_code.specs.{Barriers.IsBarrier, Barriers.barrier_bytes, Reading.barrier_entry};

    ghost SIZE = { 8 };

    ghost reading = { λ timed. barrier_entry };

    ghost fits = { IsBarrier };

    ghost spelling = { barrier_bytes };

    const SIZE: usize = 8;

    /// Reads barrier `n` of the list that begins at `start`. `_timed` is only of use for rows.
    fn read(
        _timed: bool,
        start: usize,
        n: u16,
        bytes: &[u8],
    ) -> Result<DeclaredBarrier, ImageFault> {
        barrier_at(start + 8 * usize::from(n), bytes)
    }

    /// Writes the 8 bytes of the barrier. Fails if the sink does.
    fn push<W: Sink>(self, sink: &mut W) -> Result<(), WriteFault> {
        sink.push(&barrier_bytes(self))?;
        Ok(())
    }
}
