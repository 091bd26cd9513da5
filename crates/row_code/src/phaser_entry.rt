//! The 12 bytes of a phaser: parent or 255 (1), kind of policy (1), parties (2), first phase (4), the policy's number or 0 (4).
//! `read` reads entry `n` of a list that begins at the place `start` of the file. `push` writes an entry.
ghost use Rattle.std.specs.Prelude.{◌≡◌, ◌+◌, ◌^◌, ◌<◌, length, IfOk, IfSome};
ghost use Rattle.row_code.specs.Phasers.{IsPolicy, IsPhaser, kind_byte, argument, phaser_bytes};
ghost use Rattle.row_code.specs.Reading.{parent_at, kind_at, policy_at, phaser_at};

use crate::entry::Entry;
use crate::image_fault::ImageFault;
use crate::phasers::{DeclaredPhaser, DeclaredPolicy};
use crate::read_fields::{i32_at, phase_at, target_at, u16_at, zero_at};
use crate::write_fault::WriteFault;
use byte_ports::Sink;

/// Returns the parent's number, 0 to 63, or `None` for the byte 255: no parent. Any other byte is the fault of this field.
fn parent_at(at: usize, byte: u8) -> Result<Option<u8>, ImageFault>
    ensures parent { result ≡ parent_at at byte }
    ensures fits { IfOk result (λ parent. IfSome parent (λ n. n < 64)) }
{
    match byte {
        255 => Ok(None),
        0..=63 => Ok(Some(byte)),
        _ => Err(ImageFault::Field(at)),
    }
}

/// Returns the kind of policy, 0 to 3, in the field at `at`. Any other byte is the fault of this field.
fn kind_at(at: usize, byte: u8) -> Result<u8, ImageFault>
    ensures { result ≡ kind_at at byte }
{
    if byte < 4 {
        Ok(byte)
    } else {
        Err(ImageFault::Field(at))
    }
}

/// Returns the policy: 0 is default, 1 never, 2 until, 3 a routine. `value`, in the field at `at`, is a phase, a row or 0.
#[tactic(auto, unfolding(crate::specs::Reading::policy_at))]
fn policy_at(at: usize, kind: u8, value: i32) -> Result<DeclaredPolicy, ImageFault>
    ensures policy { result ≡ policy_at at kind value }
    ensures fits { IfOk result (λ policy. IsPolicy policy) }
{
    match kind {
        0 => {
            zero_at(at, value)?;
            Ok(DeclaredPolicy::Default)
        }
        1 => {
            zero_at(at, value)?;
            Ok(DeclaredPolicy::Never)
        }
        2 => Ok(DeclaredPolicy::Until(phase_at(at, value)?)),
        _ => Ok(DeclaredPolicy::Routine(target_at(at, value)?)),
    }
}

/// Reads a phaser from the 12 bytes at the place `at` of the file, or returns the first field that is wrong.
#[tactic(auto, unfolding(crate::specs::Reading::phaser_at))]
fn phaser_at(at: usize, bytes: &[u8]) -> Result<DeclaredPhaser, ImageFault>
    requires size { length bytes.now ≡ 12 }
    requires place { at + 12 < 2 ^ 64 }
    ensures phaser { result ≡ phaser_at at bytes.now }
    ensures fits { IfOk result (λ phaser. IsPhaser phaser) }
{
    let parent = parent_at(at, bytes[0])?;
    let kind = kind_at(at + 1, bytes[1])?;
    let first_phase = phase_at(at + 4, i32_at(bytes, 4))?;
    let policy = policy_at(at + 8, kind, i32_at(bytes, 8))?;
    Ok(DeclaredPhaser {
        parent,
        policy,
        parties: u16_at(bytes, 2),
        first_phase,
    })
}

/// Returns the number of the policy's kind, as in its byte: 0 to 3.
fn kind_byte(policy: DeclaredPolicy) -> u8
    ensures { result ≡ kind_byte policy }
{
    match policy {
        DeclaredPolicy::Default => 0,
        DeclaredPolicy::Never => 1,
        DeclaredPolicy::Until(_) => 2,
        DeclaredPolicy::Routine(_) => 3,
    }
}

/// Returns the number that belongs to the policy: its phase or its row, and otherwise 0.
fn argument(policy: DeclaredPolicy) -> i32
    ensures { result ≡ argument policy }
{
    match policy {
        DeclaredPolicy::Default | DeclaredPolicy::Never => 0,
        DeclaredPolicy::Until(phase) => phase,
        DeclaredPolicy::Routine(row) => i32::from(row),
    }
}

/// Returns the 12 bytes of a phaser.
fn phaser_bytes(phaser: DeclaredPhaser) -> [u8; 12]
    ensures { result ≡ phaser_bytes phaser }
{
    let parent = phaser.parent.unwrap_or(255);
    let kind = kind_byte(phaser.policy);
    let [p0, p1] = phaser.parties.to_le_bytes();
    let [f0, f1, f2, f3] = phaser.first_phase.to_le_bytes();
    let [a0, a1, a2, a3] = argument(phaser.policy).to_le_bytes();
    [parent, kind, p0, p1, f0, f1, f2, f3, a0, a1, a2, a3]
}

impl Entry for DeclaredPhaser {
    ghost use Rattle.row_code.specs.{Phasers.IsPhaser, Phasers.phaser_bytes, Reading.phaser_entry};

    ghost SIZE = { 12 };

    ghost reading = { λ timed. phaser_entry };

    ghost fits = { IsPhaser };

    ghost spelling = { phaser_bytes };

    const SIZE: usize = 12;

    /// Reads a phaser from its 12 bytes. `start`, where the list begins in the file, and `n`, its number there, are only for a
    /// fault's place. `_timed` is only of use for rows.
    fn read(
        _timed: bool,
        start: usize,
        n: u16,
        bytes: &[u8],
    ) -> Result<DeclaredPhaser, ImageFault> {
        phaser_at(start + 12 * usize::from(n), bytes)
    }

    /// Writes the 12 bytes of the phaser. Fails if the sink does.
    fn push<W: Sink>(self, sink: &mut W) -> Result<(), WriteFault> {
        sink.push(&phaser_bytes(self))?;
        Ok(())
    }
}
