//! The numbers in the fields of an image, the lowest byte first. `at` is the place of a field in the file, for its fault.
ghost use Rattle.std.specs.Prelude.{◌≡◌, ◌+◌, ◌<◌, length, IfOk};
ghost use Rattle.row_code.specs.Phasers.{IsCount};
ghost use Rattle.row_code.specs.Reading.{u16_at, i32_at, target_at, phase_at, zero_at};

use crate::image_fault::ImageFault;

/// Returns the number in the two bytes from the place `i` on.
pub fn u16_at(bytes: &[u8], i: usize) -> u16
    requires { i + 1 < length bytes.now }
    ensures { result ≡ u16_at bytes.now i }
{
    u16::from_le_bytes([bytes[i], bytes[i + 1]])
}

/// Returns the `int` in the four bytes from the place `i` on.
pub fn i32_at(bytes: &[u8], i: usize) -> i32
    requires { i + 3 < length bytes.now }
    ensures { result ≡ i32_at bytes.now i }
{
    i32::from_le_bytes([bytes[i], bytes[i + 1], bytes[i + 2], bytes[i + 3]])
}

/// Returns `value`, the number in the field at `at`, if it can be a row's number, 0 to 65535. Any other is the field's fault.
pub fn target_at(at: usize, value: i32) -> Result<u16, ImageFault>
    ensures { result ≡ target_at at value }
{
    match u16::try_from(value) {
        Ok(row) => Ok(row),
        Err(_) => Err(ImageFault::Field(at)),
    }
}

/// Returns `value`, the number in the field at `at`, if it can be a phase's number. A negative one is the field's fault.
pub fn phase_at(at: usize, value: i32) -> Result<i32, ImageFault>
    ensures phase { result ≡ phase_at at value }
    ensures fits { IfOk result (λ phase. IsCount phase) }
{
    if value < 0 {
        Err(ImageFault::Field(at))
    } else {
        Ok(value)
    }
}

/// Returns `value`, the number in the unused field at `at`, if it is 0. Any other is the fault of this field.
pub fn zero_at(at: usize, value: i32) -> Result<i32, ImageFault>
    ensures { result ≡ zero_at at value }
{
    if value == 0 {
        Ok(0)
    } else {
        Err(ImageFault::Field(at))
    }
}
