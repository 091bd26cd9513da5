//! The version of the library.
ghost use Rattle.std.specs.Prelude.{◌≡◌};
ghost use Rattle.vuthgal_c.specs.Shows.{Holds};

use crate::handing::hand_all;
use crate::origin::{NUMBER, VERSION};

/// Writes the version, and a checksum of the sources, a line each.
#[unsafe(no_mangle)]
pub extern "C" fn vuthgal_version(output: &mut [u8], output_length: &mut usize)
    ensures { Holds output.old output.new output_length.new VERSION.now }
{
    hand_all(VERSION.as_bytes(), output, output_length);
}

/// Returns the version as a number: 10000 times the first part, 100 times the second, and the third.
#[unsafe(no_mangle)]
pub extern "C" fn vuthgal_version_number() -> u32
    ensures { result ≡ NUMBER }
{
    NUMBER
}
