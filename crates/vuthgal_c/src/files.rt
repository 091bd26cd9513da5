//! The program in a file, and how much of a file is read.
ghost use Rattle.std.specs.Prelude.{◌≡◌, ◌≤◌, ◌↔◌, IsTrue, IfErr, IfOk, length};
ghost use Rattle.workbench.specs.{Input.most_bytes, ProgramFile.IsNoProgramFor};
ghost use Rattle.vuthgal_c.specs.Beyond.{IsProgramIn};

use std::alloc::Global;
use workbench::Program;
use workbench::fault::Fault;
use workbench::program::program_in;

/// How many bytes an input may have.
const MOST_BYTES: usize = 16_777_216;

/// Returns whether an input has at most 16,777,216 bytes.
pub fn is_within(bytes: &[u8]) -> bool
    ensures { IsTrue result ↔ (length bytes.now ≤ most_bytes) }
{
    bytes.len() <= MOST_BYTES
}

/// Returns the program in a file, an image or a text. It only calls `program_in`, but has a shorter contract for its callers.
pub fn whole_program(alloc: Global, file: &[u8]) -> Result<Program<'_>, Fault>
    ensures program { IfOk result (λ program. IsProgramIn file.now program) }
    ensures none { IfErr result (λ fault. IsNoProgramFor fault file.now) }
{
    program_in(alloc, file)
}
