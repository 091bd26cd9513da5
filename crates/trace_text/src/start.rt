// How an image becomes a machine.
ghost use Rattle.std.specs.Prelude.{◌≡◌, ◌⊎◌, false, Err, IfOk};
ghost use Rattle.thread_machine.specs.World.{first_world, world_of};
ghost use Rattle.trace_text.specs.Start.{Begins, IsRefused, is_want_of_memory};

use loader::{LoadFault, Loaded, load};
use row_code::Image;
use std::alloc::{AllocError, Global};
use thread_machine::Machine;

/// The most effective steps that a program may take.
const MOST_STEPS: u32 = 1_000_000_000;

/// Why an image has no machine.
#[derive(Clone, Copy, PartialEq, Eq)]
pub enum StartFault {
    /// The image can't be loaded. The fault is never `Memory`.
    Load(LoadFault),
    /// Out of memory.
    Memory,
}

/// Returns the machine of a loaded program, before its first choice. Fails if it is out of memory.
pub(super) fn begun(alloc: Global, program: Loaded) -> Result<Machine, AllocError>
    ensures { IfOk result (λ machine. world_of machine ≡ first_world program 1000000000) }
{
    Machine::new(alloc, program, MOST_STEPS)
}

/// Returns the machine of an image before its first choice. Fails if the image can't be loaded, or if it is out of memory.
pub fn first_machine(alloc: Global, image: Image) -> Result<Machine, StartFault>
    ensures machine { IfOk result (λ machine. Begins image (world_of machine)) }
    ensures load { (fault : LoadFault) → result ≡ Err (StartFault.Load fault)
        → IsRefused fault image }
    ensures refused { (fault : LoadFault) → IsRefused fault image
        → (result ≡ Err (StartFault.Load fault)) ⊎ (result ≡ Err StartFault.Memory) }
    ensures wants { (fault : LoadFault) → result ≡ Err (StartFault.Load fault) → is_want_of_memory fault ≡ false }
{
    let program = match load(alloc, image) {
        Ok(program) => program,
        Err(LoadFault::Memory) => return Err(StartFault::Memory),
        Err(fault) => return Err(StartFault::Load(fault)),
    };
    match begun(alloc, program) {
        Ok(machine) => Ok(machine),
        Err(_) => Err(StartFault::Memory),
    }
}
