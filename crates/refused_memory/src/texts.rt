//! Texts, images and programs. A try of a call, from `begin` to `end`, is `Right`, out of `Memory`, or `Wrong`.

use crate::programs::{image_of, program_of, shows};
use crate::trial::{Answer, Trial, Tried};
use assembler::{AsmFaultKind, assemble, disassemble};
use loader::{LoadFault, Loaded, load};
use row_code::{Image, ImageFault, read_image};
use std::alloc::{AllocError, Global};
use thread_machine::Machine;

/// Each kind of declaration with a name, and names that are used before and after their declaration: eight lines.
const TEXT: &[u8] =
    b".phaser root 2 onadvance adv\n.phaser child 1 parent root\n.barrier gate 1 action act\n\
.thread first main\n.cell sum\nmain: sts r1 sum\nact: cawait r0 gate\nadv: halt\n";

const LISTING: &[u8] =
    b".phaser p0 2 onadvance #2\n.phaser p1 1 parent #0\n.barrier b0 1 action #1\n\
.thread t0 #0\nsts r1 #0\ncawait r0 #0\nhalt\n";

/// The state of the machine of `TEXT` before the first choice.
const AT_FIRST: &[u8] = b"state 0 0 live\nt0 0 runs 0 regs 0 0 0 0 0 0 0 0 stack out\n\
p0 0 3 0 3\np1 0 1 0 1\nb0 0 0\n";

/// The image of two threads that put out their first register.
const IMAGE: &[u8] = b"PBW1\x00\x00\x00\x00\x02\x00\x02\x00\
\x01\x00\x00\x00\x00\x00\x00\x00\x0e\x00\x00\x00\x00\x00\x00\x00\x00\x00\x00\x00\x00\x00\x00\x00";

/// Returns whether this is the canonical text of an image.
fn lists(alloc: Global, image: &Image, listing: &[u8]) -> Result<bool, AllocError> {
    Ok(disassemble(alloc, image)?.as_slice() == listing)
}

/// Returns whether the machine of `program` shows the state that `TEXT` has before its first choice.
fn begins(alloc: Global, program: Loaded) -> Result<bool, AllocError> {
    shows(alloc, &Machine::new(alloc, program, 1000)?, AT_FIRST)
}

/// Tries `assemble` of `TEXT`: if memory is refused, the fault names one of its eight lines.
pub fn assembling(trial: Trial) -> Tried {
    Ok(match trial.end(assemble(trial.begin(), TEXT)) {
        Ok(image) => Answer::Right.provided(lists(trial.alloc, &image, LISTING)?),
        Err(fault) if fault.kind == AsmFaultKind::Memory => {
            Answer::Memory.provided(fault.line > 0 && fault.line <= 8)
        }
        Err(_) => Answer::Wrong,
    })
}

/// Tries `disassemble` of the image of `TEXT`. Afterwards the image has the same canonical text as before.
pub fn listing(trial: Trial) -> Tried {
    let image = image_of(trial.alloc, TEXT)?;
    let answer = match trial.end(disassemble(trial.begin(), &image)) {
        Ok(text) => Answer::Right.provided(text.as_slice() == LISTING),
        Err(_) => Answer::Memory,
    };
    Ok(answer.provided(lists(trial.alloc, &image, LISTING)?))
}

/// Tries `read_image` on the bytes `IMAGE`: the image that it returns has the canonical text `listing`.
pub fn reading(trial: Trial) -> Tried {
    let listing = b".thread t0 #1\n.thread t1 #0\nout r0\nhalt\n";
    Ok(match trial.end(read_image(trial.begin(), IMAGE)) {
        Ok(image) => Answer::Right.provided(lists(trial.alloc, &image, listing)?),
        Err(ImageFault::Memory) => Answer::Memory,
        Err(_) => Answer::Wrong,
    })
}

/// Tries `load` on the image of `TEXT`: a machine of the program shows the state before the first choice.
pub fn loading(trial: Trial) -> Tried {
    let image = image_of(trial.alloc, TEXT)?;
    Ok(match trial.end(load(trial.begin(), image)) {
        Ok(program) => Answer::Right.provided(begins(trial.alloc, program)?),
        Err(LoadFault::Memory) => Answer::Memory,
        Err(_) => Answer::Wrong,
    })
}

/// Tries `Loaded::copy` of the program of `TEXT`. Afterwards the program that was copied is played as before.
pub fn copying(trial: Trial) -> Tried {
    let program = program_of(trial.alloc, TEXT)?;
    let answer = match trial.end(program.copy(trial.begin())) {
        Ok(copy) => Answer::Right.provided(begins(trial.alloc, copy)?),
        Err(_) => Answer::Memory,
    };
    Ok(answer.provided(begins(trial.alloc, program)?))
}
