//! Programs made of texts.
use assembler::assemble;
use loader::{Loaded, load};
use row_code::Image;
use std::alloc::Global;
use std::test::Fail;

/// Two threads meet at a phaser, and put out the phase that follows.
pub const MEETING: &str =
    ".phaser p 2\n.thread a main\n.thread b main\nmain: paaa r0 p\nout r0\nhalt\n";

/// The meeting and its schedule in one.
pub const MEETING_RUN: &str =
    ".phaser p 2\n.thread a main\n.thread b main\nmain: paaa r0 p\nout r0\nhalt\n.run\nt0 t1 t0*3 t1*2\n";

/// The meeting's canonical text.
pub const LISTED: &[u8] = b".phaser p0 2\n.thread t0 #0\n.thread t1 #0\npaaa r0 #0\nout r0\nhalt\n";

/// The trace of the meeting under `t0 t1 t0*3 t1*2`.
pub const TRACE: &[u8] =
    b"1 t0 0 wait\n2 t1 0 = 1 +p0 1\n3 t0 0 = 1\n4 t0 1 out 1\n5 t0 2 end\n6 t1 1 out 1\n7 t1 2 end\n\
    state 7 7 all\nt0 2 ended 0 regs 1 0 0 0 0 0 0 0 stack out 1\nt1 2 ended 0 regs 1 0 0 0 0 0 0 0 stack out 1\np0 1 2 0 2\n";

/// Returns the failure of a test in which a call failed. `?` can't make it from a fault, since no fault has a `Debug`.
pub fn refused() -> Fail {
    Fail::new("a call has failed")
}

/// Returns the image of a program's text.
pub fn image_of(alloc: Global, text: &str) -> Result<Image, Fail> {
    assemble(alloc, text.as_bytes()).map_err(|_| refused())
}

/// Returns the loaded program of a text.
pub fn program_of(alloc: Global, text: &str) -> Result<Loaded, Fail> {
    load(alloc, image_of(alloc, text)?).map_err(|_| refused())
}
