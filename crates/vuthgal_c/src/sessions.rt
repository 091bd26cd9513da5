//! Sessions that go on from call to call.
ghost use Rattle.std.specs.Prelude.{◌≡◌, ◌++◌, ℕ, List, None, IfOk, IfErr};
ghost use Rattle.workbench.specs.Fault.{line_of};
ghost use Rattle.vuthgal_c.specs.Shows.{Holds};
ghost use Rattle.vuthgal_c.specs.Sessions.{Answers, Copies, HasNone, IsFirstOf, Opens, Repeats, copy_of};

use crate::files::is_within;
use crate::handing::{NO_MEMORY, hand_all, hand_over};
use crate::handle::Handle;
use crate::held::{Held, Unanswered};
use crate::keeping::{put, take};
use byte_ports::CountingSink;
use std::alloc::{AllocError, Global};
use workbench::debug::first_debugger;
use workbench::fault::Fault;
use workbench::program::program_in;

/// The status where a handle has no session.
pub const CLOSED: u8 = 6;

/// The status where a session has no such thread.
pub const NO_THREAD: u8 = 7;

/// The line where a program is too long.
const TOO_LONG: &[u8] = b"read\n";

/// Returns a session of the program in a file, before its first command. It keeps a copy of the image, to begin again from.
fn held_of(alloc: Global, file: &[u8]) -> Result<Held, Fault>
    ensures first { IfOk result (λ held. IsFirstOf file.now held) }
    ensures none { IfErr result (λ fault. HasNone file.now fault) }
{
    let image = match program_in(alloc, file) {
        Ok(program) => program.image,
        Err(fault) => return Err(fault),
    };
    let Ok(kept) = image.copy(alloc) else {
        return Err(Fault::Memory);
    };
    match first_debugger(alloc, image) {
        Ok(debugger) => Ok(Held::new(alloc, debugger, kept)),
        Err(fault) => Err(fault),
    }
}

/// Returns a session of the program in a file, before its first command, in a block of its own, which a handle can hold.
fn boxed(alloc: Global, file: &[u8]) -> Result<Box<Held>, Fault>
    ensures first { IfOk result (λ held. IsFirstOf file.now held.value) }
    ensures none { IfErr result (λ fault. HasNone file.now fault) }
{
    let held = match held_of(alloc, file) {
        Ok(held) => held,
        Err(fault) => return Err(fault),
    };
    match Box::new(alloc, held) {
        Ok(held) => Ok(held),
        Err(_) => Err(Fault::Memory),
    }
}

/// Writes the line that says why there is no session. A sink in memory never fails.
fn tell(fault: Fault, told: &mut CountingSink)
    ensures { told.new.written ≡ told.old.written ++ line_of fault }
{
    match fault.tell(told) {
        Ok(()) => {}
        Err(_) => {}
    }
}

/// Closes the session, if one is open (`let _`), and opens one of `program`. Returns 0, or 3 to 5 for a fault, whose line goes
/// to `line`. After a fault no session is open.
#[unsafe(no_mangle)]
pub extern "C" fn vuthgal_session_open(
    alloc: Global,
    session: &mut Handle,
    program: &[u8],
    line: &mut [u8],
    line_length: &mut usize,
) -> u8
    ensures { (told : List ℕ) × (Holds line.old line.new line_length.new told
        × Opens program.now session.new.session result told) }
{
    let _ = take(alloc, session);
    if !is_within(program) {
        hand_all(TOO_LONG, line, line_length);
        return 5;
    }
    let fault = match boxed(alloc, program) {
        Ok(held) => {
            put(alloc, session, held);
            hand_all(b"", line, line_length);
            return 0;
        }
        Err(fault) => fault,
    };
    let mut told = CountingSink::new(alloc, line.len());
    let status = fault.status();
    tell(fault, &mut told);
    if !told.has_kept(line.len()) {
        hand_all(NO_MEMORY, line, line_length);
        return 4;
    }
    hand_over(&told, line, line_length);
    status
}

/// Carries out a command, a line without its LF, and writes the reply. Returns 0; 6 if no session is open; or 4 if it is out of
/// memory: then the session is as before, or, if the command was carried out and only its reply is lost, it is closed.
#[unsafe(no_mangle)]
pub extern "C" fn vuthgal_session_command(
    alloc: Global,
    session: &mut Handle,
    command: &[u8],
    output: &mut [u8],
    output_length: &mut usize,
) -> u8
    ensures { (reply : List ℕ) × (Holds output.old output.new output_length.new reply
        × Answers session.old.session command.now session.new.session result reply) }
{
    let Some(mut held) = take(alloc, session) else {
        hand_all(b"", output, output_length);
        return CLOSED;
    };
    match held.command(alloc, command) {
        Ok(()) => {
            hand_all(held.reply(), output, output_length);
            put(alloc, session, held);
            0
        }
        Err(Unanswered::NotCarriedOut) => {
            hand_all(b"", output, output_length);
            put(alloc, session, held);
            4
        }
        Err(Unanswered::ReplyLost) => {
            hand_all(b"", output, output_length);
            4
        }
    }
}

/// Writes the last reply again, for a caller whose buffer was too small. Returns 0, or 6 if no session is open.
#[unsafe(no_mangle)]
pub extern "C" fn vuthgal_session_reply(
    alloc: Global,
    session: &mut Handle,
    output: &mut [u8],
    output_length: &mut usize,
) -> u8
    ensures reply { (reply : List ℕ) × (Holds output.old output.new output_length.new reply
        × Repeats session.old.session result reply) }
    ensures session { session.new.session ≡ session.old.session }
{
    let Some(held) = take(alloc, session) else {
        hand_all(b"", output, output_length);
        return CLOSED;
    };
    hand_all(held.reply(), output, output_length);
    put(alloc, session, held);
    0
}

/// Returns a copy of a session in a block of its own.
fn boxed_copy(alloc: Global, held: &Held) -> Result<Box<Held>, AllocError>
    ensures { IfOk result (λ copy. copy.value ≡ copy_of held.now) }
{
    let copy = match held.copy(alloc) {
        Ok(copy) => copy,
        Err(refused) => return Err(refused),
    };
    match Box::new(alloc, copy) {
        Ok(copy) => Ok(copy),
        Err(_) => Err(AllocError),
    }
}

/// Makes `to` a session in the state of `from`, and closes the one that `to` had. Returns 0, or 6 if `from` isn't open, or 4 if
/// it is out of memory. With 4 and 6, `to` is as before.
#[unsafe(no_mangle)]
pub extern "C" fn vuthgal_session_copy(alloc: Global, from: &mut Handle, to: &mut Handle) -> u8
    ensures to { Copies from.old.session to.old.session to.new.session result }
    ensures from { from.new.session ≡ from.old.session }
{
    let Some(held) = take(alloc, from) else {
        return CLOSED;
    };
    let copied = boxed_copy(alloc, &held);
    put(alloc, from, held);
    match copied {
        Ok(copy) => {
            put(alloc, to, copy);
            0
        }
        Err(_) => 4,
    }
}

/// Closes a session, if it is open, and frees all that it has.
#[unsafe(no_mangle)]
pub extern "C" fn vuthgal_session_close(alloc: Global, session: &mut Handle)
    ensures { session.new.session ≡ None }
{
    let _ = take(alloc, session);
}
