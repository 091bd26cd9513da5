//! The commands that need no threads, as calls for C and for languages that call C.
//!
//! The caller passes the input of a command as bytes, and two buffers in its own memory. As `snprintf` does, a call writes as
//! many bytes as fit into a buffer, and reports the count of all bytes. Each call belongs to a command. The output, the
//! status and the line of a fault are those that this command promises for ports in memory. Only a session goes on from call to
//! call. It is in memory that belongs to its handle, and the caller closes it. `include/vuthgal.h` declares the calls.
#![tactic(auto)]

// How what a call writes is passed to the caller.
pub mod handing;
pub mod reply;

// The program in a file.
pub mod files;

// A session in the memory of its caller.
mod handle;
mod held;
mod keeping;
mod loose;
mod session_sink;

// Its state and its events as numbers.
pub mod look;
mod looking;

// Where an input is refused.
pub mod place;

// The calls.
pub mod choices;
pub mod debugging;
pub mod drawing;
pub mod expecting;
pub mod explaining;
pub mod going;
pub mod law;
pub mod looks;
pub mod mistake;
mod origin;
pub mod other;
pub mod planning;
pub mod playing;
pub mod sessions;
pub mod stepping;
pub mod texts;
pub mod traces;
pub mod version;
