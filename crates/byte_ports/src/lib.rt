//! Where bytes come from, and where they go.
//!
//! The workbench reads bytes from a `Source` and writes bytes to a `Sink`. It never sees a file or a terminal. Sources and
//! sinks are called ports. The contracts of other crates can name the bytes of a port. Ports are like Java's streams, but a
//! call returns `Failed` where Java throws `IOException`. After a port has failed, each later call returns `Failed`, too.
#![tactic(auto)]

// The error.
pub mod failed;

// The traits that other crates use.
pub mod sink;
pub mod source;

// Ports over another one.
pub mod block_port;
pub mod block_source;
mod short_copy;

// Lines.
pub mod source_lines;

// Ports over bytes in memory.
pub mod came;
pub mod counting_sink;
mod fail_at;
pub mod memory_sink;
pub mod memory_source;

// Ports over the readers and writers of std.
mod interruption;
pub mod read_port;
pub mod write_port;

pub use block_port::BlockPort;
pub use block_source::BlockSource;
pub use came::Came;
pub use counting_sink::CountingSink;
pub use failed::Failed;
pub use interruption::MOST_TRIES;
pub use memory_sink::MemorySink;
pub use memory_source::MemorySource;
pub use read_port::ReadPort;
pub use sink::Sink;
pub use source::Source;
pub use source_lines::{LineEnded, SourceLines};
pub use write_port::WritePort;
