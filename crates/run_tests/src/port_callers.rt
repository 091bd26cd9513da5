//! A caller that works with any port, with its proof: what other crates can say of the bytes that they move, and of the side
//! that failed.
ghost use Rattle.std.specs.Prelude.{◌≡◌, ℕ, List, length, IsTrue, IfOk};
ghost use Rattle.std.specs.Io.KnownBytes.{Appends, Consumes};

use byte_ports::{Failed, MemorySink, MemorySource, ReadPort, Sink, Source, WritePort};
use std::io;
use std::test::Fail;

#[derive(Clone, Copy, PartialEq, Eq)]
enum Fault {
    Read,
    Write,
}

/// Copies one piece of the source, at most as much as the buffer holds, and returns its length.
fn copy_piece<S: Source, K: Sink>(
    source: &mut S,
    sink: &mut K,
    buffer: &mut [u8],
) -> Result<usize, Fault>
    ensures moved { IfOk result (λ n. (bytes : List ℕ) × (length bytes ≡ n)
        × Consumes (S.left source.old) (S.left source.new) bytes
        × Appends (K.written sink.old) (K.written sink.new) bytes) }
    ensures read { result ≡ Err Fault.Read → IsTrue (S.has_failed source.new) }
    ensures write { result ≡ Err Fault.Write → IsTrue (K.has_failed sink.new) }
{
    let Ok(count) = source.pull(buffer) else {
        return Err(Fault::Read);
    };
    match sink.push(&buffer[..count]) {
        Ok(()) => Ok(count),
        Err(Failed) => Err(Fault::Write),
    }
}

/// The source's call that fails, the sink's call that fails, the fault of the second piece, and the bytes that have moved.
static COPIES: [(Option<u32>, Option<u32>, Option<Fault>, &[u8]); 3] = [
    (None, None, None, b"barrie"),
    (Some(1), None, Some(Fault::Read), b"bar"),
    (None, Some(0), Some(Fault::Write), b""),
];

/// Checks that a copy moves what comes before the call that fails, and says which side has failed.
#[test]
fn copies_over_memory(rt: HostRuntime) -> Result<(), Fail> {
    for (read_fails, write_fails, fault, bytes) in &COPIES {
        let mut sink = MemorySink::new(rt.alloc(), 8, *write_fails)?;
        let mut source = MemorySource::new(b"barrier", *read_fails);
        let mut buffer = [0; 3];
        let _ = copy_piece(&mut source, &mut sink, &mut buffer); // a port that has failed stays so
        let met = copy_piece(&mut source, &mut sink, &mut buffer).err();
        assert!(rt; met == *fault && sink.bytes() == *bytes);
    }
    Ok(())
}

/// Checks that the same copy works over a reader and a writer of the standard library.
#[test]
fn copies_over_std(rt: HostRuntime) {
    let mut kept = Vec::new(rt.alloc());
    let mut source = ReadPort::new(io::Cursor::new(b"barrier".as_slice()));
    let mut sink = WritePort::new(&mut kept);
    let copied = copy_piece(&mut source, &mut sink, &mut [0; 3]);
    assert!(rt; copied == Ok(3) && kept.as_slice() == b"bar".as_slice());
}
