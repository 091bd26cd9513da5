//! Ports over readers and writers that fail or are interrupted.
use Trouble::{FailsAt, Interrupted, Smooth};
use byte_ports::{ReadPort, Sink, Source, WritePort};
use std::io;
use std::io::{ErrorKind, Read, Write};

/// What befalls the calls of a reader or a writer, counted from 0.
#[derive(Clone, Copy)]
enum Trouble {
    Smooth,
    FailsAt(u32),
    /// From this call on, so many are interrupted.
    Interrupted(u32, u32),
}

/// The calls of a reader or a writer: what befalls them, and how many were made.
#[derive(Clone, Copy)]
struct Calls {
    trouble: Trouble,
    made: u32,
}

impl Calls {
    /// Counts a call, and fails if it is one that is interrupted or the one that fails.
    fn next(&mut self) -> io::Result<()> {
        let call = self.made;
        self.made = call.saturating_add(1);
        match self.trouble {
            FailsAt(at) if call == at => Err(ErrorKind::BrokenPipe.into()),
            Interrupted(from, times) if call >= from && call - from < times => {
                Err(ErrorKind::Interrupted.into())
            }
            _ => Ok(()),
        }
    }
}

/// A reader that gives one byte a call.
#[derive(Drop)]
struct FakeReader<'a> {
    rest: &'a [u8],
    calls: Calls,
}

impl Read for FakeReader<'_> {
    /// Reads one byte, or none at the end; or fails as `calls` says.
    fn read(&mut self, buffer: &mut [u8]) -> io::Result<usize> {
        self.calls.next()?;
        if buffer.is_empty() || self.rest.is_empty() {
            return Ok(0);
        }
        buffer[0] = self.rest[0];
        self.rest = &self.rest[1..];
        Ok(1)
    }
}

/// What befalls a reader, how many of the port's six calls succeed, their bytes, and how often the reader was called. A call is
/// tried 1,000 times at most.
static READS: [(Trouble, usize, &[u8; 13], u32); 5] = [
    (Smooth, 6, b"abc..........", 6),
    (FailsAt(0), 0, b".............", 1),
    (FailsAt(2), 2, b"ab...........", 3),
    (Interrupted(0, 999), 6, b"abc..........", 1005),
    (Interrupted(0, 1000), 0, b".............", 1000),
];

/// Makes six calls of a port, each into a buffer that begins one place later. Returns whether exactly the first `succeeding`
/// calls succeed, and these places then hold `bytes`: a dot where nothing was read.
fn gives<R: Read>(port: &mut ReadPort<R>, succeeding: usize, bytes: &[u8; 13]) -> bool {
    let mut given = [b'.'; 13];
    let mut is_as_wanted = true;
    for call in 0..6usize {
        let succeeds = port.pull(&mut given[call..call + 8]).is_ok();
        is_as_wanted = is_as_wanted && succeeds == (call < succeeding);
    }
    is_as_wanted && given == *bytes
}

/// Checks that a port tries an interrupted read again. Once its reader has failed, the port fails for good without calling it.
#[test]
fn reads_through_interruptions_and_fails_with_its_reader(rt: HostRuntime) {
    for (trouble, succeeding, bytes, made) in &READS {
        let calls = Calls {
            trouble: *trouble,
            made: 0,
        };
        let mut reader = FakeReader {
            rest: b"abc",
            calls,
        };
        let mut port = ReadPort::new(&mut reader);
        let gives = gives(&mut port, *succeeding, *bytes);
        assert!(rt; gives && reader.calls.made == *made, "{made}");
    }
}

/// A writer that takes two bytes a call at most. A call is a write or a flush.
#[derive(Drop)]
struct FakeWriter {
    kept: Vec<u8>,
    calls: Calls,
    flushes: u32,
}

impl Write for FakeWriter {
    /// Keeps at most two of these bytes, and returns how many; or fails as `calls` says.
    fn write(&mut self, bytes: &[u8]) -> io::Result<usize> {
        self.calls.next()?;
        let count = bytes.len().min(2);
        self.kept.extend_from_slice(&bytes[..count])?;
        Ok(count)
    }

    /// Counts a flush; or fails as `calls` says.
    fn flush(&mut self) -> io::Result<()> {
        self.calls.next()?;
        self.flushes = self.flushes.saturating_add(1);
        Ok(())
    }
}

/// What befalls a writer; how many of the calls of `succeeds` come before the first that fails; what was written; how often the
/// writer was called; and how often it flushed. The first flush is call 3.
static WRITES: [(Trouble, usize, &[u8], u32, u32); 7] = [
    (Smooth, 5, b"abcde", 5, 2),
    (FailsAt(1), 0, b"ab", 2, 0),
    (FailsAt(2), 1, b"abc", 3, 0),
    (FailsAt(3), 3, b"abcde", 4, 0),
    (Interrupted(0, 3), 5, b"abcde", 8, 2),
    (Interrupted(3, 999), 5, b"abcde", 1004, 2),
    (Interrupted(3, 1000), 3, b"abcde", 1003, 0),
];

/// Pushes three times and finishes twice. Returns whether exactly the first `succeeding` of these five calls succeed.
fn succeeds<W: Write>(port: &mut WritePort<W>, succeeding: usize) -> bool {
    let pushed = [
        port.push(b"abc").is_ok(),
        port.push(b"de").is_ok(),
        port.push(b"").is_ok(),
    ];
    let finished = [port.finish().is_ok(), port.finish().is_ok()];
    pushed == [0 < succeeding, 1 < succeeding, 2 < succeeding]
        && finished == [3 < succeeding, 4 < succeeding]
}

/// Checks that a port tries an interrupted write or flush again. Once its writer has failed, the port fails for good.
#[test]
fn writes_through_interruptions_and_fails_with_its_writer(rt: HostRuntime) {
    for (trouble, succeeding, bytes, made, flushes) in &WRITES {
        let calls = Calls {
            trouble: *trouble,
            made: 0,
        };
        let mut writer = FakeWriter {
            kept: Vec::new(rt.alloc()),
            calls,
            flushes: 0,
        };
        let succeeds = succeeds(&mut WritePort::new(&mut writer), *succeeding);
        assert!(rt; succeeds && writer.kept.as_slice() == *bytes, "{made}");
        assert!(rt;
            writer.calls.made == *made && writer.flushes == *flushes,
            "{made}"
        );
    }
}
