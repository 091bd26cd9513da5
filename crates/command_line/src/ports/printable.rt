//! What a terminal shows: no byte of an input that would control the terminal is written to it.

ghost use Rattle.std.specs.Io.{WritesAtMost, KnownBytes.WriteAppends};
ghost use Rattle.std.specs.Prelude.{◌≡◌, IsTrue, None, if◌then◌else◌, length, map, min, take};
ghost use Rattle.command_line.specs.Shown.{IsShown, shown_for};

use std::io;
use std::io::{IsTerminal, Stderr, Write};

/// How many bytes are written to a terminal at a time.
const PIECE: usize = 512;

/// A writer for any bytes. If it is a terminal, a byte that isn't printable ASCII is shown as `?`, and a tab as a blank; LF
/// stays. To a file or a pipe all bytes are written as they are.
#[derive(Drop)]
pub struct Printable<W> {
    writer: W,
    is_terminal: bool,
}

/// Returns a writer over `writer`, which writes to standard output. `rt` says whether standard output is a terminal.
pub fn output<W>(rt: &HostRuntime, writer: W) -> Printable<W>
    ensures { result.writer ≡ writer }
{
    Printable {
        writer,
        is_terminal: rt.stdout().is_terminal(),
    }
}

/// Returns a writer for standard error that replaces what a terminal shouldn't get.
pub fn errors(rt: &HostRuntime) -> Printable<Stderr> {
    Printable {
        writer: rt.stderr(),
        is_terminal: rt.stderr().is_terminal(),
    }
}

/// Returns what is written to a terminal for this byte: printable ASCII and LF stay, a tab is a blank, all else is `?`.
fn shown(byte: u8) -> u8
    ensures byte { result ≡ shown_for byte }
    ensures shown { IsShown result }
{
    match byte {
        b'\n' | b' '..=b'~' => byte,
        b'\t' => b' ',
        _ => b'?',
    }
}

/// Puts what a terminal is shown for these bytes at the start of `piece`, as much as there is room for. Returns how much.
fn put_shown(bytes: &[u8], piece: &mut [u8]) -> usize
    ensures count { result ≡ min (length bytes.now) (length piece.old) }
    ensures room { length piece.new ≡ length piece.old }
    ensures shown { take result piece.new ≡ map shown_for (take result bytes.now) }
{
    let count = bytes.len().min(piece.len());
    for at in 0..count {
        piece[at] = shown(bytes[at]);
    }
    count
}

impl<W: Write> Write for Printable<W> {
    // What a terminal shows is unknown.
    ghost contents = { λ w. if w.is_terminal then None else W.contents w.writer };

    /// Writes bytes. To a terminal it writes at most 512 of them, changed by `shown`. Returns how many of `bytes` are written.
    fn write(&mut self, bytes: &[u8]) -> io::Result<usize>
        ensures bound { WritesAtMost result bytes.now }
        ensures bytes { WriteAppends (if self.old.is_terminal then None else W.contents self.old.writer)
            (if self.new.is_terminal then None else W.contents self.new.writer) result bytes.now }
        ensures terminal { IsTrue self.old.is_terminal → WriteAppends (W.contents self.old.writer)
            (W.contents self.new.writer) result (map shown_for bytes.now) }
        ensures stays { self.new.is_terminal ≡ self.old.is_terminal }
    {
        if !self.is_terminal {
            return self.writer.write(bytes);
        }
        let mut piece = [b'?'; PIECE];
        let count = put_shown(bytes, &mut piece);
        self.writer.write(&piece[..count])
    }

    /// Flushes the inner writer: this one keeps no bytes back.
    fn flush(&mut self) -> io::Result<()> {
        self.writer.flush()
    }
}
