//! What a file is, by its bytes: it may have been given in place of another, or saved in another encoding.

use schedule_reader::read_schedule;
use std::alloc::Global;

/// How many bytes are looked at, at most.
const LONGEST: usize = 16_777_216;

/// How many bytes of a file show whether it is binary.
const BEGINNING: usize = 512;

/// Returns whether these bytes are a schedule with at least one choice, such as `t0 t1*3`.
pub fn is_schedule(alloc: Global, bytes: &[u8]) -> bool {
    bytes.len() <= LONGEST && read_schedule(alloc, bytes).is_ok_and(|runs| !runs.is_empty())
}

/// Returns whether these bytes are a trace, by how they begin: with a line of the first choice, or the state's.
pub fn is_trace(bytes: &[u8]) -> bool {
    bytes.starts_with(b"1 t") || bytes.starts_with(b"1 x") || bytes.starts_with(b"state ")
}

/// Returns whether a line of these bytes begins with `.thread`, as one of each program does.
pub fn is_whole_program(bytes: &[u8]) -> bool {
    bytes
        .split(|byte| *byte == b'\n')
        .any(|line| line.trim_ascii_start().starts_with(b".thread"))
}

/// Returns whether bytes are UTF-16: they begin with a byte order mark, or with two ASCII letters of two bytes.
fn is_utf_16(bytes: &[u8]) -> bool {
    match bytes {
        [0xff, 0xfe, ..] | [0xfe, 0xff, ..] => true,
        [0, first, 0, second, ..] | [first, 0, second, 0, ..] => matches!(
            (*first, *second),
            (1..=126, 1..=126)
        ),
        _ => false,
    }
}

/// Returns what helps if a file has a byte order mark, is UTF-16 or is binary. None for an ASCII text.
pub fn helps_at_encoding(bytes: &[u8]) -> Option<&'static str> {
    helps! {
        bytes.starts_with(&[0xef, 0xbb, 0xbf]) =>
            "the file begins with a UTF-8 byte order mark (EF BB BF): save it without one",
        is_utf_16(bytes) => "the file is UTF-16: save it as ASCII",
        bytes.get(..BEGINNING).unwrap_or(bytes).contains(&0) =>
            "the file is binary: a text is ASCII, and `vuthgal asm` makes images",
        else None
    }
}
