//! What separates the words of a line, and where a byte or a comment begins.
ghost use Rattle.std.specs.Prelude.{◌≡◌, ◌==◌, ◌<◌, ◌≤◌, IfSome, bytes_eq, false, length, not, slice_index};
ghost use Rattle.std.specs.List.{before_first, position, position_or_len};
ghost use Rattle.line_reader.specs.Words.{begins_comment, is_allowed, is_blank, is_line_end};

use crate::byte_kind::is_allowed;

/// Returns whether a byte is a blank in a line: a space, a tab, or CR, so that lines may end in CR LF.
pub fn is_blank(byte: u8) -> bool
    ensures { result ≡ is_blank byte }
{
    matches!(byte, b' ' | b'\t' | b'\r')
}

/// Returns whether a byte ends a line: LF.
pub fn is_line_end(byte: u8) -> bool
    ensures { result ≡ is_line_end byte }
{
    byte == b'\n'
}

/// Returns the place of the first byte that no line may have, if there is one.
pub fn place_of_forbidden(line: &[u8]) -> Option<usize>
    ensures first { result ≡ position (λ byte. not (is_allowed byte)) line.now }
    ensures there { IfSome result (λ place. (place < length line.now) × (is_allowed (slice_index line.now place) ≡ false)) }
{
    line.iter().position(|byte| !is_allowed(*byte))
}

/// Returns the place of the first byte of this value, if there is one.
pub fn place_of(byte: u8, bytes: &[u8]) -> Option<usize>
    ensures { result ≡ position (λ one. one == byte) bytes.now }
{
    bytes.iter().position(|one| *one == byte)
}

/// Returns how many bytes are before the first one of this value, or all if there is none.
#[tactic(auto, using(crate::proofs::Places::position_some, crate::proofs::Places::position_none))]
pub fn length_before(byte: u8, bytes: &[u8]) -> usize
    ensures length { result ≡ position_or_len (λ one. one == byte) bytes.now }
    ensures within { result ≤ length bytes.now }
{
    match place_of(byte, bytes) {
        Some(place) => place,
        None => bytes.len(),
    }
}

/// Returns the line up to its first `;`, which begins its comment.
pub fn before_comment(line: &[u8]) -> &[u8]
    ensures { result.now ≡ before_first begins_comment line.now }
{
    &line[..length_before(b';', line)]
}

/// Returns whether the word of a line is this text, byte for byte.
pub fn is_word(word: &[u8], text: &str) -> bool
    ensures { result ≡ bytes_eq word.now text.now }
{
    word == text.as_bytes()
}
