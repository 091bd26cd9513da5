// Reads an input whole, if it isn't too long.
ghost use Rattle.std.specs.Prelude.{◌≡◌, ◌⊎◌, ◌≤◌, ◌<◌, ◌+◌, ◌++◌, Err, IsTrue, false, IfOk, IfErr, OnOk, length};
ghost use Rattle.std.specs.Io.KnownBytes.{ReadConsumes, Consumes, IsAtEnd};
ghost use Rattle.workbench.specs.Input.{GivesTooMuch, most_bytes};

use crate::fault::Fault;
use byte_ports::Source;
use std::alloc::Global;

/// How many bytes an input may have.
pub const MOST_BYTES: usize = 16_777_216;

/// How many bytes are asked for at a time.
pub const PIECE: usize = 4096;

/// Reads the next bytes to the start of `piece`, and returns how many: 0 only at the end.
pub fn pull<S: Source>(source: &mut S, piece: &mut [u8]) -> Result<usize, Fault>
    ensures bytes { ReadConsumes (S.left source.old) (S.left source.new) result piece.new }
    ensures bound { IfOk result (λ n. n ≤ length piece.new) }
    ensures read { IfErr result (λ fault. (fault ≡ Fault.Read) × IsTrue (S.has_failed source.new)) }
    ensures sound { OnOk result (S.has_failed source.new ≡ false) }
    ensures reads { S.reads source.new ≤ S.reads source.old + 1 }
{
    match source.pull(piece) {
        Ok(count) => Ok(count),
        Err(_) => Err(Fault::Read),
    }
}

/// Appends a piece. Fails with `Read` if there would be more than 16,777,216 bytes.
pub fn append(bytes: &mut Vec<u8>, piece: &[u8]) -> Result<(), Fault>
    requires { length bytes.old.items ≤ most_bytes }
    ensures appended { OnOk result (bytes.new.items ≡ bytes.old.items ++ piece.now) }
    ensures few { OnOk result (length bytes.new.items ≤ most_bytes) }
    ensures read { result ≡ Err Fault.Read → most_bytes < length (bytes.old.items ++ piece.now) }
    ensures fault { IfErr result (λ fault. (fault ≡ Fault.Memory) ⊎ (fault ≡ Fault.Read)) }
{
    if piece.len() > MOST_BYTES - bytes.len() {
        return Err(Fault::Read);
    }
    bytes.extend_from_slice(piece).map_err(|_| Fault::Memory)
}

/// Reads a source to its end, and returns the bytes. Fails with `Read` if the source fails or has more than 16,777,216 bytes.
pub fn read_all<S: Source>(alloc: Global, source: &mut S) -> Result<Vec<u8>, Fault>
    ensures bytes { IfOk result (λ bytes. Consumes (S.left source.old) (S.left source.new) bytes.items) }
    ensures end { IfOk result (λ bytes. IsAtEnd (S.left source.new)) }
    ensures few { IfOk result (λ bytes. length bytes.items ≤ most_bytes) }
    ensures read { result ≡ Err Fault.Read → IsTrue (S.has_failed source.new)
        ⊎ GivesTooMuch (S.left source.old) (S.left source.new) }
    ensures fault { IfErr result (λ fault. ((fault ≡ Fault.Memory) × (S.has_failed source.new ≡ false)) ⊎ (fault ≡ Fault.Read)) }
    ensures sound { OnOk result (S.has_failed source.new ≡ false) }
    ensures reads { IfOk result (λ bytes. S.reads source.new ≤ S.reads source.old + (length bytes.items + 1)) }
    ensures most_reads { S.reads source.new ≤ S.reads source.old + (most_bytes + 1) }
{
    let mut bytes = Vec::new(alloc);
    let mut piece = [0u8; PIECE];
    for _ in 0..=MOST_BYTES {
        let count = pull(source, &mut piece)?;
        if count == 0 {
            return Ok(bytes);
        }
        append(&mut bytes, &piece[..count])?;
    }
    // Each piece has at least a byte: so many pieces are too many bytes, and `append` has failed.
    unreachable!()
}
