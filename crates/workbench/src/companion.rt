// Where the lines of a session come from.
ghost use Rattle.std.specs.Prelude.{◌≡◌, ◌⊎◌, ◌+◌, ◌≤◌, ◌∷◌, ◌++◌, [], true, false, ℕ, Bool, length, List, Option, Some, None, Ok, Err, IsTrue, IfErr, OnOk};
ghost use Rattle.std.specs.Io.KnownBytes.{Consumes, IsAtEnd};
ghost use Rattle.workbench.specs.{declared.fault.Fault.Fault, Debug.HasNoEnd, Input.IsCounted};

use crate::fault::Fault;
use crate::input::pull;
use byte_ports::Source;
use debugger::Debugger;

/// A source of a session's lines, which sees the debugger before each of them. A source of bytes returns its lines as they are,
/// and ignores the debugger.
pub trait Companion {
    // The bytes of the lines that are left. `None`: they aren't told.
    ghost left: { Self → Option (List ℕ) };

    // Whether the lines could not be read.
    ghost has_failed: { Self → Bool };

    /// Puts the next line, without its LF, in place of what `line` holds. Returns true if it had an LF, and false if the lines
    /// end with it. It reads no byte after the LF, so the reply can be written before the next line is there. `reads` is how
    /// many bytes may still be read: if they don't suffice, this fails with `Read`.
    fn next_line(
        &mut self,
        debugger: &Debugger,
        reads: &mut u64,
        line: &mut Vec<u8>,
    ) -> Result<bool, Fault>
        ensures ended { result ≡ Ok true
            → Consumes (left self.old) (left self.new) (line.new.items ++ 10 ∷ [])
            × (length line.new.items + 1 + reads.new ≡ reads.old) }
        ensures last { result ≡ Ok false
            → Consumes (left self.old) (left self.new) line.new.items × IsAtEnd (left self.new) }
        ensures line { HasNoEnd line.new.items }
        ensures read { result ≡ Err Fault.Read
            → (IsTrue (has_failed self.new) ⊎ (reads.old ≤ length line.new.items))
            × Consumes (left self.old) (left self.new) line.new.items }
        ensures memory { result ≡ Err Fault.Memory → (part : List ℕ) × (HasNoEnd part
            × Consumes (left self.old) (left self.new) part) }
        ensures sound { result ≡ Err Fault.Memory → has_failed self.old ≡ false → has_failed self.new ≡ false }
        ensures fault { IfErr result (λ fault. (fault ≡ Fault.Memory) ⊎ (fault ≡ Fault.Read)) }
        ensures few { IsCounted reads.old reads.new (left self.old) (left self.new) };
}

/// Reads one byte and returns it, or `None` at the end.
fn next_byte<S: Source>(source: &mut S) -> Result<Option<u8>, Fault>
    ensures byte { (byte : ℕ) → result ≡ Ok (Some byte) → Consumes (S.left source.old) (S.left source.new) (byte ∷ []) }
    ensures end { result ≡ Ok None → Consumes (S.left source.old) (S.left source.new) [] × IsAtEnd (S.left source.new) }
    ensures read { IfErr result (λ fault. (fault ≡ Fault.Read) × IsTrue (S.has_failed source.new)
        × Consumes (S.left source.old) (S.left source.new) []) }
    ensures sound { OnOk result (S.has_failed source.new ≡ false) }
{
    let mut byte = [0u8; 1];
    match pull(source, &mut byte) {
        Ok(0) => Ok(None),
        Ok(_) => Ok(Some(byte[0])),
        Err(fault) => Err(fault),
    }
}

impl<S: Source> Companion for S {
    ghost left = { λ source. S.left source };

    ghost has_failed = { λ source. S.has_failed source };

    /// Reads byte by byte, at most `reads`, so that none after the LF is read. Returns false at the end. It ignores the
    /// debugger.
    fn next_line(
        &mut self,
        _debugger: &Debugger,
        reads: &mut u64,
        line: &mut Vec<u8>,
    ) -> Result<bool, Fault> {
        line.clear();
        while *reads > 0 {
            *reads -= 1;
            match next_byte(self) {
                Ok(None) => return Ok(false),
                Ok(Some(b'\n')) => return Ok(true),
                Ok(Some(byte)) => {
                    if line.push(byte).is_err() {
                        return Err(Fault::Memory);
                    }
                }
                Err(fault) => return Err(fault),
            }
        }
        Err(Fault::Read)
    }
}
