// As much of a schedule as a picture needs: nothing after its first fault, or after one choice too many.
ghost use Rattle.std.specs.Prelude.{◌≡◌, ◌≢◌, ◌⊎◌, ◌≤◌, ◌<◌, ◌+◌, ◌++◌, ℕ, List, [], ◌∷◌, Err, IsTrue, false, IfErr, IfOk, length, take};
ghost use Rattle.commands.specs.Picture.{ShowsNone, most_of};
ghost use Rattle.schedule_reader.specs.Schedule.{choices_of};
ghost use Rattle.workbench.specs.{Fault.status_of, Input.GivesAll, Input.GivesFront, Input.GivesTooMuch, Input.most_bytes};

use byte_ports::Source;
use schedule_reader::{Reader, Run, ScheduleFault};
use std::alloc::Global;
use std::marker::Model;
use workbench::fault::{Fault, PictureKind};
use workbench::input::{MOST_BYTES, PIECE, append, pull};

/// The beginning of a schedule, which has no fault so far.
#[derive(Drop)]
struct Front {
    bytes: Vec<u8>,
    reader: Reader,
    choices: u64,
    /// The run that the last byte ended, if it ended one.
    ended: Vec<Run>,
}

impl Model for Front {
    ghost use Rattle.std.specs.Prelude.{◌≤◌, ℕ, List, length};
    ghost use Rattle.schedule_reader.specs.{Places.HasRead, Schedule.choices_of, Schedule.open_schedule};
    ghost use Rattle.workbench.specs.Input.{most_bytes};

    ghost Value = { List ℕ };

    ghost view = { λ front. front.bytes.items };

    ghost invariant = { λ front. HasRead front.reader front.bytes.items × (length front.bytes.items ≤ most_bytes)
        × (front.choices ≤ length (choices_of (open_schedule front.bytes.items).runs)) };
}

impl Front {
    /// Makes the beginning of a schedule of which nothing was read.
    fn new(alloc: Global) -> Front
        ensures { result ≡ [] }
    {
        Front {
            bytes: Vec::new(alloc),
            reader: Reader::new(),
            choices: 0,
            ended: Vec::new(alloc),
        }
    }

    /// Takes the next byte. Fails if with it the schedule has a fault, more than `most` choices, or too many bytes.
    fn with_byte(mut self, kind: PictureKind, most: u64, byte: u8) -> Result<Front, Fault>
        requires { most_of kind ≤ most }
        ensures bytes { IfOk result (λ front. front ≡ self ++ (byte ∷ [])) }
        ensures refused { IfErr result (λ fault. status_of fault ≡ 3
            → ShowsNone kind fault (self ++ (byte ∷ [])) × (length (self ++ (byte ∷ [])) ≤ most_bytes)) }
        ensures read { result ≡ Err Fault.Read → most_bytes < length (self ++ (byte ∷ [])) }
        ensures other { (result ≢ Err Fault.Write) × (result ≢ Err Fault.Spawn) }
    {
        append(&mut self.bytes, &[byte])?;
        self.ended.clear();
        match self.reader.feed(&[byte], &mut self.ended) {
            Ok(()) => {}
            Err(ScheduleFault::Memory) => return Err(Fault::Memory),
            Err(fault) => return Err(Fault::Schedule(fault)),
        }
        self.choices = with_first(self.choices, self.ended.as_slice());
        if self.choices > most {
            return Err(Fault::TooLong(kind));
        }
        Ok(self)
    }

    /// Takes the next bytes in order. Fails at the first that makes a fault, more than `most` choices, or too many bytes.
    fn with_bytes(self, kind: PictureKind, most: u64, piece: &[u8]) -> Result<Front, Fault>
        requires { most_of kind ≤ most }
        ensures bytes { IfOk result (λ front. front ≡ self ++ piece.now) }
        ensures refused { IfErr result (λ fault. status_of fault ≡ 3 → (n : ℕ)
            × (ShowsNone kind fault (self ++ take n piece.now) × (length (self ++ take n piece.now) ≤ most_bytes))) }
        ensures read { result ≡ Err Fault.Read → most_bytes < length (self ++ piece.now) }
        ensures other { (result ≢ Err Fault.Write) × (result ≢ Err Fault.Spawn) }
    {
        let mut front = self;
        for byte in piece {
            front = front.with_byte(kind, most, *byte)?;
        }
        Ok(front)
    }
}

/// Returns `choices` plus the number of choices of the first of these runs, if there is one: a byte ends at most one run.
fn with_first(choices: u64, runs: &[Run]) -> u64
    ensures { result ≤ choices + length (choices_of runs.now) }
{
    match runs.first() {
        Some(run) => choices.saturating_add(u64::from(run.times)),
        None => choices,
    }
}

/// Reads a schedule for a picture to its end. At a fault, or after the run with the first choice beyond `most`, it fails at
/// once, without waiting for more: with that fault, or with `TooLong`. It fails with `Read` if there are more than 16,777,216
/// bytes.
pub(crate) fn read_enough<S: Source>(
    alloc: Global,
    source: &mut S,
    kind: PictureKind,
    most: u64,
) -> Result<Vec<u8>, Fault>
    requires { most_of kind ≤ most }
    ensures whole { IfOk result (λ bytes. GivesAll (S.left source.old) (S.left source.new) bytes.items) }
    ensures refused { IfErr result (λ fault. status_of fault ≡ 3 → (front : List ℕ)
        × (GivesFront (S.left source.old) (S.left source.new) front false × ShowsNone kind fault front)) }
    ensures read { result ≡ Err Fault.Read → IsTrue (S.has_failed source.new)
        ⊎ GivesTooMuch (S.left source.old) (S.left source.new) }
    ensures sound { (result ≢ Err Fault.Read) → S.has_failed source.new ≡ false }
    ensures other { (result ≢ Err Fault.Write) × (result ≢ Err Fault.Spawn) }
{
    let mut front = Front::new(alloc);
    let mut piece = [0u8; PIECE];
    for _ in 0..=MOST_BYTES {
        let count = pull(source, &mut piece)?;
        if count == 0 {
            return Ok(front.bytes);
        }
        front = front.with_bytes(kind, most, &piece[..count])?;
    }
    // Each piece has at least a byte: so many pieces are too many bytes, and `with_bytes` has failed.
    unreachable!()
}
