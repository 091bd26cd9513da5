//! The reader of a stream that comes in pieces. The grammar of a token is in `place`.
ghost use Rattle.std.specs.Prelude.{◌≡◌, ◌≢◌, ◌⊎◌, ◌+◌, ◌*◌, ◌/◌, ◌<◌, ◌≤◌, List, ◌∷◌, [], ◌++◌, ℕ, Bool, false, length, drop, IfOk, IfSome, IfErr, OnOk, IsErr, All, Err, Ok, Some, None};
ghost use Rattle.std.specs.Vec.{vec_len, vec_capacity};
ghost use Rattle.schedule_reader.specs.declared.{fault.ScheduleFault.TheVariants.Memory, place.Place.TheVariants.Between};
ghost use Rattle.schedule_reader.specs.Schedule.{Schedule, IsRun, choice_of, run_of, open_schedule, finished_schedule};
ghost use Rattle.schedule_reader.specs.Reading.{Adds, answer_of};
ghost use Rattle.schedule_reader.specs.Places.{IsPlace, HasRead, Takes, BeginsWithTurn, spent, piece_with, schedule_from};

use crate::fault::ScheduleFault;
use crate::place::{Place, is_blank};
use crate::run::Run;
use std::marker::Model;
use thread_machine::Choice;

/// The highest number that a thread can have.
const LAST_THREAD: u8 = 63;

/// Reads a schedule, a stream of bytes that comes in pieces. A token is complete when a blank follows it, or at `finish`.
/// After a fault every call returns that fault.
#[derive(Drop)]
pub struct Reader {
    read: u64,
    place: Place,
    fault: Option<ScheduleFault>,
}

impl Model for Reader {
    ghost use Rattle.schedule_reader.specs.Places.{Progress, IsPlace};

    ghost Value = { Progress };

    ghost view = { λ reader. record {
      read = reader.read;
      place = reader.place;
      fault = reader.fault;
    } };

    ghost invariant = { λ reader. IsPlace reader.read reader.place };
}

impl Reader {
    /// Makes a reader at the beginning of a stream.
    pub fn new() -> Reader
        ensures stream { HasRead result [] }
        ensures read { result.read ≡ 0 }
        ensures fault { result.fault ≡ None }
    {
        Reader {
            read: 0,
            place: Place::Between,
            fault: None,
        }
    }

    /// Returns how many bytes the reader was given.
    pub fn bytes_read(&self) -> u64
        ensures { result ≡ self.now.read }
    {
        self.read
    }

    /// Takes the stream's next bytes, and appends the runs of the tokens that they complete. Returns the stream's first fault,
    /// now and in each later call. It doesn't allocate if the list has room for one run per three bytes, rounded up.
    pub fn feed(&mut self, piece: &[u8], runs: &mut Vec<Run>) -> Result<(), ScheduleFault>
        requires { self.old.read + length piece.now < 9223372036854775807 }
        ensures runs { (bytes : List ℕ) → HasRead self.old bytes
            → Adds result (open_schedule bytes) (open_schedule (bytes ++ piece.now))
            runs.old.items runs.new.items }
        ensures answer { (bytes : List ℕ) → HasRead self.old bytes → (result ≡ Err Memory)
            ⊎ (result ≡ answer_of (open_schedule (bytes ++ piece.now))) }
        ensures stream { (bytes : List ℕ) → HasRead self.old bytes → (result ≡ Err Memory)
            ⊎ HasRead self.new (bytes ++ piece.now) }
        ensures read { self.new.read ≡ self.old.read + length piece.now }
        ensures ok { OnOk result (self.new.fault ≡ None) }
        ensures err { IfErr result (λ fault. self.new.fault ≡ Some fault) }
        ensures stays { (fault : ScheduleFault) → self.old.fault ≡ Some fault
            → (result ≡ Err fault) × (runs.new ≡ runs.old) }
        ensures spelled { All IsRun runs.old.items → All IsRun runs.new.items }
        ensures few { length runs.new.items
            ≤ length runs.old.items + (length piece.now + 2) / 3 }
        ensures room { vec_len runs.old + (length piece.now + 2) / 3 ≤ vec_capacity runs.old
            → self.old.fault ≡ None → result ≢ Err Memory }
    {
        let at = self.read;
        self.read += piece.len() as u64;
        if let Some(fault) = self.fault {
            return Err(fault);
        }
        match read_bytes(self.place, at, piece, runs) {
            Ok(place) => {
                self.place = place;
                Ok(())
            }
            Err(fault) => {
                self.fault = Some(fault);
                Err(fault)
            }
        }
    }

    /// Ends the stream, and appends the run of its last token, unless a blank has ended it. Returns the stream's first fault.
    pub fn finish(self, runs: &mut Vec<Run>) -> Result<(), ScheduleFault>
        ensures runs { (bytes : List ℕ) → HasRead self bytes
            → Adds result (open_schedule bytes) (finished_schedule bytes)
            runs.old.items runs.new.items }
        ensures answer { (bytes : List ℕ) → HasRead self bytes → (result ≡ Err Memory)
            ⊎ (result ≡ answer_of (finished_schedule bytes)) }
        ensures stays { (fault : ScheduleFault) → self.fault ≡ Some fault
            → (result ≡ Err fault) × (runs.new ≡ runs.old) }
        ensures spelled { All IsRun runs.old.items → All IsRun runs.new.items }
        ensures few { length runs.new.items ≤ length runs.old.items + 1 }
        ensures room { vec_len runs.old < vec_capacity runs.old → self.fault ≡ None
            → result ≢ Err Memory }
    {
        match self.fault {
            Some(fault) => Err(fault),
            None => end_token(self.place, self.read, runs),
        }
    }
}

/// Reads the bytes of `piece`, of which the first has the offset `at`, from a place on. Appends the runs that they complete.
/// Returns the next place, or the first fault.
fn read_bytes(
    place: Place,
    at: u64,
    piece: &[u8],
    runs: &mut Vec<Run>,
) -> Result<Place, ScheduleFault>
    requires place { IsPlace at place }
    requires length { at + length piece.now < 9223372036854775807 }
    ensures takes { Takes result runs.old.items runs.new.items
        (λ (stream : Bool × List ℕ). schedule_from stream.0 place at (piece.now ++ stream.1))
        (λ stream next. schedule_from stream.0 next (at + length piece.now) stream.1) }
    ensures place { IfOk result (λ next. IsPlace (at + length piece.now) next) }
    ensures spelled { All IsRun runs.old.items → All IsRun runs.new.items }
    ensures few { 3 * length runs.new.items
        ≤ 3 * length runs.old.items + spent place + length piece.now }
    ensures room { 3 * vec_len runs.old + spent place + length piece.now
        < 3 * vec_capacity runs.old + 3 → result ≢ Err Memory }
{
    let mut next = place;
    let mut done = 0;
    while done < piece.len() {
        match read_some(next, at + done as u64, bytes_from(piece, done), runs) {
            Ok((place, count)) => {
                next = place;
                done += count;
            }
            Err(fault) => return Err(fault),
        }
    }
    Ok(next)
}

/// Returns the bytes from the place `done` on.
#[inline(always)]
fn bytes_from(piece: &[u8], done: usize) -> &[u8]
    requires { done ≤ length piece.now }
    ensures rest { result.now ≡ drop done piece.now }
    ensures length { done + length result.now ≡ length piece.now }
{
    &piece[done..]
}

/// Reads the beginning of `rest`, of which the first byte has the offset `at`, from a place on. Between tokens it reads all
/// single turns there, such as `t7`, each with its space: `read_turns` is fast. Otherwise it reads one byte. Returns the next
/// place, and how many bytes were read. The clauses bound how many runs these bytes make.
#[inline(always)]
fn read_some(
    place: Place,
    at: u64,
    rest: &[u8],
    runs: &mut Vec<Run>,
) -> Result<(Place, usize), ScheduleFault>
    requires place { IsPlace at place }
    requires some { 0 < length rest.now }
    requires length { at + length rest.now < 9223372036854775807 }
    ensures takes { Takes result runs.old.items runs.new.items
        (λ (stream : Bool × List ℕ). schedule_from stream.0 place at (rest.now ++ stream.1))
        (λ stream next. schedule_from stream.0 next.0 (at + next.1)
        (drop next.1 rest.now ++ stream.1)) }
    ensures place { IfOk result (λ next. IsPlace (at + next.1) next.0) }
    ensures some { IfOk result (λ next. 0 < next.1) }
    ensures within { IfOk result (λ next. next.1 ≤ length rest.now) }
    ensures spelled { All IsRun runs.old.items → All IsRun runs.new.items }
    ensures few { IfOk result (λ next. 3 * length runs.new.items + spent next.0
        ≤ 3 * length runs.old.items + spent place + next.1) }
    ensures few_err { 3 * length runs.new.items
        ≤ 3 * length runs.old.items + spent place + length rest.now }
    ensures capacity { vec_capacity runs.old ≤ vec_capacity runs.new }
    ensures room { 3 * vec_len runs.old + spent place + length rest.now
        < 3 * vec_capacity runs.old + 3 → result ≢ Err Memory }
{
    if matches!(place, Place::Between) {
        let count = read_turns(rest, runs);
        if count > 0 {
            return Ok((Place::Between, count));
        }
    }
    match read_byte(place, at, rest[0], runs) {
        Ok(next) => Ok((next, 1)),
        Err(fault) => Err(fault),
    }
}

/// Reads the single turns, each with the space after it, that the bytes begin with. Returns how many bytes those are: 0 if
/// there is no such turn, or if the list is full. This function is apart and doesn't allocate, so that its loop is short.
#[inline(never)]
fn read_turns(rest: &[u8], runs: &mut Vec<Run>) -> usize
    ensures takes { (at : ℕ) → Takes (Ok result) runs.old.items runs.new.items
        (λ (stream : Bool × List ℕ). schedule_from stream.0 Between at (rest.now ++ stream.1))
        (λ stream count. schedule_from stream.0 Between (at + count) (drop count rest.now ++ stream.1)) }
    ensures none { result ≡ 0 → runs.new ≡ runs.old }
    ensures within { result ≤ length rest.now }
    ensures spelled { All IsRun runs.old.items → All IsRun runs.new.items }
    ensures few { 3 * length runs.new.items ≤ 3 * length runs.old.items + result }
    ensures capacity { vec_capacity runs.old ≤ vec_capacity runs.new }
{
    let mut left = rest;
    while runs.len() < runs.capacity() {
        let Some((thread, count)) = turn_before_space(left) else {
            break;
        };
        match runs.push(turn_of(thread)) {
            Ok(()) => left = bytes_from(left, count),
            Err(_) => unreachable!(),
        }
    }
    rest.len() - left.len()
}

/// Returns the run that is a single turn of this thread.
fn turn_of(thread: u8) -> Run
    ensures { result ≡ run_of (choice_of false thread) 1 }
{
    Run {
        choice: Choice {
            thread,
            expiry: false,
        },
        times: 1,
    }
}

/// Returns the thread and the number of bytes, if 4 bytes or more begin with `t0` to `t63` and a space. `None`: they don't.
#[inline(always)]
fn turn_before_space(bytes: &[u8]) -> Option<(u8, usize)>
    ensures turn { IfSome result (λ turn. BeginsWithTurn bytes.now turn.0 turn.1) }
{
    if bytes.len() < 4 || bytes[0] != b't' || !bytes[1].is_ascii_digit() {
        return None;
    }
    let first = bytes[1] - b'0';
    if bytes[2] == b' ' {
        return Some((first, 3));
    }
    if !bytes[2].is_ascii_digit() || bytes[3] != b' ' {
        return None;
    }
    let thread = first * 10 + (bytes[2] - b'0');
    if thread > LAST_THREAD {
        return None;
    }
    Some((thread, 4))
}

/// Reads the byte at this offset, from a place on, and returns the next place. A blank ends a token, whose run is appended.
fn read_byte(place: Place, at: u64, byte: u8, runs: &mut Vec<Run>) -> Result<Place, ScheduleFault>
    requires place { IsPlace at place }
    ensures takes { Takes result runs.old.items runs.new.items
        (λ (stream : Bool × List ℕ). schedule_from stream.0 place at (byte ∷ stream.1))
        (λ stream next. schedule_from stream.0 next (at + 1) stream.1) }
    ensures place { IfOk result (λ next. IsPlace (at + 1) next) }
    ensures spelled { All IsRun runs.old.items → All IsRun runs.new.items }
    ensures few { IfOk result (λ next. 3 * length runs.new.items + spent next
        ≤ 3 * length runs.old.items + spent place + 1) }
    ensures few_err { 3 * length runs.new.items
        ≤ 3 * length runs.old.items + spent place + 1 }
    ensures capacity { vec_capacity runs.old ≤ vec_capacity runs.new }
    ensures room { 3 * vec_len runs.old + spent place + 1 < 3 * vec_capacity runs.old + 3
        → result ≢ Err Memory }
{
    if is_blank(byte) {
        match end_token(place, at, runs) {
            Ok(()) => Ok(Place::Between),
            Err(fault) => Err(fault),
        }
    } else {
        place.with_byte(at, byte)
    }
}

/// Appends the run of the token that ends before this offset. Between tokens, none does, and nothing is appended.
fn end_token(place: Place, at: u64, runs: &mut Vec<Run>) -> Result<(), ScheduleFault>
    requires place { IsPlace at place }
    ensures takes { Takes result runs.old.items runs.new.items
        (λ (more : Schedule). piece_with place at [] more) (λ more _. more) }
    ensures spelled { All IsRun runs.old.items → All IsRun runs.new.items }
    ensures few { 3 * length runs.new.items ≤ 3 * length runs.old.items + spent place + 1 }
    ensures one { length runs.new.items ≤ length runs.old.items + 1 }
    ensures capacity { vec_capacity runs.old ≤ vec_capacity runs.new }
    ensures room { 3 * vec_len runs.old + spent place + 1 < 3 * vec_capacity runs.old + 3
        → result ≢ Err Memory }
{
    match place.end(at) {
        Ok(None) => Ok(()),
        Ok(Some(run)) => match runs.push(run) {
            Ok(()) => Ok(()),
            Err(_) => Err(ScheduleFault::Memory),
        },
        Err(fault) => Err(fault),
    }
}
