// Compares the lines of a trace, one after another, with those of the run that they name.
ghost use Rattle.std.specs.Prelude.{◌≡◌, ◌≢◌, ◌⊎◌, IsTrue, Err, false, true, ◌==◌, ◌&&◌, ◌<◌, ◌≤◌, ◌+◌, ◌-◌, ◌++◌, ◌∷◌, [], List, ℕ, Option, None, Ok, IfOk, OnOk, decimal, drop, length, option_map, take};
ghost use Rattle.std.specs.{Io.KnownBytes.Consumes, Str.bytes_eq};
ghost use Rattle.byte_ports.specs.SourceLines.{HasCome, IsOneLine};
ghost use Rattle.thread_machine.specs.World.{world_of};
ghost use Rattle.trace_text.specs.{RunText.GivesOnAndOn, Reading.HasNoLongLine, Reading.choice_in, Reading.is_state_line};
ghost use Rattle.trace_compare.specs.Compare.{IsReadNoFurther, choice_verdict, line_at, lines_verdict, state_verdict};
ghost use Rattle.trace_compare.specs.Comparing.{GoesOver, HasCounted, HasEndedBehind, HasJudged, HasLeft, IsOpen, IsReading, MeetsText, StandsBehind, StandsFrom, decided, is_one, line_kept, line_played, lines_left, names_line, reported_by, reported_left};
ghost use Rattle.trace_compare.specs.NamedLines.{none_read};

use crate::naming::MOST_LINES;
use byte_ports::{LineEnded, Source, SourceLines};
use line_reader::words::length_before;
use loader::LoadFault;
use std::alloc::{AllocError, Global};
use thread_machine::Machine;
use trace_text::digits::Digits;
use trace_text::line_end::LineEnd;
use trace_text::next_choice::{begins_with, choice_behind, first_bytes, rest_of};
use trace_text::play::{line_of_choice, own_line_of_choice};
use trace_text::state::state_text;
use trace_text::trace_line::{choice_in, is_state_line};

/// The most bytes in the line of a choice that was played.
const MOST_OWN: usize = 120;

/// The result of comparing a trace.
#[derive(Clone, Copy, PartialEq, Eq)]
pub enum Verdict {
    /// The trace is that of the choices that its lines name.
    Same,
    /// This line, counted from 1, is the first that isn't the run's.
    Differs { line: u64 },
    /// This line is the first that is no line of any trace.
    NotATrace { line: u64 },
}

/// Why a trace isn't compared.
#[derive(Clone, Copy, PartialEq, Eq)]
pub enum CompareFault {
    /// The image can't be loaded. The fault is never `Memory`.
    Load(LoadFault),
    /// Out of memory.
    Memory,
    /// The trace can't be read.
    Read,
}

/// The run that a trace's lines have named so far.
#[derive(Drop)]
pub(crate) struct Comparison {
    machine: Machine,
    /// The run's line of the last choice that was played, without its number if the trace had the same line.
    expected: LineEnd,
    /// The number of the next choice, as `take_own_line` last set it.
    next: Digits,
    /// Whether all choices so far were accepted.
    accepted: bool,
    /// Whether `meet` found another line where the last choice's line should be. Then `accepted` is false.
    missed: bool,
    /// Whether the first line of the state was read.
    is_state: bool,
    /// The text of the state, once its first line was read. `at` is how much of it was compared.
    text: Vec<u8>,
    at: usize,
    /// The next line's number.
    number: u64,
}

/// Returns whether a text is `line` and an LF, and nothing else.
fn is_line(line: &[u8], text: &[u8]) -> bool
    ensures { result ≡ bytes_eq (line.now ++ (10 ∷ [])) text.now }
{
    text.starts_with(line) && rest_of(text, line.len()) == b"\n".as_slice()
}

impl Comparison {
    /// Makes a comparison before the trace's first line, with a machine in the state in which the run begins.
    pub(crate) fn new(alloc: Global, machine: Machine) -> Comparison
        ensures machine { result.machine ≡ machine }
        ensures start { (result.accepted ≡ true) × (result.is_state ≡ false) }
        ensures text { (result.text.items ≡ []) × (result.at ≡ 0) }
        ensures short { HasNoLongLine result.text.items }
        ensures number { result.number ≡ 1 }
    {
        Comparison {
            machine,
            expected: LineEnd::new(),
            next: Digits::new(),
            accepted: true,
            missed: false,
            is_state: false,
            text: Vec::new(alloc),
            at: 0,
            number: 1,
        }
    }

    /// Plays the choice that a line names. Returns `None` if the run has the same line: then the rest of the trace decides.
    /// Otherwise returns the verdict. After a refused choice the run's next line is the state's, so a further choice differs.
    fn take_choice(&mut self, line: &[u8]) -> Result<Option<Verdict>, AllocError>
        requires number { self.old.number < 9223372036854775807 }
        requires few { length line.now ≤ 65536 }
        ensures verdict { (lines : List (List ℕ)) → IfOk result (λ verdict. choice_verdict
            (choice_in line.now) self.old.accepted (world_of self.old.machine) self.old.number line.now
            (λ accepted after. lines_verdict accepted after (self.old.number + 1) lines)
            ≡ decided verdict (lines_verdict self.new.accepted (world_of self.new.machine) self.new.number lines)) }
        ensures meets { (lines : List (List ℕ)) → self.old.is_state ≡ false → is_state_line line.now ≡ false
            → IfOk result (λ verdict. MeetsText self.old self.new line.now lines verdict) }
        ensures text { (self.new.text ≡ self.old.text) × (self.new.at ≡ self.old.at) }
        ensures stage { self.new.is_state ≡ self.old.is_state }
        ensures counted { IfOk result (λ verdict. HasCounted self.old.number self.new.number verdict) }
    {
        let Some(choice) = choice_in(line) else {
            return Ok(Some(Verdict::NotATrace { line: self.number }));
        };
        if !self.accepted {
            return Ok(Some(Verdict::Differs { line: self.number }));
        }
        let accepted = match line_of_choice(&mut self.machine, choice, &mut self.expected) {
            Ok(accepted) => accepted,
            Err(error) => return Err(error),
        };
        if !is_line(line, self.expected.as_slice()) {
            return Ok(Some(Verdict::Differs { line: self.number }));
        }
        self.accepted = accepted;
        self.missed = false;
        self.number += 1;
        Ok(None)
    }

    /// Compares a line with the next one of the state's text. Returns `None` if they are equal: then the rest of the trace
    /// decides. Otherwise, or if no line of the text is left, returns the verdict.
    fn take_state_line(&mut self, line: &[u8]) -> Option<Verdict>
        requires number { self.old.number < 9223372036854775807 }
        requires few { length line.now ≤ 65536 }
        requires at { self.old.at ≤ length self.old.text.items }
        ensures verdict { (lines : List (List ℕ))
            → 0 < length (drop self.old.at self.old.text.items) + (length line.now + length lines)
            → state_verdict (drop self.old.at self.old.text.items) self.old.number (line.now ∷ lines)
            ≡ decided result (state_verdict (drop self.new.at self.new.text.items) self.new.number lines) }
        ensures meets { (lines : List (List ℕ)) → self.old.is_state ≡ true
            → MeetsText self.old self.new line.now lines result }
        ensures behind { result ≡ None → StandsBehind self.new line.now }
        ensures text { self.new.text ≡ self.old.text }
        ensures at { self.new.at ≤ length self.new.text.items }
        ensures stage { self.new.is_state ≡ self.old.is_state }
        ensures counted { HasCounted self.old.number self.new.number result }
    {
        let text = self.text.as_slice();
        let due = rest_of(text, self.at);
        let end = (length_before(b'\n', due) + 1).min(due.len());
        if due.is_empty() || !is_line(line, first_bytes(due, end)) {
            return Some(Verdict::Differs { line: self.number });
        }
        self.at += end;
        self.number += 1;
        None
    }

    /// Compares a line, without its LF, with the run's next line, which is a choice's or one of the state's. Returns `None` if
    /// they are equal: then the rest of the trace decides. Otherwise returns the verdict.
    fn take_line(&mut self, alloc: Global, line: &[u8]) -> Result<Option<Verdict>, AllocError>
        requires number { self.old.number < 9223372036854775807 }
        requires few { length line.now ≤ 65536 }
        requires at { self.old.at ≤ length self.old.text.items }
        ensures verdict { (lines : List (List ℕ)) → IsOpen self.old line.now lines
            → IfOk result (λ verdict. lines_left self.old (line.now ∷ lines)
            ≡ decided verdict (lines_left self.new lines)) }
        ensures meets { (lines : List (List ℕ))
            → IfOk result (λ verdict. MeetsText self.old self.new line.now lines verdict) }
        ensures behind { result ≡ Ok None → self.new.is_state ≡ true → StandsBehind self.new line.now }
        ensures at { self.new.at ≤ length self.new.text.items }
        ensures short { HasNoLongLine self.old.text.items → HasNoLongLine self.new.text.items }
        ensures counted { IfOk result (λ verdict. HasCounted self.old.number self.new.number verdict) }
    {
        if self.is_state {
            return Ok(self.take_state_line(line));
        }
        if !is_state_line(line) {
            return self.take_choice(line);
        }
        self.text = match state_text(alloc, &self.machine) {
            Ok(text) => text,
            Err(error) => return Err(error),
        };
        self.at = 0;
        self.is_state = true;
        Ok(self.take_state_line(line))
    }

    /// Compares bytes, which begin with the choice's number, with the line of the choice just played. Returns the line's
    /// length, or 0 if they differ. Then it clears `accepted`: no further choice is played, and `take_ended` reports this line.
    #[inline(always)]
    fn meet(&mut self, bytes: &[u8]) -> usize
        requires room { 120 ≤ length bytes.now }
        requires begun { take (length (decimal self.old.next)) bytes.now ≡ decimal self.old.next }
        requires few { length self.old.expected ≤ 100 }
        requires number { self.old.number < 9223372036854775807 }
        ensures met { result ≢ 0 → (take (length (line_played self.old)) bytes.now ≡ line_played self.old)
            × (result ≡ length (line_played self.old)) × (self.new ≡ record self.old { number = self.old.number + 1 }) }
        ensures missed { result ≡ 0 → (take (length (line_played self.old)) bytes.now ≢ line_played self.old)
            × (self.new ≡ record self.old { accepted = false; missed = true; expected = line_played self.old }) }
    {
        let digits = self.next.count();
        let behind = self.expected.as_slice();
        let count = digits + behind.len();
        // The 8 is only for speed: a text of 8 to 16 bytes is compared fastest.
        if begins_with::<8>(rest_of(bytes, digits), behind) {
            self.number += 1;
            return count;
        }
        self.expected.put_digits(&self.next);
        self.accepted = false;
        self.missed = true;
        0
    }

    /// Plays the choice that the bytes name, and compares the choice's line with the bytes. Returns the line's length. 0:
    /// `take_ended` has to judge the line, since it isn't the next choice's, its choice is refused, or it differs (`meet`).
    #[inline(always)]
    fn take_own_line(&mut self, bytes: &[u8]) -> Result<usize, AllocError>
        requires room { 120 ≤ length bytes.now }
        requires number { self.old.number < 9223372036854775807 }
        requires reading { IsReading self.old }
        ensures over { IfOk result (λ count. GoesOver self.old self.new bytes.now count) }
        ensures reading { IfOk result (λ count. count ≢ 0 → IsReading self.new) }
    {
        self.next.move_to(self.machine.choices() + 1);
        let Some(choice) = choice_behind(bytes, self.next.as_slice()) else {
            return Ok(0);
        };
        if usize::from(choice.thread) >= self.machine.thread_count() {
            return Ok(0);
        }
        match own_line_of_choice(&mut self.machine, choice, &mut self.expected) {
            Ok(true) => Ok(self.meet(bytes)),
            Ok(false) => Ok(0),
            Err(error) => Err(error),
        }
    }

    /// Passes over lines that equal the run's, without a copy, while 120 bytes are left: no choice's line is longer. Returns
    /// how many bytes it has passed.
    fn take_own_lines(&mut self, bytes: &[u8]) -> Result<usize, AllocError>
        requires number { self.old.number + length bytes.now < 9223372036854775807 }
        ensures { IfOk result (λ count. GoesOver self.old self.new bytes.now count) }
    {
        if self.is_state || !self.accepted {
            return Ok(0);
        }
        let mut done = 0;
        while bytes.len() - done >= MOST_OWN {
            match self.take_own_line(rest_of(bytes, done)) {
                Ok(0) => return Ok(done),
                Ok(count) => done += count,
                Err(error) => return Err(error),
            }
        }
        Ok(done)
    }

    /// Returns the verdict of a trace that ends with `line`, which is equal to the run's line but has no LF. If only this LF is
    /// missing, `at` goes back, so that `run_line` returns this line. Otherwise the verdict names the next, missing line.
    fn end_verdict(&mut self, line: &[u8]) -> Verdict
        requires at { self.old.at ≤ length self.old.text.items }
        requires behind { self.old.is_state ≡ true → StandsBehind self.old line.now }
        requires one { IsOneLine line.now }
        ensures verdict { result ≡ lines_left self.old [] }
        ensures kept { 0 < self.old.number → HasEndedBehind self.old self.new line.now result }
        ensures at { self.new.at ≤ length self.new.text.items }
        ensures stands { 0 < self.old.number → StandsFrom (self.old.number - 1) result }
    {
        if !self.is_state {
            return Verdict::NotATrace { line: self.number };
        }
        if !rest_of(self.text.as_slice(), self.at).is_empty() {
            return Verdict::Differs { line: self.number };
        }
        self.at -= line.len() + 1;
        Verdict::Differs {
            line: self.number.saturating_sub(1),
        }
    }

    /// Returns whether the trace has had the whole text of the state, and `line`, which follows its last LF, is empty.
    fn is_whole(&self, line: &[u8]) -> bool
        requires { self.now.at ≤ length self.now.text.items }
        ensures { result ≡ (self.now.is_state
            && ((length (drop self.now.at self.now.text.items) == 0) && (length line.now == 0))) }
    {
        if self.is_state && rest_of(self.text.as_slice(), self.at).is_empty() {
            line.is_empty()
        } else {
            false
        }
    }

    /// Returns the verdict of the whole trace. `line` is what follows its last LF.
    fn end(&mut self, alloc: Global, line: &[u8]) -> Result<Verdict, AllocError>
        requires number { self.old.number < 9223372036854775807 }
        requires few { length line.now ≤ 65536 }
        requires one { IsOneLine line.now }
        requires at { self.old.at ≤ length self.old.text.items }
        ensures told { IfOk result (λ verdict. reported_left self.old (line.now ∷ []) ≡ reported_by verdict self.new) }
        ensures at { self.new.at ≤ length self.new.text.items }
        ensures stands { IfOk result (λ verdict. (verdict ≡ Verdict.Same) ⊎ StandsFrom self.old.number verdict) }
    {
        if self.is_whole(line) {
            return Ok(Verdict::Same);
        }
        match self.take_line(alloc, line) {
            Ok(Some(verdict)) => Ok(verdict),
            Ok(None) => Ok(self.end_verdict(line)),
            Err(error) => Err(error),
        }
    }

    /// Compares a line with the run's. `ended`: it ends with an LF or with the trace, or is too long. Returns `None` to go on.
    fn take_ended(
        &mut self,
        alloc: Global,
        line: &[u8],
        ended: LineEnded,
    ) -> Result<Option<Verdict>, AllocError>
        requires number { self.old.number < 9223372036854775807 }
        requires at { self.old.at ≤ length self.old.text.items }
        requires short { HasNoLongLine self.old.text.items }
        requires one { IsOneLine line.now }
        requires came { (left : Option (List ℕ)) × HasCome ended line.now left }
        ensures judged { IfOk result (λ verdict. HasJudged self.old self.new ended line.now verdict) }
        ensures at { self.new.at ≤ length self.new.text.items }
        ensures short { result ≡ Ok None → HasNoLongLine self.new.text.items }
    {
        match ended {
            LineEnded::Whole => self.take_line(alloc, line),
            LineEnded::AtEnd => match self.end(alloc, line) {
                Ok(verdict) => Ok(Some(verdict)),
                Err(error) => Err(error),
            },
            LineEnded::TooLong => Ok(Some(Verdict::NotATrace { line: self.number })),
        }
    }
}

/// Returns the line that the bytes begin with, without its LF, or `None` if there are no bytes.
fn first_line(alloc: Global, bytes: &[u8]) -> Result<Option<Vec<u8>>, AllocError>
    ensures { IfOk result (λ line. option_map (λ l. l.items) line ≡ line_at 0 bytes.now) }
{
    if bytes.is_empty() {
        return Ok(None);
    }
    let line = first_bytes(bytes, length_before(b'\n', bytes));
    Ok(Some(Vec::from_slice(alloc, line)?))
}

impl Comparison {
    /// Returns the run's line where the trace differs, or `None` if the run has no line there. It plays no choice: after a
    /// refused choice the run's next line is the first line of the state.
    pub(crate) fn run_line(&self, alloc: Global) -> Result<Option<Vec<u8>>, AllocError>
        requires { self.now.at ≤ length self.now.text.items }
        ensures { IfOk result (λ line. option_map (λ l. l.items) line ≡ line_kept self.now) }
    {
        if self.is_state {
            return first_line(alloc, rest_of(self.text.as_slice(), self.at));
        }
        if self.accepted || self.missed {
            return first_line(alloc, self.expected.as_slice());
        }
        first_line(alloc, state_text(alloc, &self.machine)?.as_slice())
    }
}

/// Returns whether what was read last is a line: only an empty rest after the trace's last LF isn't one.
fn is_one(ended: LineEnded, line: &[u8]) -> bool
    ensures { result ≡ is_one ended line.now }
{
    match ended {
        LineEnded::AtEnd => !line.is_empty(),
        LineEnded::Whole | LineEnded::TooLong => true,
    }
}

/// Returns whether a verdict is about the line of this number: `Same` is about no line.
fn names_line(verdict: Verdict, number: u64) -> bool
    ensures { result ≡ names_line verdict number }
{
    match verdict {
        Verdict::Same => false,
        Verdict::Differs { line } | Verdict::NotATrace { line } => line == number,
    }
}

/// Returns whether a verdict names the line that was read last, which has this number, and it is a line at all (`is_one`).
fn is_read(verdict: Verdict, number: u64, ended: LineEnded, line: &[u8]) -> bool
    ensures { result ≡ (names_line verdict number && is_one ended line.now) }
{
    names_line(verdict, number) && is_one(ended, line)
}

/// Compares a trace with the run that begins at the machine of `now`. Returns the verdict, and whether `lines` holds the
/// trace's line that the verdict names: not if it is missing. Lines equal to the run's are compared where they are, and any
/// other line is copied.
pub(crate) fn compare_lines<S: Source>(
    alloc: Global,
    now: &mut Comparison,
    lines: &mut SourceLines,
    trace: &mut S,
) -> Result<(Verdict, bool), CompareFault>
    requires number { now.old.number ≡ 1 }
    requires at { now.old.at ≤ length now.old.text.items }
    requires short { HasNoLongLine now.old.text.items }
    requires lines { lines.old ≡ none_read }
    ensures verdict { IfOk result (λ found. (bytes : List ℕ)
        × (Consumes (S.left trace.old) (S.left trace.new) bytes
        × HasLeft now.old bytes (S.left trace.new) (reported_by found.0 now.new))) }
    ensures at { OnOk result (now.new.at ≤ length now.new.text.items) }
    ensures far { IfOk result (λ found. IsReadNoFurther (S.left trace.old) (S.left trace.new) found.0) }
    ensures read { result ≡ Err CompareFault.Read → IsTrue (S.has_failed trace.new)
        ⊎ GivesOnAndOn (S.left trace.old) (S.left trace.new) }
    ensures reads { S.reads trace.new ≤ S.reads trace.old + 1000000000 }
    ensures sound { result ≢ Err CompareFault.Read → S.has_failed trace.old ≡ false → S.has_failed trace.new ≡ false }
    ensures load { (fault : LoadFault) → result ≢ Err (CompareFault.Load fault) }
{
    for _ in 0..MOST_LINES {
        let count = match now.take_own_lines(lines.held()) {
            Ok(count) => count,
            Err(_) => return Err(CompareFault::Memory),
        };
        lines.skip(count);
        let ended = match lines.read_line(trace) {
            Ok(ended) => ended,
            Err(_) => return Err(CompareFault::Read),
        };
        let number = now.number;
        match now.take_ended(alloc, lines.line(), ended) {
            Ok(None) => {}
            Ok(Some(verdict)) => {
                return Ok((verdict, is_read(verdict, number, ended, lines.line())));
            }
            Err(_) => return Err(CompareFault::Memory),
        }
    }
    Err(CompareFault::Read)
}
