// Reads the text of a plan word by word, and counts its open parentheses.
ghost use Rattle.std.specs.Prelude.{◌≡◌, ◌≢◌, ◌≤◌, Err, IfErr, IfOk, length, map};
ghost use Rattle.std.specs.List.{slice_split};
ghost use Rattle.line_reader.specs.{Seen.name_seen, Words.is_line_end};
ghost use Rattle.plans.specs.Plan.{AnswersPlan, AnswersSaid, draft_closed, draft_open, draft_opened, finished, lines_behind, no_words, said_behind, word_behind, words_behind, words_in_lines, words_in_plan};
ghost use Rattle.plans.specs.{Drafts.draft_of, Tree.IsPlan, Words.words_of};

use crate::cutting::{before, from, word_length};
use crate::fault::{PlanFault, PlanFaultKind};
use crate::reading::word_of;
use crate::word::Word;
use crate::words::Words;
use line_reader::words::{before_comment, length_before};
use std::alloc::Global;

/// The most parentheses that are open at once.
const DEEPEST: u8 = 16;

/// The words so far, how many parentheses are open, and the line of the outermost of them.
#[derive(Drop)]
struct Reading {
    words: Words,
    depth: u8,
    opened: u64,
}

impl Reading {
    /// Counts one more open parenthesis. Fails if 16 are open. Keeps the line of the outermost one for the fault `NotClosed`.
    fn open(&mut self, line: u64) -> Result<(), PlanFaultKind>
        ensures opened { AnswersSaid (λ _. draft_of self.new) result (draft_opened line (draft_of self.old)) }
        ensures other { result ≢ Err PlanFaultKind.Memory }
    {
        if self.depth >= DEEPEST {
            return Err(PlanFaultKind::TooDeep);
        }
        if self.depth == 0 {
            self.opened = line;
        }
        self.depth += 1;
        Ok(())
    }

    /// Closes the innermost open parenthesis. Fails if none is open.
    fn close(&mut self) -> Result<(), PlanFaultKind>
        ensures closed { AnswersSaid (λ _. draft_of self.new) result (draft_closed (draft_of self.old)) }
        ensures other { result ≢ Err PlanFaultKind.Memory }
    {
        if self.depth == 0 {
            return Err(PlanFaultKind::NotOpened);
        }
        self.depth -= 1;
        Ok(())
    }

    /// Opens or closes a parenthesis if the word is one. Any other word changes nothing.
    fn nest(&mut self, line: u64, word: Word) -> Result<(), PlanFaultKind>
        ensures nested { AnswersSaid (λ _. draft_of self.new) result (draft_open line (draft_of self.old) word) }
        ensures other { result ≢ Err PlanFaultKind.Memory }
    {
        match word {
            Word::Step(_) => Ok(()),
            Word::Open => self.open(line),
            Word::Close(_) => self.close(),
        }
    }

    /// Appends the word that `bytes` spell, for threads with these names, or returns what is wrong. `line` is kept for a `(`.
    fn add_said(&mut self, names: &[&[u8]], line: u64, bytes: &[u8]) -> Result<(), PlanFaultKind>
        requires { length names.now ≤ 64 }
        ensures { AnswersSaid (λ _. draft_of self.new) result
            (said_behind (map name_seen names.now) line (draft_of self.old) bytes.now) }
    {
        let word = word_of(names, bytes)?;
        self.nest(line, word)?;
        match self.words.push(word) {
            Ok(()) => Ok(()),
            Err(_) => Err(PlanFaultKind::Memory),
        }
    }

    /// Appends the word that `bytes` spell, for threads with these names, or returns what is wrong, and in which line.
    fn add_word(&mut self, names: &[&[u8]], line: u64, bytes: &[u8]) -> Result<(), PlanFault>
        requires { length names.now ≤ 64 }
        ensures { AnswersPlan (λ _. draft_of self.new) result
            (word_behind (map name_seen names.now) line (draft_of self.old) bytes.now) }
    {
        match self.add_said(names, line, bytes) {
            Ok(()) => Ok(()),
            Err(kind) => Err(PlanFault { line, kind }),
        }
    }

    /// Appends the words of `bytes`, which is line `line`, up to its comment, for threads with these names. Stops at a fault.
    fn add_line(&mut self, names: &[&[u8]], line: u64, bytes: &[u8]) -> Result<(), PlanFault>
        requires { length names.now ≤ 64 }
        ensures { AnswersPlan (λ _. draft_of self.new) result
            (words_behind (map name_seen names.now) line (draft_of self.old) (words_of bytes.now)) }
    {
        let mut rest = before_comment(bytes);
        while !rest.is_empty() {
            let length = word_length(rest);
            if length == 0 {
                rest = from(rest, 1);
            } else {
                match self.add_word(names, line, before(rest, length)) {
                    Ok(()) => rest = from(rest, length),
                    Err(fault) => return Err(fault),
                }
            }
        }
        Ok(())
    }

    /// Appends the words of a text's lines, counted from 1, for threads with these names. It stops at the first fault.
    fn add_lines(&mut self, names: &[&[u8]], text: &[u8]) -> Result<(), PlanFault>
        requires { length names.now ≤ 64 }
        ensures { AnswersPlan (λ _. draft_of self.new) result
            (lines_behind (map name_seen names.now) 1 (draft_of self.old) (slice_split is_line_end text.now)) }
    {
        let mut rest = text;
        let mut line = 1;
        loop {
            let length = length_before(b'\n', rest);
            match self.add_line(names, line, before(rest, length)) {
                Ok(()) => {}
                Err(fault) => return Err(fault),
            }
            if length == rest.len() {
                return Ok(());
            }
            rest = from(rest, length + 1);
            line += 1;
        }
    }

    /// Returns the words. If a parenthesis is still open, the fault is `NotClosed`, with the outermost one's line.
    fn finished(self) -> Result<Words, PlanFault>
        ensures finished { AnswersPlan (λ words. words) result (finished (draft_of self)) }
        ensures other { IfErr result (λ fault. fault.kind ≢ PlanFaultKind.Memory) }
    {
        if self.depth == 0 {
            return Ok(self.words);
        }
        Err(PlanFault {
            line: self.opened,
            kind: PlanFaultKind::NotClosed,
        })
    }
}

/// Reads a plan for a program whose threads have these names, in order of number. Returns the words of the text, or the first
/// fault. A parenthesis that is never closed is reported only if nothing else is wrong.
pub fn read_plan(alloc: Global, text: &[u8], names: &[&[u8]]) -> Result<Words, PlanFault>
    requires { length names.now ≤ 64 }
    ensures read { AnswersPlan (λ words. words) result (words_in_plan (map name_seen names.now) text.now) }
    ensures nested { IfOk result (λ words. IsPlan words) }
{
    let mut reading = Reading {
        words: Words::new(alloc),
        depth: 0,
        opened: 0,
    };
    reading.add_lines(names, text)?;
    reading.finished()
}
