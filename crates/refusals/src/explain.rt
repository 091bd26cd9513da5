//! The command `explain`: it writes the entry that words ask for, or else what can be asked.
ghost use Rattle.std.specs.Prelude.{◌≡◌, ◌++◌, Ok, IsTrue, MatchOption, OnErr, OnOk, true, false};
ghost use Rattle.std.specs.Io.KnownBytes.{Appends};
ghost use Rattle.refusals.specs.{declared.question.Question.Question, Explained.HasExplained, Question.AsksFor, Question.texts};
ghost use Rattle.refusals.specs.Word.{AreItsWord, AreNoWord};

use crate::entry::Entry;
use crate::question::question_of;
use crate::word::{WordEntry, word_entry};
use byte_ports::{Failed, Sink};

/// What can be asked.
pub const QUESTIONS: &str = "\
explain asm 1 .. asm 13             a program text that is refused
explain image 1 .. image 8          an image that is refused
explain load 1 .. load 9            a program that isn't loaded
explain declare 1 .. declare 6      why a phaser can't be declared (load 7)
explain schedule 1 .. schedule 3    a schedule that is refused
explain plan 1 .. plan 8            a plan that is refused
explain show, draw                  more choices than a picture shows
explain memory, spawn, read, write  other errors that end the program
explain not a trace, differs        what `compare` reports
explain expected, stopped           what `--expect` and `plan` say with status 1
explain none, limit                 a choice that is refused, in a trace
explain all, stuck, live            how a run ends
explain idle, wait, die, ..         what a choice did, as its line in a trace says
explain trace, state, p0, plan, ..  what the program reads and writes
explain ?, no history               replies of `debug`
explain status 0 .. status 5        an exit status
explain exception 1 .. exception 8  an exception, or by name: TimeoutException
explain paaa, .thread, ..           an instruction or a directive
explain rows                        which instructions there are
explain locks, latch, join, ..      what Java has, and how it is here
";

/// What is written if no line has the words.
pub const NO_LINE: &[u8] = b"error: `explain` doesn't know these words\n";

/// Returns the entry of the language's word, if the words are exactly one such word. None for all else.
fn entry_asked(words: &[&str]) -> Option<WordEntry>
    ensures { MatchOption result (AreNoWord (texts words.now)) (λ e. AreItsWord e (texts words.now)) }
{
    match words {
        [word] => word_entry(word),
        _ => None,
    }
}

/// Writes the entry that the words ask for: those of a line on standard error, or one word of the language. Without words it
/// writes what can be asked. Returns false if no entry fits.
pub fn explain<W: Sink>(tables: &[&[Entry]], words: &[&str], output: &mut W) -> Result<bool, Failed>
    // The entry of the word of the language, or of the question that the words ask for, is written, and nothing else; without
    // words, what can be asked.
    ensures told { result ≡ Ok true → HasExplained QUESTIONS.now tables.now (texts words.now) (W.written output.old) (W.written output.new) }

    // False means: the words fit no entry and are no word of the language, and nothing is written.
    ensures none { result ≡ Ok false → (q : Question) → AsksFor tables.now (texts words.now) q → ⊥ }
    ensures no_word { result ≡ Ok false → AreNoWord (texts words.now) }
    ensures untold { result ≡ Ok false → W.written output.new ≡ W.written output.old }
    ensures failed { OnErr result (IsTrue (W.has_failed output.new)) }
{
    if words.is_empty() {
        output.push(QUESTIONS.as_bytes())?;
        return Ok(true);
    }
    if let Some(entry) = entry_asked(words) {
        entry.push(output)?;
        return Ok(true);
    }
    let Some(question) = question_of(tables, words) else {
        return Ok(false);
    };
    question.entry.push(output, question.place)?;
    Ok(true)
}
