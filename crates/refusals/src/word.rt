//! What is said about a word of the language: a row of the instruction table, or a word that begins with a dot.
ghost use Rattle.std.specs.Prelude.{◌≡◌, IsTrue, MatchOption, OnErr, OnOk, bytes_eq};
ghost use Rattle.std.specs.Io.KnownBytes.{Appends};
ghost use Rattle.refusals.specs.Word.{IsItsWord, IsNoWord, more_of, word_text};

use crate::entry::push_lines;
use crate::table::directive::directive_entry;
use crate::table::row::row_entry;
use byte_ports::{Failed, Sink};
use instruction_table::shape_of;
use line_reader::directive::is_directive;

/// Returns whether the two words are equal.
pub(crate) fn is_word(word: &str, told: &str) -> bool
    ensures { result ≡ bytes_eq word.now told.now }
{
    word == told
}

/// Returns where the documents say more of a word: a file and its heading.
fn more_of(word: &str) -> &'static str
    ensures { result.now ≡ more_of word.now }
{
    if is_word(word, ".run") {
        "docs/LANGUAGE.md, \"Program text\""
    } else if is_directive(word.as_bytes()) {
        "docs/LANGUAGE.md, \"Directives\""
    } else {
        "docs/LANGUAGE.md, \"Instruction table\""
    }
}

/// What is said about a word.
#[derive(Clone, Copy)]
pub struct WordEntry {
    pub word: &'static str,
    /// The word and its operands, as the documents write them.
    pub form: &'static str,
    /// What each operand can be.
    pub operands: &'static str,
    /// What it is in Java.
    pub java: &'static str,
    /// What it does, and what it returns.
    pub means: &'static str,
    /// What a trace shows of it.
    pub event: &'static str,
    /// A text with a schedule that plays it.
    pub example: &'static str,
}

impl WordEntry {
    /// Writes the whole entry. Its example is last, so that a person can copy all that follows, and play it.
    pub fn push<W: Sink>(self, output: &mut W) -> Result<(), Failed>
        ensures bytes { OnOk result (Appends (W.written output.old) (W.written output.new) (word_text (self))) }
        ensures failed { OnErr result (IsTrue (W.has_failed output.new)) }
    {
        push_lines(
            output,
            &[
                ("", self.form),
                ("  Operands: ", self.operands),
                ("  Java:     ", self.java),
                ("  Means:    ", self.means),
                ("  Event:    ", self.event),
                ("  More:     ", more_of(self.word)),
                ("  Example:  ", "a text with its schedule, for `vuthgal`"),
                ("", self.example),
            ],
        )
    }
}

/// Returns the entry of a word of the language: of a row, a directive or `.run`. None for other words.
pub fn word_entry(word: &str) -> Option<WordEntry>
    ensures { MatchOption result (IsNoWord word.now) (λ e. IsItsWord e word.now) }
{
    match shape_of(word.as_bytes()) {
        Some(shape) => row_entry(shape.opcode),
        None => directive_entry(word),
    }
}
