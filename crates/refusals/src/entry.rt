//! An entry, which says what a line on standard error or another word means, and how it is written.
ghost use Rattle.std.specs.Prelude.{IsTrue, OnErr, OnOk};
ghost use Rattle.std.specs.{List.flat_map, Io.KnownBytes.Appends};
ghost use Rattle.refusals.specs.Entry.{line, place_line, text_of, words_of};

use byte_ports::{Failed, Sink};
use itoa::Buffer;

/// What is said about words.
#[derive(Clone, Copy)]
pub struct Entry {
    /// The patterns of the words, without the word `refused`. A word that begins with a blank is a number, and what it counts.
    /// `_` is any word, and `..` after the others is any words.
    pub asked: &'static [&'static [&'static str]],
    /// The words of the line, with a word in capitals for a place.
    pub told: &'static str,
    /// What is wrong.
    pub means: &'static str,
    /// What is allowed there.
    pub helps: &'static str,
    /// A command that leads to it, or else `none` and why.
    pub example: &'static str,
    /// Where the documents say more.
    pub more: &'static str,
}

/// The place of a fault: what is counted, after a blank, and its number.
#[derive(Clone, Copy)]
pub struct Place {
    pub word: &'static str,
    pub number: u64,
}

/// Writes these pieces, one after another.
pub fn push_pieces<W: Sink>(output: &mut W, pieces: &[&[u8]]) -> Result<(), Failed>
    ensures bytes { OnOk result (Appends (W.written output.old) (W.written output.new) (flat_map (λ p. p.now) pieces.now)) }
    ensures failed { OnErr result (IsTrue (W.has_failed output.new)) }
{
    for piece in pieces {
        output.push(piece)?;
    }
    Ok(())
}

/// Writes a line that begins with this label.
pub fn push_line<W: Sink>(output: &mut W, label: &[u8], text: &str) -> Result<(), Failed>
    ensures bytes { OnOk result (Appends (W.written output.old) (W.written output.new)
        (line label.now text.now)) }
    ensures failed { OnErr result (IsTrue (W.has_failed output.new)) }
{
    output.push(label)?;
    output.push(text.as_bytes())?;
    output.push(b"\n")
}

/// Writes lines, each of which begins with its label.
pub fn push_lines<W: Sink>(output: &mut W, lines: &[(&str, &str)]) -> Result<(), Failed>
    ensures bytes { OnOk result (Appends (W.written output.old) (W.written output.new)
        (flat_map (λ l. line l.0.now l.1.now) lines.now)) }
    ensures failed { OnErr result (IsTrue (W.has_failed output.new)) }
{
    for (label, text) in lines {
        push_line(output, label.as_bytes(), text)?;
    }
    Ok(())
}

/// Writes the line of a place, if there is one.
fn push_place<W: Sink>(output: &mut W, place: Option<Place>) -> Result<(), Failed>
    ensures bytes { OnOk result (Appends (W.written output.old) (W.written output.new) (place_line place)) }
    ensures failed { OnErr result (IsTrue (W.has_failed output.new)) }
{
    match place {
        Some(place) => {
            output.push(b"  Place:  ")?;
            output.push(place.word.as_bytes())?;
            push_line(output, b" ", Buffer::new().format(place.number))
        }
        None => output.push(b""),
    }
}

impl Entry {
    /// Writes the entry without its first line: what the line means, its place, what helps, an example, and where to read more.
    pub fn push_words<W: Sink>(self, output: &mut W, place: Option<Place>) -> Result<(), Failed>
        ensures bytes { OnOk result (Appends (W.written output.old) (W.written output.new) (words_of (self) place)) }
        ensures failed { OnErr result (IsTrue (W.has_failed output.new)) }
    {
        push_line(output, b"  Means:   ", self.means)?;
        push_place(output, place)?;
        push_line(output, b"  Helps:   ", self.helps)?;
        push_line(output, b"  Example: ", self.example)?;
        push_line(output, b"  More:    ", self.more)
    }

    /// Writes the whole entry: the line that it explains, and below it what `push_words` writes.
    pub fn push<W: Sink>(self, output: &mut W, place: Option<Place>) -> Result<(), Failed>
        ensures bytes { OnOk result (Appends (W.written output.old) (W.written output.new) (text_of (self) place)) }
        ensures failed { OnErr result (IsTrue (W.has_failed output.new)) }
    {
        push_line(output, b"", self.told)?;
        self.push_words(output, place)
    }
}
