//! A line of a file, and the part of it that is marked.

ghost use Rattle.std.specs.Prelude.{◌≤◌, ◌+◌, ◌<◌, length};

use assembler::word_place::{WordPlace, line_at};
use byte_ports::{Failed, Sink};
use command_line::ports::watched::{Line, Watched};
use itoa::Buffer;

/// How many bytes of a line are shown.
const WIDTH: usize = 72;

/// What stands for the beginning of a line that isn't shown.
const DOTS: &[u8] = b"... ";

/// A line, and a part of it.
#[derive(Clone, Copy)]
pub struct Place<'a> {
    pub line: Line<'a>,
    pub part: Option<WordPlace>,
}

/// Writes bytes of an input: a tab or a CR as a blank, and each byte that isn't printable ASCII as `?`.
pub fn push_shown<E: Sink>(errors: &mut E, bytes: &[u8]) -> Result<(), Failed> {
    for byte in bytes.iter() {
        match *byte {
            b'\t' | b'\r' => errors.push(b" ")?,
            32..=126 => errors.push(&[*byte])?,
            _ => errors.push(b"?")?,
        }
    }
    Ok(())
}

/// Returns the byte from which on a line is shown: 0 if the place is then seen whole, or else one with the place in the middle.
fn window(line: &[u8], place: WordPlace) -> usize
    ensures begin { result ≤ place.at }
    ensures end { place.at < length line.now → place.at ≤ result + 72 }
{
    if place.at.saturating_add(place.length) <= WIDTH {
        return 0;
    }
    let middle = place.at.saturating_add(place.length.min(WIDTH) / 2);
    middle
        .saturating_sub(WIDTH / 2)
        .min(line.len().saturating_sub(WIDTH))
}

impl<'a> Place<'a> {
    /// Returns `part` of line `number` of a text, as a place. Lines count from 1. None if the text has fewer lines.
    pub fn in_text(text: &'a [u8], number: u64, part: Option<WordPlace>) -> Option<Place<'a>> {
        Some(Place {
            line: Line {
                number,
                before: 0,
                bytes: line_at(text, number)?,
            },
            part,
        })
    }

    /// Returns the place of the byte at this offset of what is watched. None if that isn't kept any more.
    pub fn of_byte<S>(watched: &'a Watched<S>, offset: u64) -> Option<Place<'a>> {
        let (line, at) = watched.line_of(offset)?;
        Some(Place {
            line,
            part: Some(WordPlace { at, length: 1 }),
        })
    }

    /// Returns the whole line of this number, from 1, of what is watched. None if that isn't kept any more.
    pub fn of_line<S>(watched: &'a Watched<S>, number: u64) -> Option<Place<'a>> {
        Some(Place {
            line: watched.line(number)?,
            part: None,
        })
    }

    /// Writes `LINE:COLUMN:`, both from 1, or `LINE:` without a part.
    pub fn push_numbers<E: Sink>(&self, errors: &mut E) -> Result<(), Failed> {
        errors.push(Buffer::new().format(self.line.number).as_bytes())?;
        errors.push(b":")?;
        let Some(part) = self.part else {
            return Ok(());
        };
        let column = self
            .line
            .before
            .saturating_add(part.at as u64)
            .saturating_add(1);
        errors.push(Buffer::new().format(column).as_bytes())?;
        errors.push(b":")
    }

    /// Writes at most 72 bytes of the line, and below them `^` under the part, if there is one.
    pub fn push_line<E: Sink>(&self, errors: &mut E) -> Result<(), Failed> {
        let line = self.line.bytes;
        let from = self.part.map_or(0, |part| window(line, part));
        let dots: &[u8] = if from > 0 || self.line.before > 0 {
            DOTS
        } else {
            &[]
        };
        let shown = line.get(from..).unwrap_or(&[]);
        errors.push(dots)?;
        push_shown(errors, shown.get(..WIDTH).unwrap_or(shown).trim_ascii_end())?;
        errors.push(b"\n")?;
        let Some(part) = self.part else {
            return Ok(());
        };
        for _ in 0..part.at.saturating_sub(from).saturating_add(dots.len()) {
            errors.push(b" ")?;
        }
        for _ in 0..part.length.min(WIDTH) {
            errors.push(b"^")?;
        }
        errors.push(b"\n")
    }
}
