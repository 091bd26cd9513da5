//! Where in an input something is: a struct of numbers, as `include/vuthgal.h` declares it.
ghost use Rattle.std.specs.Prelude.{◌≡◌, ◌≤◌, length};
ghost use Rattle.vuthgal_c.specs.Places.{IsByteAt, no_place, word_place};

use assembler::word_place::WordPlace;

/// A part of a line of an input.
#[repr(C)]
#[derive(Clone, Copy)]
pub struct PlaceLook {
    /// From 1, or 0 for no place.
    pub line: u64,
    /// From 1, or 0 for the whole line.
    pub column: u64,
    pub length: u64,
    /// 0 for the program, or the kind of the other input.
    pub input: u8,
}

impl PlaceLook {
    /// Returns the place that stands for no place: all its numbers are 0.
    pub fn none() -> PlaceLook
        ensures { result ≡ no_place }
    {
        PlaceLook {
            line: 0,
            column: 0,
            length: 0,
            input: 0,
        }
    }

    /// Returns the place of a word of line number `line`, or of the whole line if `word` is `None`.
    pub fn of_word(line: u64, word: Option<WordPlace>, input: u8) -> PlaceLook
        ensures { result ≡ word_place line word input }
    {
        let (column, length) = match word {
            Some(word) => ((word.at as u64).saturating_add(1), word.length as u64),
            None => (0, 0),
        };
        PlaceLook {
            line,
            column,
            length,
            input,
        }
    }

    /// Returns the place of the byte that follows `front`, the beginning of an input: its line and column, from 1.
    pub fn behind(front: &[u8], input: u8) -> PlaceLook
        ensures { IsByteAt front.now input result }
    {
        let mut line: u64 = 1;
        let mut column: u64 = 1;
        for byte in front {
            if *byte == b'\n' {
                line += 1;
                column = 1;
            } else {
                column += 1;
            }
        }
        PlaceLook {
            line,
            column,
            length: 1,
            input,
        }
    }
}
