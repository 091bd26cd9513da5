//! What is read: a file, standard input, or a text in memory.

ghost use Rattle.std.specs.Io.{ReadsAtMost, KnownBytes.ReadConsumes};
ghost use Rattle.command_line.specs.Input.{left_of};

use std::io;
use std::io::Read;

/// A file that an argument names, standard input, or the rest of a text. For the first two it takes any readers: so its
/// behaviour can't depend on whether they tell what is left of them.
#[derive(Drop)]
pub enum InputOf<'a, F, S> {
    File(F),
    Standard(S),
    Text(&'a [u8]),
}

impl<'a, F: Read, S: Read> Read for InputOf<'a, F, S> {
    ghost remaining = { left_of F.remaining S.remaining };

    /// Reads from the file or from standard input, or moves what fits from the text in memory.
    fn read(&mut self, buffer: &mut [u8]) -> io::Result<usize>
        ensures bound { ReadsAtMost result buffer.new }
        ensures bytes { ReadConsumes (left_of F.remaining S.remaining self.old)
            (left_of F.remaining S.remaining self.new) result buffer.new }
    {
        match self {
            InputOf::File(file) => file.read(buffer),
            InputOf::Standard(input) => input.read(buffer),
            InputOf::Text(text) => {
                let count = buffer.len().min(text.len());
                buffer[..count].copy_from_slice(&text[..count]);
                *text = &text[count..];
                Ok(count)
            }
        }
    }
}
