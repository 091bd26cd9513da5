//! What a call writes, until its caller gets it.
ghost use Rattle.std.specs.Prelude.{◌≡◌, []};
ghost use Rattle.vuthgal_c.specs.Shows.{HandsOver};

use crate::handing::{NO_MEMORY, hand_all, hand_over};
use byte_ports::CountingSink;
use std::alloc::Global;

/// The output of a call, and its line.
#[derive(Drop)]
pub struct Reply {
    /// The output.
    pub shown: CountingSink,
    /// The line of a fault.
    pub told: CountingSink,
}

impl Reply {
    /// Makes an empty reply for a caller with room for `output` and `line` bytes. It keeps no bytes that don't fit there.
    pub fn new(alloc: Global, output: usize, line: usize) -> Reply
        ensures shown { result.shown.written ≡ [] }
        ensures told { result.told.written ≡ [] }
    {
        Reply {
            shown: CountingSink::new(alloc, output),
            told: CountingSink::new(alloc, line),
        }
    }

    /// Copies the output and the line to the caller. Returns `status`. If there was no memory to keep bytes that fit, it copies
    /// only the line `memory`, and returns 4.
    pub fn hand(
        &self,
        status: u8,
        output: &mut [u8],
        output_length: &mut usize,
        line: &mut [u8],
        line_length: &mut usize,
    ) -> u8
        ensures { HandsOver status self.now.shown.written self.now.told.written result
            output.old output.new output_length.new line.old line.new line_length.new }
    {
        let Reply { shown, told } = self;
        if !shown.has_kept(output.len()) || !told.has_kept(line.len()) {
            hand_all(&[], output, output_length);
            hand_all(NO_MEMORY, line, line_length);
            return 4;
        }
        hand_over(shown, output, output_length);
        hand_over(told, line, line_length);
        status
    }
}
