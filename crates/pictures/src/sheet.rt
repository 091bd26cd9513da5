// The layout of a picture: its columns and blocks, in bytes.
ghost use Rattle.std.specs.Prelude.{◌≡◌, ◌<◌, ◌≤◌, ◌-◌, ◌*◌};
ghost use Rattle.pictures.specs.Sheet.{beside_of, blocks_of, column_room, mark_column, mark_room, most_beside, other_blocks, sheet_of};
ghost use Rattle.pictures.specs.Picture.{in_block, name_room};

/// The layout of a picture.
#[derive(Clone, Copy)]
pub struct Sheet {
    /// The most bytes in a line.
    pub width: u16,
    /// How many threads stand side by side.
    pub beside: u16,
    /// How wide the column of a thread is.
    pub column: u16,
}

/// Returns how many threads, of 19 bytes each, fit in a line beside 23 bytes for its number and what changed: at least one.
fn most_beside(width: u16) -> u16
    ensures most { result ≡ most_beside width }
    ensures some { 0 < result }
{
    (width.saturating_sub(23) / 19).max(1)
}

impl Sheet {
    /// Returns the layout for lines of `width` bytes: blocks of about equally many threads, with columns of at most 27 bytes.
    pub fn new(width: u16, threads: u16) -> Sheet
        ensures sheet { result ≡ sheet_of width threads }
        ensures some { 0 < result.beside }
    {
        let last = threads.saturating_sub(1);
        let blocks = u32::from(last / most_beside(width)) + 1;
        let beside = u32::from(last) / blocks + 1;
        let room = u32::from(width.saturating_sub(23));
        Sheet {
            width,
            beside: beside as u16,
            column: (room / beside).min(27) as u16,
        }
    }

    /// Returns the number of blocks without the last one.
    pub fn other_blocks(self, threads: u16) -> u16
        requires { 0 < self.beside }
        ensures { result ≡ other_blocks self threads }
    {
        threads.saturating_sub(1) / self.beside
    }

    /// Returns how many threads the block has whose first thread is `first`.
    pub fn in_block(self, threads: usize, first: usize) -> usize
        ensures { result ≡ in_block self threads first }
    {
        usize::from(self.beside).min(threads.saturating_sub(first))
    }

    /// Returns the column at which the changes of phasers and barriers begin: after 8 bytes for the number, and the threads.
    pub fn mark_column(self) -> usize
        ensures { result ≡ mark_column self }
    {
        8 + usize::from(self.beside) * usize::from(self.column)
    }

    /// Returns how many bytes the changes of phasers and barriers may take.
    pub fn mark_room(self) -> usize
        ensures { result ≡ mark_room self }
    {
        usize::from(self.width).saturating_sub(self.mark_column())
    }

    /// Returns how many bytes a column has, without the blank after it.
    pub fn column_room(self) -> usize
        ensures { result ≡ column_room self }
    {
        usize::from(self.column).saturating_sub(1)
    }

    /// Returns how many bytes a name may take in a closing line, as `a waits at p (1 of 2 arrived): stuck`. Two names and 46
    /// bytes of other words fit into a line. A longer line is cut.
    pub fn name_room(self) -> usize
        ensures { result ≡ name_room self }
    {
        usize::from(self.width).saturating_sub(46) / 2
    }
}
