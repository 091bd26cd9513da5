ghost use Rattle.std.specs.Prelude.{◌≡◌};
ghost use Rattle.thread_state.specs.Frame.{entry_of, is_routine, is_advance};

use instruction_table::Regs;

/// An entry of a thread's stack, as the machine shows it.
#[derive(Clone, Copy, PartialEq, Eq)]
pub enum Entry {
    /// A call. The number is the row that it returns to.
    Call(u16),
    /// A handler of exceptions. The number is its first row.
    Handler(u16),
    /// The routine of a root phaser's `onAdvance`. The number is the root phaser's.
    Advance(u8),
    /// The action of a barrier. The number is the barrier.
    Action(u8),
}

/// An entry of a thread's stack.
#[derive(Clone, Copy)]
pub enum Frame {
    /// A call. The number is the row that it returns to.
    Call(u16),
    /// A handler of exceptions. The number is its first row.
    Handler(u16),
    /// The `onAdvance` routine of a root phaser. The registers and the row are those of the arrival that began it.
    Advance(u8, Regs, u16),
    /// The action of a barrier. The registers and the row are those of the arrival that began it.
    Action(u8, Regs, u16),
}

impl Frame {
    /// Returns the entry as the machine shows it: without the registers and the row that it saved.
    pub fn entry(&self) -> Entry
        ensures { result ≡ entry_of self.now }
    {
        match self {
            Frame::Call(row) => Entry::Call(*row),
            Frame::Handler(row) => Entry::Handler(*row),
            Frame::Advance(root, _, _) => Entry::Advance(*root),
            Frame::Action(barrier, _, _) => Entry::Action(*barrier),
        }
    }

    /// Returns whether this is the entry of a routine or of a barrier's action.
    pub fn is_routine(&self) -> bool
        ensures { result ≡ is_routine self.now }
    {
        matches!(self, Frame::Advance(..) | Frame::Action(..))
    }

    /// Returns whether this is the entry of this root's routine.
    pub fn is_advance(&self, wanted: u8) -> bool
        ensures { result ≡ is_advance wanted self.now }
    {
        match self {
            Frame::Advance(root, _, _) => *root == wanted,
            _ => false,
        }
    }
}
