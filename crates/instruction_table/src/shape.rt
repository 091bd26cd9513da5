/// What an operand of a row is, and so how a program's text writes it.
#[derive(Clone, Copy, PartialEq, Eq)]
pub enum OperandKind {
    /// `r0` to `r7`.
    Register,
    /// A number like Java's `int`.
    Number,
    /// The number of a row, or a label.
    Target,
    /// The number of a phaser, or its name.
    Phaser,
    /// The number of a barrier, or its name.
    Barrier,
    /// The number of a thread, or its name.
    Thread,
    /// The number of a shared cell, or its name.
    Cell,
}

/// How a kind of row is written: an entry of the instruction table.
#[derive(Clone, Copy)]
pub struct Shape {
    /// The entry's place in the table, from 0.
    pub opcode: u8,
    /// The word that begins the row in a program's text.
    pub word: &'static str,
    /// The kinds of the operands, in the order of the text: at most four.
    pub operands: &'static [OperandKind],
}
