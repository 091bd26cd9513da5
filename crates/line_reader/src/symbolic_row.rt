use crate::reference::Reference;
use instruction_table::{OperandKind, Reg};

/// An operand in a program's text.
#[derive(Drop)]
pub enum Operand<N> {
    /// There is none: a row has four operands at most.
    Absent,
    Register(Reg),
    Number(i32),
    /// A row, or an object of this kind.
    Object(OperandKind, Reference<N>),
}

/// A row whose operands may still be names. The operands are in the order of the text. Those that the row doesn't have are
/// `Absent`, after the others.
#[derive(Drop)]
pub struct SymbolicRow<N> {
    pub opcode: u8,
    pub first: Operand<N>,
    pub second: Operand<N>,
    pub third: Operand<N>,
    pub fourth: Operand<N>,
}
