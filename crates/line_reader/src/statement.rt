use crate::symbolic_barrier::SymbolicBarrier;
use crate::symbolic_phaser::SymbolicPhaser;
use crate::symbolic_row::SymbolicRow;
use crate::symbolic_thread::SymbolicThread;

/// What a line says.
#[derive(Drop)]
pub enum Statement<N> {
    Phaser(SymbolicPhaser<N>),
    Barrier(SymbolicBarrier<N>),
    Thread(SymbolicThread<N>),
    /// The name of the next cell.
    Cell(N),
    /// Only a label.
    Label(N),
    /// A row, and its label if it has one.
    Row(Option<N>, SymbolicRow<N>),
}

/// A line that says something, with its number from 1.
#[derive(Drop)]
pub struct Line<N> {
    pub number: u64,
    pub statement: Statement<N>,
}
