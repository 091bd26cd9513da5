//! The instruction set of the machine: what each row of a program is, and how it is written.
//!
//! The table has an entry for each kind of row: its opcode, its word, and the kinds of its operands. Eight kinds of rows use
//! only registers of their own thread. `local` returns everything that such a row changes.
#![tactic(auto)]

// The rows, and the registers that they name.
pub mod register;
pub mod row;

// How each kind of row is written.
pub mod shape;
pub mod table;

// What each row acts on.
pub mod group;

// The registers of a thread.
pub mod registers;

// The rows that use only registers.
pub mod local_rows;

pub use group::{Group, group_of};
pub use local_rows::{is_local, local, play_local};
pub use register::Reg;
pub use registers::{Local, Regs};
pub use row::{Row, is_timed, opcode};
pub use shape::{OperandKind, Shape};
pub use table::{mnemonic, opcode_named, operands_of, row_shape, shape_of};
