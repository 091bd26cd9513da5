//! The local rows: they use only the registers of their thread and the number of its next row, `pc`.
ghost use Rattle.std.specs.Prelude.{◌≡◌, ◌<◌, ◌+◌, ◌+ℤ◌, ◌-ℤ◌, IsTrue, None, min, if◌then◌else◌};
ghost use Rattle.instruction_table.specs.LocalRows.{is_local_row, loads, local_of, wrapped};
ghost use Rattle.instruction_table.specs.Registers.{value_in};

use crate::register::Reg;
use crate::registers::{Local, Regs};
use crate::row::Row;

/// Returns whether the row uses only its thread's registers and the number of its next row: the rows of opcodes 1 to 8.
pub fn is_local(row: Row) -> bool
    ensures { result ≡ is_local_row row }
{
    match row {
        Row::Ldi { .. } => true,
        Row::Mov { .. } => true,
        Row::Add { .. } => true,
        Row::Sub { .. } => true,
        Row::Jmp { .. } => true,
        Row::Beq { .. } => true,
        Row::Bne { .. } => true,
        Row::Blt { .. } => true,
        _ => false,
    }
}

/// Returns the sum of two registers. It wraps, as Java's `int` does.
#[tactic(auto, using(crate::proofs::Wrapping::sum_is_wrapped))]
fn sum(registers: &Regs, left: Reg, right: Reg) -> i32
    ensures { result ≡ wrapped (value_in registers.now left +ℤ value_in registers.now right) }
{
    registers.get(left).wrapping_add(registers.get(right))
}

/// Returns the left register less the right one. It wraps, as Java's `int` does.
#[tactic(auto, using(crate::proofs::Wrapping::difference_is_wrapped))]
fn difference(registers: &Regs, left: Reg, right: Reg) -> i32
    ensures { result ≡ wrapped (value_in registers.now left -ℤ value_in registers.now right) }
{
    registers.get(left).wrapping_sub(registers.get(right))
}

/// Puts a number into a register, and goes to the next row. Returns the number, as `play_local` does for such a row.
fn load(registers: &mut Regs, pc: &mut u16, into: Reg, value: i32) -> Option<i32>
    requires { pc.old < 65535 }
    ensures { record { registers = registers.new; pc = pc.new; written = result }
        ≡ loads registers.old pc.old into value }
{
    registers.set(into, value);
    *pc += 1;
    Some(value)
}

/// Goes to the row `place`. Returns `None`: no register gets a number.
fn go_to(pc: &mut u16, place: u16) -> Option<i32>
    ensures place { pc.new ≡ place }
    ensures written { result ≡ None }
{
    *pc = place;
    None
}

/// Goes to the row `target` if `taken` is true, and otherwise to the next row. Returns `None`: no register gets a number.
fn branch(pc: &mut u16, taken: bool, target: u16) -> Option<i32>
    requires { pc.old < 65535 }
    ensures place { pc.new ≡ (if taken then target else pc.old + 1) }
    ensures written { result ≡ None }
{
    let next = *pc + 1;
    go_to(pc, if taken { target } else { next })
}

/// Returns the registers and the next row's number after the local row at `pc`. A row at 65535 is played as if at 65534, so
/// that the number of the row after it is 65535.
pub fn local(row: Row, registers: &Regs, pc: u16) -> Local
    requires { IsTrue (is_local_row row) }
    ensures registers { result.registers ≡ (local_of row registers.now pc).registers }
    ensures pc { result.pc ≡ min (local_of row registers.now pc).pc 65535 }
{
    let mut left = Local {
        registers: *registers,
        pc: pc.min(65534),
    };
    play_local(row, &mut left.registers, &mut left.pc);
    left
}

/// Plays a local row on these registers and `pc`. Returns the number that it put into a register, or `None` for a jump.
#[inline(always)]
pub fn play_local(row: Row, registers: &mut Regs, pc: &mut u16) -> Option<i32>
    requires local { IsTrue (is_local_row row) }
    requires place { pc.old < 65535 }
    ensures { record { registers = registers.new; pc = pc.new; written = result }
        ≡ local_of row registers.old pc.old }
{
    match row {
        Row::Ldi { into, value } => load(registers, pc, into, value),
        Row::Mov { into, from } => {
            let value = registers.get(from);
            load(registers, pc, into, value)
        }
        Row::Add { into, left, right } => {
            let value = sum(registers, left, right);
            load(registers, pc, into, value)
        }
        Row::Sub { into, left, right } => {
            let value = difference(registers, left, right);
            load(registers, pc, into, value)
        }
        Row::Jmp { target } => go_to(pc, target),
        Row::Beq {
            left,
            right,
            target,
        } => {
            let equal = registers.get(left) == registers.get(right);
            branch(pc, equal, target)
        }
        Row::Bne {
            left,
            right,
            target,
        } => {
            let equal = registers.get(left) == registers.get(right);
            branch(pc, !equal, target)
        }
        Row::Blt {
            left,
            right,
            target,
        } => {
            let less = registers.get(left) < registers.get(right);
            branch(pc, less, target)
        }
        _ => unreachable!(),
    }
}
