ghost use Rattle.std.specs.Prelude.{◌≡◌, ◌<◌, length};
ghost use Rattle.instruction_table.specs.{Row.opcode_of, Row.is_timed_row, Table.table};

use crate::register::Reg;

/// One row of a program. Its fields are in the order of the operands in a program's text. `into` is the register for the row's
/// result. A target or a handler is the number of a row. Rows, phasers, barriers, threads and cells are numbered from 0, in the
/// order of the program's declarations. A field holds any number up to 65535, whether there is such a thing or not. For the
/// rows of phasers and barriers, the comment names the Java method that they mirror.
#[derive(Clone, Copy)]
pub enum Row {
    /// Ends the thread.
    Halt,
    /// Loads a number.
    Ldi {
        into: Reg,
        value: i32,
    },
    /// Copies a register.
    Mov {
        into: Reg,
        from: Reg,
    },
    /// Adds two registers, wrapping.
    Add {
        into: Reg,
        left: Reg,
        right: Reg,
    },
    /// Subtracts the right register from the left one, wrapping.
    Sub {
        into: Reg,
        left: Reg,
        right: Reg,
    },
    /// Jumps.
    Jmp {
        target: u16,
    },
    /// Jumps if the two registers are equal.
    Beq {
        left: Reg,
        right: Reg,
        target: u16,
    },
    /// Jumps if the two registers differ.
    Bne {
        left: Reg,
        right: Reg,
        target: u16,
    },
    /// Jumps if the left register is less than the right one, both signed.
    Blt {
        left: Reg,
        right: Reg,
        target: u16,
    },
    /// Calls a subroutine.
    Call {
        target: u16,
    },
    /// Returns from a subroutine, a phaser's advance routine or a barrier's action.
    Ret,
    /// Puts a handler for exceptions on the stack.
    Try {
        handler: u16,
    },
    /// Takes the topmost handler off the stack.
    Endtry,
    /// Throws the number in a register as an exception.
    Throw {
        code: Reg,
    },
    /// Appends a number to the thread's output.
    Out {
        value: Reg,
    },
    /// Loads a shared cell.
    Lds {
        into: Reg,
        cell: u16,
    },
    /// Stores a register into a shared cell.
    Sts {
        from: Reg,
        cell: u16,
    },
    /// Loads the thread's own number. This is the row `self`, a word that can't name a variant.
    SelfNumber {
        into: Reg,
    },
    /// Interrupts a thread.
    Intr {
        thread: u16,
    },
    /// Loads the thread's own interrupted status, 0 or 1, and clears it.
    Intrd {
        into: Reg,
    },
    /// Phaser's `register`.
    Preg {
        into: Reg,
        phaser: u16,
    },
    /// `bulkRegister`, with the count in a register.
    Pbulk {
        into: Reg,
        phaser: u16,
        count: Reg,
    },
    /// `arrive`.
    Parr {
        into: Reg,
        phaser: u16,
    },
    /// `arriveAndDeregister`.
    Pdereg {
        into: Reg,
        phaser: u16,
    },
    /// `arriveAndAwaitAdvance`.
    Paaa {
        into: Reg,
        phaser: u16,
    },
    /// `awaitAdvance`, with the phase in a register.
    Pawait {
        into: Reg,
        phaser: u16,
        phase: Reg,
    },
    /// `awaitAdvanceInterruptibly`, with the phase in a register.
    Pawaiti {
        into: Reg,
        phaser: u16,
        phase: Reg,
    },
    /// `forceTermination`.
    Pforce {
        phaser: u16,
    },
    /// `getPhase`.
    Pphase {
        into: Reg,
        phaser: u16,
    },
    /// `getRegisteredParties`.
    Pparties {
        into: Reg,
        phaser: u16,
    },
    /// `getArrivedParties`.
    Parrived {
        into: Reg,
        phaser: u16,
    },
    /// `getUnarrivedParties`.
    Punarr {
        into: Reg,
        phaser: u16,
    },
    /// `isTerminated`, as 1 or 0.
    Pterm {
        into: Reg,
        phaser: u16,
    },
    /// `getParent`, as the parent's number, or -1 if there is none.
    Pparent {
        into: Reg,
        phaser: u16,
    },
    /// `getRoot`, as the root's number.
    Proot {
        into: Reg,
        phaser: u16,
    },
    /// CyclicBarrier's `await`.
    Cawait {
        into: Reg,
        barrier: u16,
    },
    /// `reset`.
    Creset {
        barrier: u16,
    },
    /// `isBroken`, as 1 or 0.
    Cbroken {
        into: Reg,
        barrier: u16,
    },
    /// `getNumberWaiting`.
    Cwaiting {
        into: Reg,
        barrier: u16,
    },
    /// `getParties`.
    Cparties {
        into: Reg,
        barrier: u16,
    },
    /// Phaser's `awaitAdvanceInterruptibly` with a timeout: the phase and the timeout in registers.
    Pawaitt {
        into: Reg,
        phaser: u16,
        phase: Reg,
        timeout: Reg,
    },
    /// CyclicBarrier's `await` with a timeout in a register.
    Cawaitt {
        into: Reg,
        barrier: u16,
        timeout: Reg,
    },
}

/// Returns the row's opcode, 0 to 41: the number of its kind, which its encoding begins with.
pub fn opcode(row: Row) -> u8
    ensures code { result ≡ opcode_of row }
    ensures listed { result < length table }
{
    match row {
        Row::Halt => 0,
        Row::Ldi { .. } => 1,
        Row::Mov { .. } => 2,
        Row::Add { .. } => 3,
        Row::Sub { .. } => 4,
        Row::Jmp { .. } => 5,
        Row::Beq { .. } => 6,
        Row::Bne { .. } => 7,
        Row::Blt { .. } => 8,
        Row::Call { .. } => 9,
        Row::Ret => 10,
        Row::Try { .. } => 11,
        Row::Endtry => 12,
        Row::Throw { .. } => 13,
        Row::Out { .. } => 14,
        Row::Lds { .. } => 15,
        Row::Sts { .. } => 16,
        Row::SelfNumber { .. } => 17,
        Row::Intr { .. } => 18,
        Row::Intrd { .. } => 19,
        Row::Preg { .. } => 20,
        Row::Pbulk { .. } => 21,
        Row::Parr { .. } => 22,
        Row::Pdereg { .. } => 23,
        Row::Paaa { .. } => 24,
        Row::Pawait { .. } => 25,
        Row::Pawaiti { .. } => 26,
        Row::Pforce { .. } => 27,
        Row::Pphase { .. } => 28,
        Row::Pparties { .. } => 29,
        Row::Parrived { .. } => 30,
        Row::Punarr { .. } => 31,
        Row::Pterm { .. } => 32,
        Row::Pparent { .. } => 33,
        Row::Proot { .. } => 34,
        Row::Cawait { .. } => 35,
        Row::Creset { .. } => 36,
        Row::Cbroken { .. } => 37,
        Row::Cwaiting { .. } => 38,
        Row::Cparties { .. } => 39,
        Row::Pawaitt { .. } => 40,
        Row::Cawaitt { .. } => 41,
    }
}

/// Returns whether the row waits no longer than a timeout: the rows of opcodes 40 and 41.
pub fn is_timed(row: Row) -> bool
    ensures { result ≡ is_timed_row row }
{
    matches!(row, Row::Pawaitt { .. } | Row::Cawaitt { .. })
}
