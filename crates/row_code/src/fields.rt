ghost use Rattle.std.specs.Prelude.{◌≡◌};
ghost use Rattle.instruction_table.specs.Register.{number_of};
ghost use Rattle.row_code.specs.RowFields.{fields_of, IsRow};

use instruction_table::{Reg, Row};

/// The fields after the opcode in a row's bytes.
#[derive(Clone, Copy)]
pub struct Fields {
    pub a: u8,
    pub b: u8,
    pub c: u8,
    pub imm: i32,
}

/// Returns the fields of a row without a register. `imm` is the number of the object or the row that it names, or 0.
fn no_register(imm: i32) -> Fields
    ensures { result ≡ record { a = 0; b = 0; c = 0; imm = imm } }
{
    Fields {
        a: 0,
        b: 0,
        c: 0,
        imm,
    }
}

/// Returns the fields of a row with one register. `imm` is its other operand, or 0.
fn one_register(a: Reg, imm: i32) -> Fields
    ensures { result ≡ record { a = number_of a; b = 0; c = 0; imm = imm } }
{
    Fields {
        a: a.number(),
        b: 0,
        c: 0,
        imm,
    }
}

/// Returns the fields of a row with two registers. `imm` is its other operand, or 0.
fn two_registers(a: Reg, b: Reg, imm: i32) -> Fields
    ensures { result ≡ record { a = number_of a; b = number_of b; c = 0; imm = imm } }
{
    Fields {
        a: a.number(),
        b: b.number(),
        c: 0,
        imm,
    }
}

/// Returns the fields of a row with three registers. `imm` is its other operand, or 0.
fn three_registers(a: Reg, b: Reg, c: Reg, imm: i32) -> Fields
    ensures { result ≡ record { a = number_of a; b = number_of b; c = number_of c; imm = imm } }
{
    Fields {
        a: a.number(),
        b: b.number(),
        c: c.number(),
        imm,
    }
}

/// Returns a row's operands in their fields: the registers from left to right in `a`, `b` and `c`, the other one in `imm`.
#[inline(always)]
pub fn fields_of(row: Row) -> Fields
    ensures fields { result ≡ fields_of row }

    // Every row in memory fits its fields.
    ensures fits { IsRow row }
{
    match row {
        Row::Halt | Row::Ret | Row::Endtry => no_register(0),
        Row::Jmp { target } | Row::Call { target } => no_register(i32::from(target)),
        Row::Try { handler } => no_register(i32::from(handler)),
        Row::Intr { thread } => no_register(i32::from(thread)),
        Row::Pforce { phaser } => no_register(i32::from(phaser)),
        Row::Creset { barrier } => no_register(i32::from(barrier)),
        Row::Ldi { into, value } => one_register(into, value),
        Row::Throw { code: a }
        | Row::Out { value: a }
        | Row::SelfNumber { into: a }
        | Row::Intrd { into: a } => one_register(a, 0),
        Row::Lds { into: a, cell } | Row::Sts { from: a, cell } => {
            one_register(a, i32::from(cell))
        }
        Row::Preg { into, phaser }
        | Row::Parr { into, phaser }
        | Row::Pdereg { into, phaser }
        | Row::Paaa { into, phaser }
        | Row::Pphase { into, phaser }
        | Row::Pparties { into, phaser }
        | Row::Parrived { into, phaser }
        | Row::Punarr { into, phaser }
        | Row::Pterm { into, phaser }
        | Row::Pparent { into, phaser }
        | Row::Proot { into, phaser } => one_register(into, i32::from(phaser)),
        Row::Cawait { into, barrier }
        | Row::Cbroken { into, barrier }
        | Row::Cwaiting { into, barrier }
        | Row::Cparties { into, barrier } => one_register(into, i32::from(barrier)),
        Row::Mov { into, from } => two_registers(into, from, 0),
        Row::Beq {
            left: a,
            right: b,
            target: object,
        }
        | Row::Bne {
            left: a,
            right: b,
            target: object,
        }
        | Row::Blt {
            left: a,
            right: b,
            target: object,
        }
        | Row::Pbulk {
            into: a,
            phaser: object,
            count: b,
        }
        | Row::Pawait {
            into: a,
            phaser: object,
            phase: b,
        }
        | Row::Pawaiti {
            into: a,
            phaser: object,
            phase: b,
        }
        | Row::Cawaitt {
            into: a,
            barrier: object,
            timeout: b,
        } => { two_registers(a, b, i32::from(object)) }
        Row::Add { into, left, right } | Row::Sub { into, left, right } => {
            three_registers(into, left, right, 0)
        }
        Row::Pawaitt {
            into,
            phaser,
            phase,
            timeout,
        } => { three_registers(into, phase, timeout, i32::from(phaser)) }
    }
}
