ghost use Rattle.std.specs.Prelude.{◌≡◌, ◌<◌, ◌≤◌};
ghost use Rattle.row_code.specs.RowFields.{IsRow};
ghost use Rattle.row_code.specs.RowOperands.{register_at, object_at, operands_at, row_with};

use crate::fields::Fields;
use instruction_table::{Reg, Row};

/// The values of the fields, read as operands of each kind. A row uses some of them.
#[derive(Clone, Copy)]
pub struct Operands {
    pub a: Reg,
    pub b: Reg,
    pub c: Reg,
    pub number: i32,
    pub object: u16,
}

/// Returns the register of this number, or R0 above 7. `decode` refuses such a number, because R0 is encoded as 0.
fn register_at(number: u8) -> Reg
    ensures { result ≡ register_at number }
{
    match number {
        1 => Reg::R1,
        2 => Reg::R2,
        3 => Reg::R3,
        4 => Reg::R4,
        5 => Reg::R5,
        6 => Reg::R6,
        7 => Reg::R7,
        _ => Reg::R0,
    }
}

/// Returns the number of an object or a row, or 0 for any other `imm`, such as -1, which only the row `ldi` may have.
fn object_at(imm: i32) -> u16
    ensures { result ≡ object_at imm }
{
    u16::try_from(imm).unwrap_or(0)
}

/// Reads the fields as operands of each kind. A field that holds no such operand is read as R0 or 0.
pub fn operands_at(fields: Fields) -> Operands
    ensures { result ≡ operands_at fields }
{
    Operands {
        a: register_at(fields.a),
        b: register_at(fields.b),
        c: register_at(fields.c),
        number: fields.imm,
        object: object_at(fields.imm),
    }
}

/// Returns the row with this opcode and these operands. An unknown opcode gives `halt`, of opcode 0: `decode` refuses it.
#[inline(always)]
pub fn row_with(opcode: u8, operands: Operands) -> Row
    ensures row { result ≡ row_with opcode operands }
    ensures fits { IsRow result }
{
    let Operands {
        a: into,
        b,
        c,
        number,
        object,
    } = operands;
    // An object under the names that it has in rows.
    let (phaser, barrier) = (object, object);
    match opcode {
        0 => Row::Halt,
        1 => Row::Ldi {
            into,
            value: number,
        },
        2 => Row::Mov { into, from: b },
        3 => Row::Add {
            into,
            left: b,
            right: c,
        },
        4 => Row::Sub {
            into,
            left: b,
            right: c,
        },
        5 => Row::Jmp { target: object },
        6 => Row::Beq {
            left: into,
            right: b,
            target: object,
        },
        7 => Row::Bne {
            left: into,
            right: b,
            target: object,
        },
        8 => Row::Blt {
            left: into,
            right: b,
            target: object,
        },
        9 => Row::Call { target: object },
        10 => Row::Ret,
        11 => Row::Try { handler: object },
        12 => Row::Endtry,
        13 => Row::Throw { code: into },
        14 => Row::Out { value: into },
        15 => Row::Lds { into, cell: object },
        16 => Row::Sts {
            from: into,
            cell: object,
        },
        17 => Row::SelfNumber { into },
        18 => Row::Intr { thread: object },
        19 => Row::Intrd { into },
        20 => Row::Preg { into, phaser },
        21 => Row::Pbulk {
            into,
            phaser,
            count: b,
        },
        22 => Row::Parr { into, phaser },
        23 => Row::Pdereg { into, phaser },
        24 => Row::Paaa { into, phaser },
        25 => Row::Pawait {
            into,
            phaser,
            phase: b,
        },
        26 => Row::Pawaiti {
            into,
            phaser,
            phase: b,
        },
        27 => Row::Pforce { phaser },
        28 => Row::Pphase { into, phaser },
        29 => Row::Pparties { into, phaser },
        30 => Row::Parrived { into, phaser },
        31 => Row::Punarr { into, phaser },
        32 => Row::Pterm { into, phaser },
        33 => Row::Pparent { into, phaser },
        34 => Row::Proot { into, phaser },
        35 => Row::Cawait { into, barrier },
        36 => Row::Creset { barrier },
        37 => Row::Cbroken { into, barrier },
        38 => Row::Cwaiting { into, barrier },
        39 => Row::Cparties { into, barrier },
        40 => Row::Pawaitt {
            into,
            phaser,
            phase: b,
            timeout: c,
        },
        41 => Row::Cawaitt {
            into,
            barrier,
            timeout: b,
        },
        _ => Row::Halt,
    }
}
