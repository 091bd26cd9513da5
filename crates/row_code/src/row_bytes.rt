ghost use Rattle.std.specs.Prelude.{◌≡◌, IfSome, Some};
ghost use Rattle.instruction_table.specs.declared.row.Row.{Row};
ghost use Rattle.row_code.specs.{RowBytes.bytes_of, RowBytes.fields_at, RowFields.IsRow, RowOperands.row_in};

use crate::fields::{Fields, fields_of};
use crate::operands::{operands_at, row_with};
use instruction_table::{Row, opcode};

/// Returns the eight bytes of a row: its opcode, three register fields, and a number with the lowest byte first.
#[inline(always)]
pub fn encode(row: Row) -> [u8; 8]
    ensures bytes { result ≡ bytes_of row }

    // Every row in memory can be spelled.
    ensures fits { IsRow row }
{
    let fields = fields_of(row);
    let imm = fields.imm.to_le_bytes();
    [
        opcode(row),
        fields.a,
        fields.b,
        fields.c,
        imm[0],
        imm[1],
        imm[2],
        imm[3],
    ]
}

/// Returns the fields of a row's bytes: all but the opcode.
fn fields_at(bytes: [u8; 8]) -> Fields
    ensures { result ≡ fields_at bytes }
{
    let [_, a, b, c, imm0, imm1, imm2, imm3] = bytes;
    let imm = i32::from_le_bytes([imm0, imm1, imm2, imm3]);
    Fields { a, b, c, imm }
}

/// Returns the row that these bytes encode, or `None` if they encode none. It builds a row from the bytes in any case, and
/// returns it only if its encoding is these bytes.
pub fn decode(bytes: [u8; 8]) -> Option<Row>
    // The row is the one with these bytes, and it is found if there is one.
    ensures found { IfSome result (λ row. IsRow row × (bytes_of row ≡ bytes)) }
    ensures only { (row : Row) → IsRow row → bytes_of row ≡ bytes → result ≡ Some row }

    // How it is found.
    ensures taken { result ≡ row_in bytes }
{
    let row = row_with(bytes[0], operands_at(fields_at(bytes)));
    if encode(row) == bytes {
        Some(row)
    } else {
        None
    }
}
