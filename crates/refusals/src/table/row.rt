//! The entries of the rows, in the order of their opcodes.
ghost use Rattle.std.specs.Prelude.{◌≡◌, ◌≤◌, MatchOption, length, slice_get};
ghost use Rattle.std.specs.List.{flat_map};
ghost use Rattle.instruction_table.specs.Table.{table};
ghost use Rattle.refusals.specs.Word.{IsRowEntry, row_spellings, spellings};

use crate::table::rows::{
    BARRIER_ROWS, CONTROL_ROWS, PHASER_ROWS, PLAIN_ROWS, SHARED_ROWS, TIMED_ROWS, VIEW_ROWS,
};
use crate::word::WordEntry;

/// Returns the tables of the rows, which have an entry for each opcode.
fn row_tables() -> [&'static [WordEntry]; 7]
    ensures { spellings (flat_map (λ rows. rows.now) result) ≡ row_spellings table }
{
    [
        &PLAIN_ROWS,
        &CONTROL_ROWS,
        &SHARED_ROWS,
        &PHASER_ROWS,
        &VIEW_ROWS,
        &BARRIER_ROWS,
        &TIMED_ROWS,
    ]
}

/// Returns the entry at this index, as if the tables were one, each following the one before. None if they have fewer entries.
fn entry_at(tables: &[&'static [WordEntry]], place: usize) -> Option<WordEntry>
    ensures { result ≡ slice_get (flat_map (λ rows. rows.now) tables.now) place }
{
    match tables {
        [] => None,
        [rows, tables @ ..] => match rows.get(place) {
            Some(entry) => Some(*entry),
            None => entry_at(tables, place - rows.len()),
        },
    }
}

/// Returns the entry for the row of this opcode, 0 to 41. None for a larger number.
pub fn row_entry(opcode: u8) -> Option<WordEntry>
    ensures { MatchOption result (length table ≤ opcode) (IsRowEntry opcode) }
{
    entry_at(&row_tables(), usize::from(opcode))
}
