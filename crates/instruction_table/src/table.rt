//! The instruction table, and how a word is found in it: by a slot for each word.
ghost use Rattle.std.specs.Prelude.{◌≡◌, ◌<◌, ◌≤◌, All, IfSome, MatchOption, Some, None, map, option_map, length, slice_index_or, slice_get};
ghost use Rattle.instruction_table.specs.Row.{opcode_of};
ghost use Rattle.instruction_table.specs.Table.{Entry, no_entry, entry_listed, filled_by, entry_of, entry_named, table, entry_for};

use crate::row::{Row, opcode};
use crate::shape::OperandKind::{Barrier, Cell, Number, Phaser, Register, Target, Thread};
use crate::shape::{OperandKind, Shape};

/// An entry of the table: opcode, word and kinds of operands.
type Listed = (u8, &'static str, &'static [OperandKind]);

/// The instruction table: an entry for each kind of row, at the place of its opcode.
const TABLE: [Listed; 42] = [
    (0, "halt", &[]),
    (1, "ldi", &[Register, Number]),
    (2, "mov", &[Register, Register]),
    (3, "add", &[Register, Register, Register]),
    (4, "sub", &[Register, Register, Register]),
    (5, "jmp", &[Target]),
    (6, "beq", &[Register, Register, Target]),
    (7, "bne", &[Register, Register, Target]),
    (8, "blt", &[Register, Register, Target]),
    (9, "call", &[Target]),
    (10, "ret", &[]),
    (11, "try", &[Target]),
    (12, "endtry", &[]),
    (13, "throw", &[Register]),
    (14, "out", &[Register]),
    (15, "lds", &[Register, Cell]),
    (16, "sts", &[Register, Cell]),
    (17, "self", &[Register]),
    (18, "intr", &[Thread]),
    (19, "intrd", &[Register]),
    (20, "preg", &[Register, Phaser]),
    (21, "pbulk", &[Register, Phaser, Register]),
    (22, "parr", &[Register, Phaser]),
    (23, "pdereg", &[Register, Phaser]),
    (24, "paaa", &[Register, Phaser]),
    (25, "pawait", &[Register, Phaser, Register]),
    (26, "pawaiti", &[Register, Phaser, Register]),
    (27, "pforce", &[Phaser]),
    (28, "pphase", &[Register, Phaser]),
    (29, "pparties", &[Register, Phaser]),
    (30, "parrived", &[Register, Phaser]),
    (31, "punarr", &[Register, Phaser]),
    (32, "pterm", &[Register, Phaser]),
    (33, "pparent", &[Register, Phaser]),
    (34, "proot", &[Register, Phaser]),
    (35, "cawait", &[Register, Barrier]),
    (36, "creset", &[Barrier]),
    (37, "cbroken", &[Register, Barrier]),
    (38, "cwaiting", &[Register, Barrier]),
    (39, "cparties", &[Register, Barrier]),
    (40, "pawaitt", &[Register, Phaser, Register, Register]),
    (41, "cawaitt", &[Register, Barrier, Register]),
];

/// Returns an entry of the table as a `Shape`, which has names for its three parts.
fn shape_listed(listed: Listed) -> Shape
    ensures { entry_of result ≡ entry_listed listed.entry }
{
    let (opcode, word, operands) = listed;
    Shape {
        opcode,
        word,
        operands,
    }
}

/// For each slot, which `place_of` computes from a word, the place of the entry with that word, or 255 if no word has the slot.
const PLACES: [u8; 128] = [
    255, 255, 255, 255, 255, 255, 255, 36, 255, 31, 255, 33, 13, 255, 255, 255, 255, 16, 255, 34,
    255, 27, 255, 255, 255, 2, 255, 6, 255, 255, 17, 14, 255, 255, 255, 22, 255, 23, 255, 255, 19,
    255, 255, 255, 7, 255, 255, 255, 255, 26, 35, 41, 255, 0, 12, 255, 1, 4, 15, 255, 255, 255, 5,
    25, 40, 255, 32, 255, 255, 255, 24, 28, 9, 255, 255, 255, 255, 255, 21, 255, 255, 255, 10, 255,
    255, 255, 11, 255, 255, 255, 255, 255, 255, 18, 255, 255, 255, 255, 255, 255, 255, 8, 255, 255,
    255, 20, 37, 255, 3, 255, 255, 255, 255, 30, 39, 255, 255, 255, 255, 255, 255, 38, 255, 255,
    255, 255, 255, 29,
];

/// Returns the place of the entry with this word: `PLACES` at a slot computed from the word's length and its first, second and
/// last letters. The factors 5 and 13 give each word of the table its own slot. Other bytes get any place, or 255: none.
#[inline(always)]
fn place_of(word: &[u8]) -> u8
    ensures { (e : Entry) → entry_named table word.now ≡ Some e → result ≡ e.opcode }
{
    match word {
        [first, second, .., last] => {
            let letters = usize::from(*first) + 5 * usize::from(*second) + 13 * usize::from(*last);
            PLACES[(word.len() + letters) % 128]
        }
        _ => 255,
    }
}

/// Returns the opcode of the entry at this place, or `None` if the entry has another word or there is none.
#[inline(always)]
fn opcode_there(entries: &[Listed], place: u8, word: &[u8]) -> Option<u8>
    ensures { result ≡ option_map (λ e. e.opcode)
        (filled_by word.now (slice_get (map entry_listed entries.now) place)) }
{
    match entries.get(usize::from(place)) {
        Some(listed) => {
            if listed.1.as_bytes() == word {
                Some(listed.0)
            } else {
                None
            }
        }
        None => None,
    }
}

/// Returns the opcode of the rows that begin with this word: 14 for `out`. `None`: no row has it, for example `ou` or `OUT`.
#[inline(always)]
pub fn opcode_named(word: &[u8]) -> Option<u8>
    ensures opcode { result ≡ option_map (λ e. e.opcode) (entry_named table word.now) }
    ensures entry { MatchOption result (entry_named table word.now ≡ None)
        (λ opcode. entry_named table word.now ≡ Some (slice_index_or table opcode no_entry)) }
    ensures there { IfSome result (λ opcode. opcode < length table) }
{
    opcode_there(&TABLE, place_of(word), word)
}

/// Returns the kinds of the operands of the entry at this place, which exists.
#[inline(always)]
fn operands_at(entries: &[Listed], place: u8) -> &'static [OperandKind]
    requires { place < length entries.now }
    ensures { result.now ≡ (slice_index_or (map entry_listed entries.now) place no_entry).operands }
{
    entries[usize::from(place)].2
}

/// Returns the kinds of the operands of the rows of this opcode, in the order of the text: at most four.
#[inline(always)]
pub fn operands_of(opcode: u8) -> &'static [OperandKind]
    requires { opcode < length table }
    ensures { result.now ≡ (slice_index_or table opcode no_entry).operands }
{
    operands_at(&TABLE, opcode)
}

/// Returns how the rows of the entry at this place, which exists, are written.
fn shape_at(entries: &[Listed], place: u8) -> Shape
    requires { place < length entries.now }
    ensures { entry_of result ≡ slice_index_or (map entry_listed entries.now) place no_entry }
{
    shape_listed(entries[usize::from(place)])
}

/// Returns how the rows that begin with this word are written. `None`: no row has it, for example `ou` or `OUT`.
pub fn shape_of(word: &[u8]) -> Option<Shape>
    ensures entry { option_map entry_of result ≡ entry_named table word.now }

    // No other kind of row has the word, and the opcode leads back to the entry.
    ensures only { IfSome result (λ s. All (λ e. e.word ≡ word.now → e ≡ entry_of s) table) }
    ensures place { IfSome result (λ s. slice_index_or table s.opcode no_entry ≡ entry_of s) }
    ensures short { IfSome result (λ s. length s.operands.now ≤ 4) }
{
    match opcode_named(word) {
        Some(opcode) => Some(shape_at(&TABLE, opcode)),
        None => None,
    }
}

/// Returns how the row is written: its opcode, its word, and the kinds of its operands.
pub fn row_shape(row: Row) -> Shape
    ensures entry { entry_of result ≡ entry_for row }
    ensures code { result.opcode ≡ opcode_of row }
{
    shape_at(&TABLE, opcode(row))
}

/// Returns the word that begins the row in a program's text. No other kind of row has it.
pub fn mnemonic(row: Row) -> &'static str
    ensures word { result.now ≡ (entry_for row).word }
    ensures found { entry_named table result.now ≡ Some (entry_for row) }
{
    row_shape(row).word
}
