//! Rows as they are stored until their names are looked up.
ghost use Rattle.std.specs.Prelude.{◌≡◌, [], ◌∷◌, IfOk, length, false, map, true};
ghost use Rattle.line_reader.specs.Reading.{operand_at, operand_there, register_at, row_at, row_of_kinds};
ghost use Rattle.line_reader.specs.Seen.{name_seen, seen};
ghost use Rattle.line_reader.specs.KeptRow.{is_other, is_other_there, is_register, one_other, operand_kept, row_kept};

use crate::asm_fault::{AsmFaultKind, WordFault, read_at};
use crate::number::number_at;
use crate::reference::{Reference, reference_at};
use instruction_table::{OperandKind, Reg, opcode_named, operands_of};

/// One of the four operands of a row, as it is stored.
#[derive(Clone, Copy)]
pub enum KeptOperand {
    Absent,
    Register(Reg),
    /// The row holds a number.
    Number,
    /// The row holds the number of an object of this kind, or of a row.
    Numbered(OperandKind),
    /// The object of this kind, or the row, that has the name that the row holds.
    Named(OperandKind),
}

/// A row's opcode, and its operand that isn't a register: a name, a number, or the number of an object or a row. No row has two
/// such operands, so at most one of the three fields is in use.
#[derive(Clone, Copy)]
pub struct Held<'a> {
    pub name: &'a [u8],
    pub number: i32,
    pub object: u16,
    pub opcode: u8,
}

/// A row whose operands may still be names, in 32 bytes.
#[derive(Clone, Copy)]
pub struct KeptRow<'a> {
    pub held: Held<'a>,
    pub first: KeptOperand,
    pub second: KeptOperand,
    pub third: KeptOperand,
    pub fourth: KeptOperand,
}

/// Returns the register of the digit that follows `r`. A byte other than `0` to `7` is `BadRegister`.
#[inline(always)]
#[tactic(auto, unfolding(crate::specs::Reading::register_at))]
fn register_of(digit: u8) -> Result<Reg, AsmFaultKind>
    ensures { result ≡ register_at (114 ∷ digit ∷ []) }
{
    match digit {
        b'0' => Ok(Reg::R0),
        b'1' => Ok(Reg::R1),
        b'2' => Ok(Reg::R2),
        b'3' => Ok(Reg::R3),
        b'4' => Ok(Reg::R4),
        b'5' => Ok(Reg::R5),
        b'6' => Ok(Reg::R6),
        b'7' => Ok(Reg::R7),
        _ => Err(AsmFaultKind::BadRegister),
    }
}

/// Reads a register: `r0` to `r7`. Any other word is `BadRegister`.
#[inline(always)]
#[tactic(auto, unfolding(crate::specs::Reading::register_at))]
fn register_at(word: &[u8]) -> Result<Reg, AsmFaultKind>
    ensures { result ≡ register_at word.now }
{
    match word {
        [b'r', digit] => register_of(*digit),
        _ => Err(AsmFaultKind::BadRegister),
    }
}

/// Reads an operand of this kind, not a register. Its number or name goes into `held`, and the result says which it is. The
/// number of a row or an object is at most `u16::MAX` here. Whether there is such a row or object is checked later.
#[inline(always)]
#[tactic(auto, unfolding(crate::specs::Reading::operand_at))]
fn other_at<'a>(
    held: &mut Held<'a>,
    kind: OperandKind,
    word: &'a [u8],
) -> Result<KeptOperand, AsmFaultKind>
    requires { is_other kind ≡ true }
    ensures read { seen (operand_kept held.new) result ≡ operand_at kind word.now }
    ensures opcode { held.new.opcode ≡ held.old.opcode }
{
    match kind {
        OperandKind::Number => {
            held.number = number_at(i32::MIN, i32::MAX, word)?;
            Ok(KeptOperand::Number)
        }
        _ => match reference_at(u16::MAX, word)? {
            Reference::Named(name) => {
                held.name = name;
                Ok(KeptOperand::Named(kind))
            }
            Reference::Numbered(number) => {
                held.object = number;
                Ok(KeptOperand::Numbered(kind))
            }
        },
    }
}

/// Reads an operand of this kind. If it isn't a register, its number or name goes into `held`: no row has two such operands.
#[inline(always)]
#[tactic(auto, unfolding(crate::specs::Reading::operand_at))]
fn operand_at<'a>(
    held: &mut Held<'a>,
    kind: OperandKind,
    word: &'a [u8],
) -> Result<KeptOperand, AsmFaultKind>
    ensures read { seen (operand_kept held.new) result ≡ operand_at kind word.now }
    ensures register { is_other kind ≡ false → held.new ≡ held.old }
    ensures place { is_other kind ≡ false → IfOk result (λ kept. is_register kept ≡ true) }
    ensures opcode { held.new.opcode ≡ held.old.opcode }
{
    match kind {
        OperandKind::Register => Ok(KeptOperand::Register(register_at(word)?)),
        _ => other_at(held, kind, word),
    }
}

/// Reads the operand at this place, from 0, of a row with operands of these `kinds`. It is `Absent` if they are fewer.
#[inline(always)]
#[tactic(auto, using(crate::proofs::ByPlace::seen_there))]
fn operand_there<'a>(
    held: &mut Held<'a>,
    kinds: &[OperandKind],
    words: &[&'a [u8]],
    place: usize,
) -> Result<KeptOperand, WordFault>
    ensures read { seen (operand_kept held.new) result
        ≡ operand_there kinds.now (map name_seen words.now) place }
    ensures register { is_other_there kinds.now place ≡ false → held.new ≡ held.old }
    ensures place { is_other_there kinds.now place ≡ false
        → IfOk result (λ kept. is_register kept ≡ true) }
    ensures opcode { held.new.opcode ≡ held.old.opcode }
{
    match (kinds.get(place), words.get(place)) {
        (Some(kind), Some(word)) => {
            read_at(
                words.len().saturating_sub(place),
                operand_at(held, *kind, *word),
            )
        }
        _ => Ok(KeptOperand::Absent),
    }
}

/// Reads the operands of a row of this opcode, which are of these `kinds`, from left to right. The first fault is returned.
#[inline(always)]
#[tactic(auto, unfolding(crate::specs::Reading::row_of_kinds))]
fn row_of_kinds<'a>(
    opcode: u8,
    kinds: &[OperandKind],
    words: &[&'a [u8]],
) -> Result<KeptRow<'a>, WordFault>
    requires { one_other kinds.now ≡ true }
    ensures { seen row_kept result ≡ row_of_kinds opcode kinds.now (map name_seen words.now) }
{
    let mut held = Held {
        name: &[],
        number: 0,
        object: 0,
        opcode,
    };
    let first = operand_there(&mut held, kinds, words, 0)?;
    let second = operand_there(&mut held, kinds, words, 1)?;
    let third = operand_there(&mut held, kinds, words, 2)?;
    let fourth = operand_there(&mut held, kinds, words, 3)?;
    Ok(KeptRow {
        held,
        first,
        second,
        third,
        fourth,
    })
}

/// Reads a row: `word` is its first word, and `words` are its operands. `word` has the fault `UnknownWord` if no row begins
/// with it, and `OperandCount` if the operands are too few or too many.
#[inline(always)]
#[tactic(auto, unfolding(crate::specs::Reading::row_at))]
pub fn row_at<'a>(word: &[u8], words: &[&'a [u8]]) -> Result<KeptRow<'a>, WordFault>
    ensures { seen row_kept result ≡ row_at word.now (map name_seen words.now) }
{
    let Some(opcode) = opcode_named(word) else {
        return Err(WordFault::at(words.len() + 1, AsmFaultKind::UnknownWord));
    };
    let kinds = operands_of(opcode);
    if words.len() != kinds.len() {
        return Err(WordFault::at(words.len() + 1, AsmFaultKind::OperandCount));
    }
    row_of_kinds(opcode, kinds, words)
}
