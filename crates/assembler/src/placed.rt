//! The fault of a text, and the place of the word that makes it.
ghost use Rattle.std.specs.Prelude.{◌≡◌, ◌-◌, ◌≤◌, List, None, Some, option_map, slice_get, ℕ};
ghost use Rattle.line_reader.specs.declared.asm_fault.AsmFaultKind.TheVariants as kinds;
ghost use Rattle.line_reader.specs.{Seen.name_seen, Seen.reference_seen, KeptRow.operand_kept, KeptRow.row_kept};
ghost use Rattle.line_reader.specs.Words.{lines_of};
ghost use Rattle.assembler.specs.KeptLine.{line_kept, number_kept, statement_kept};
ghost use Rattle.assembler.specs.Placed.{IsPlacedName, place_in, unknown_by, unknown_in, unknown_in_row, unknown_operand};

use crate::draft::Draft;
use crate::kept_line::KeptLine;
use crate::word_place::{WordPlace, last_place_of, line_at, place_of_word};
use instruction_table::OperandKind;
use line_reader::asm_fault::{AsmFault, AsmFaultKind, WordFault};
use line_reader::kept_row::{Held, KeptOperand, KeptRow};
use line_reader::reference::Reference;
use line_reader::symbolic_phaser::SymbolicPolicy;
use line_reader::words::{before_comment, place_of_forbidden};

/// The kind that an unknown name should be of, and the kind of what has this name. `given` is `None` if nothing has it.
#[derive(Clone, Copy, PartialEq, Eq)]
pub struct UnknownName {
    pub wanted: OperandKind,
    pub given: Option<OperandKind>,
}

/// The fault of a text, and where in its line it is.
#[derive(Clone, Copy, PartialEq, Eq)]
pub struct PlacedFault {
    pub fault: AsmFault,
    /// The word that makes the fault, or the byte for `BadByte`. `None` for `LongLine` and `Memory`.
    pub at: Option<WordPlace>,
    /// For `UnknownName`, the kind that is wanted, and the kind that has the name. `None` for any other fault.
    pub unknown: Option<UnknownName>,
}

impl PlacedFault {
    /// Returns the fault of being out of memory at this line.
    pub fn memory(line: u64) -> PlacedFault
        ensures fault { result.fault ≡ record { line = line; kind = kinds.Memory } }
        ensures place { result.at ≡ None }
    {
        PlacedFault {
            fault: AsmFault {
                line,
                kind: AsmFaultKind::Memory,
            },
            at: None,
            unknown: None,
        }
    }
}

/// Returns where a fault is in `line`. `words` is how many words the line has. For `BadByte` it is the byte, and otherwise the
/// first of the last `fault.left` words. `None` if `left` is 0: the whole line is too long, or memory was refused.
fn place_in(line: &[u8], fault: WordFault, words: usize) -> Option<WordPlace>
    ensures { result ≡ place_in line.now words fault }
{
    if fault.kind == AsmFaultKind::BadByte {
        let at = place_of_forbidden(line)?;
        return Some(WordPlace { at, length: 1 });
    }
    if fault.left == 0 {
        return None;
    }
    place_of_word(
        before_comment(line),
        words.saturating_sub(usize::from(fault.left)),
    )
}

/// Returns the fault of line `number` of a text, with its place in the line. `words` is how many words the line has.
pub fn placed(number: u64, fault: WordFault, text: &[u8], words: usize) -> PlacedFault
    ensures fault { result.fault ≡ record { line = number; kind = fault.kind } }
    ensures place { (line : List ℕ) → 1 ≤ number → slice_get (lines_of text.now) (number - 1) ≡ Some line
        → result.at ≡ place_in line words fault }
{
    PlacedFault {
        fault: AsmFault {
            line: number,
            kind: fault.kind,
        },
        at: match line_at(text, number) {
            Some(line) => place_in(line, fault, words),
            None => None,
        },
        unknown: None,
    }
}

/// Returns `wanted` and the name in a reference, if nothing of this kind has the name. `None`: something has it, or the
/// reference is a number.
fn unknown_by<'a>(
    draft: &Draft<'_>,
    wanted: OperandKind,
    reference: &Reference<&'a [u8]>,
) -> Option<(OperandKind, &'a [u8])>
    ensures { option_map (λ found. (found.0, found.1.now)) result
        ≡ unknown_by draft.now wanted (reference_seen reference.now) }
{
    match reference {
        Reference::Named(name) => match draft.number_named(wanted, *name) {
            Some(_) => None,
            None => Some((wanted, *name)),
        },
        Reference::Numbered(_) => None,
    }
}

/// Returns the kind and the name in an operand, if nothing of this kind has the name. `None`: something has it, or the operand
/// isn't a name.
fn unknown_operand<'a>(
    draft: &Draft<'_>,
    held: &Held<'a>,
    operand: KeptOperand,
) -> Option<(OperandKind, &'a [u8])>
    ensures { option_map (λ found. (found.0, found.1.now)) result
        ≡ unknown_operand draft.now (operand_kept held.now operand) }
{
    match operand {
        KeptOperand::Named(kind) => match draft.number_named(kind, held.name) {
            Some(_) => None,
            None => Some((kind, held.name)),
        },
        _ => None,
    }
}

/// Returns the first unknown name in a row, and the kind that it should name. `None`: all its names are known.
fn unknown_in_row<'a>(draft: &Draft<'_>, row: &KeptRow<'a>) -> Option<(OperandKind, &'a [u8])>
    ensures { option_map (λ found. (found.0, found.1.now)) result
        ≡ unknown_in_row draft.now (row_kept row.now) }
{
    if let Some(unknown) = unknown_operand(draft, &row.held, row.first) {
        return Some(unknown);
    }
    if let Some(unknown) = unknown_operand(draft, &row.held, row.second) {
        return Some(unknown);
    }
    if let Some(unknown) = unknown_operand(draft, &row.held, row.third) {
        return Some(unknown);
    }
    unknown_operand(draft, &row.held, row.fourth)
}

/// Returns the first unknown name in a line, and the kind that it should name. `None`: all its names are known.
fn unknown_name<'a>(draft: &Draft<'_>, line: &KeptLine<'a>) -> Option<(OperandKind, &'a [u8])>
    ensures { option_map (λ found. (found.0, found.1.now)) result
        ≡ unknown_in draft.now (statement_kept line.now) }
{
    match line {
        KeptLine::Phaser(_, phaser) => {
            if let Some(parent) = &phaser.parent {
                if let Some(unknown) = unknown_by(draft, OperandKind::Phaser, parent) {
                    return Some(unknown);
                }
            }
            match &phaser.policy {
                SymbolicPolicy::Routine(row) => unknown_by(draft, OperandKind::Target, row),
                _ => None,
            }
        }
        KeptLine::Barrier(_, barrier) => match &barrier.action {
            Some(row) => unknown_by(draft, OperandKind::Target, row),
            None => None,
        },
        KeptLine::Thread(_, thread) => unknown_by(draft, OperandKind::Target, &thread.first_row),
        KeptLine::Row(_, row) | KeptLine::LabelledRow(_, _, row) => unknown_in_row(draft, row),
        KeptLine::Cell(_, _) | KeptLine::Label(_, _) => None,
    }
}

/// Returns the fault `UnknownName` of a line that refers to an unknown name, with the place of the last word that is this
/// name: an earlier one may be the name that the line declares.
pub fn unknown(draft: &Draft<'_>, line: &KeptLine<'_>, text: &[u8]) -> PlacedFault
    ensures fault { result.fault ≡ record { line = number_kept line.now; kind = kinds.UnknownName } }
    ensures place { IsPlacedName draft.now (line_kept line.now) text.now result }
{
    let mut fault = PlacedFault {
        fault: AsmFault {
            line: line.number(),
            kind: AsmFaultKind::UnknownName,
        },
        at: None,
        unknown: None,
    };
    if let Some((wanted, name)) = unknown_name(draft, line) {
        let given = draft.place_named(name).map(|place| place.kind);
        fault.unknown = Some(UnknownName { wanted, given });
        if let Some(line) = line_at(text, line.number()) {
            fault.at = last_place_of(before_comment(line), name);
        }
    }
    fault
}
