//! What a line declares, with numbers in place of names. Each function returns `None` if a name isn't known.
ghost use Rattle.std.specs.Prelude.{◌≡◌, ◌<◌, [], ◌∷◌, if◌then◌else◌, option_map, IfSome, Some, None};
ghost use Rattle.std.specs.List.{list_all};
ghost use Rattle.instruction_table.specs.declared.shape.OperandKind.TheVariants as kind;
ghost use Rattle.row_code.specs.Phasers.{IsPhaser};
ghost use Rattle.line_reader.specs.declared.statement.Statement.TheVariants as statement;
ghost use Rattle.assembler.specs.Meaning.{are_known, barrier_of, is_known_or_none, is_operand_known, is_policy_known, referent_or_0, operands_of, phaser_of, policy_of, row_of, thread_of, with_operand};
ghost use Rattle.line_reader.specs.{Symbols.operands_in, KeptRow.operand_kept, KeptRow.row_kept};
ghost use Rattle.line_reader.specs.Seen.{barrier_seen, phaser_seen, policy_seen, reference_seen, thread_seen};

use crate::draft::Draft;
use instruction_table::{OperandKind, Reg, Row};
use line_reader::kept_row::{Held, KeptOperand, KeptRow};
use line_reader::reference::Reference;
use line_reader::symbolic_barrier::SymbolicBarrier;
use line_reader::symbolic_phaser::{SymbolicPhaser, SymbolicPolicy};
use line_reader::symbolic_thread::SymbolicThread;
use row_code::{
    DeclaredBarrier, DeclaredPhaser, DeclaredPolicy, DeclaredThread, Operands, row_with,
};

/// Returns the number of a phaser's parent, or `Some(None)` if it has no parent. `None`: the parent's name is unknown.
fn parent_of<'a>(draft: &Draft<'a>, parent: &Option<Reference<&'a [u8]>>) -> Option<Option<u8>>
    requires { let parent = option_map reference_seen parent.now in
        IfSome (option_map (referent_or_0 draft.now kind.Phaser) parent) (λ n. n < 64) }
    ensures { let parent = option_map reference_seen parent.now in
        result ≡ (if is_known_or_none draft.now kind.Phaser parent
        then Some (option_map (referent_or_0 draft.now kind.Phaser) parent) else None) }
{
    match parent {
        None => Some(None),
        Some(reference) => {
            let number = draft.referent(OperandKind::Phaser, reference)?;
            Some(Some(number as u8))
        }
    }
}

/// Returns the policy of a phaser, with the number of its routine's row. `None`: the routine's name is unknown.
fn policy_of<'a>(draft: &Draft<'a>, policy: &SymbolicPolicy<&'a [u8]>) -> Option<DeclaredPolicy>
    ensures { result ≡ (if is_policy_known draft.now (policy_seen policy.now)
        then Some (policy_of draft.now (policy_seen policy.now)) else None) }
{
    match policy {
        SymbolicPolicy::Default => Some(DeclaredPolicy::Default),
        SymbolicPolicy::Never => Some(DeclaredPolicy::Never),
        SymbolicPolicy::Until(phase) => Some(DeclaredPolicy::Until(*phase)),
        SymbolicPolicy::Routine(row) => {
            let row = draft.referent(OperandKind::Target, row)?;
            Some(DeclaredPolicy::Routine(row))
        }
    }
}

/// Returns the phaser that a line declares, with numbers in place of names. `None`: one of the names is unknown.
pub fn phaser_of<'a>(draft: &Draft<'a>, phaser: &SymbolicPhaser<&'a [u8]>) -> Option<DeclaredPhaser>
    requires { IsPhaser (phaser_of draft.now (phaser_seen phaser.now)) }
    ensures { result ≡ (if are_known draft.now (statement.Phaser (phaser_seen phaser.now))
        then Some (phaser_of draft.now (phaser_seen phaser.now)) else None) }
{
    let parent = parent_of(draft, &phaser.parent)?;
    let policy = policy_of(draft, &phaser.policy)?;
    Some(DeclaredPhaser {
        parent,
        policy,
        parties: phaser.parties,
        first_phase: phaser.first_phase,
    })
}

/// Returns the barrier that a line declares, with the number of its action's row. `None`: the action's name is unknown.
pub fn barrier_of<'a>(
    draft: &Draft<'a>,
    barrier: &SymbolicBarrier<&'a [u8]>,
) -> Option<DeclaredBarrier>
    ensures { result ≡ (if are_known draft.now (statement.Barrier (barrier_seen barrier.now))
        then Some (barrier_of draft.now (barrier_seen barrier.now)) else None) }
{
    let action = match &barrier.action {
        None => None,
        Some(row) => Some(draft.referent(OperandKind::Target, row)?),
    };
    Some(DeclaredBarrier {
        parties: barrier.parties,
        action,
    })
}

/// Returns the thread that a line declares, with the number of its first row. `None`: the row's name is unknown.
pub fn thread_of<'a>(draft: &Draft<'a>, thread: &SymbolicThread<&'a [u8]>) -> Option<DeclaredThread>
    ensures { result ≡ (if are_known draft.now (statement.Thread (thread_seen thread.now))
        then Some (thread_of draft.now (thread_seen thread.now)) else None) }
{
    let first_row = draft.referent(OperandKind::Target, &thread.first_row)?;
    Some(DeclaredThread { first_row })
}

/// Returns `operands` with `operand` before them. A register becomes `a`, and those in `a` and `b` become `b` and `c`. Any
/// other operand goes to its field: a name as the number of what it names. `None`: the operand is an unknown name.
#[inline(always)]
fn with_operand<'a>(
    draft: &Draft<'a>,
    held: &Held<'a>,
    operand: KeptOperand,
    operands: Operands,
) -> Option<Operands>
    ensures { result ≡ (if is_operand_known draft.now (operand_kept held.now operand)
        then Some (with_operand draft.now (operand_kept held.now operand) operands) else None) }
{
    match operand {
        KeptOperand::Absent => Some(operands),
        KeptOperand::Register(reg) => Some(Operands {
            a: reg,
            b: operands.a,
            c: operands.b,
            ..operands
        }),
        KeptOperand::Number => Some(Operands {
            number: held.number,
            ..operands
        }),
        KeptOperand::Numbered(_) => Some(Operands {
            object: held.object,
            ..operands
        }),
        KeptOperand::Named(kind) => {
            let object = draft.number_named(kind, held.name)?;
            Some(Operands { object, ..operands })
        }
    }
}

/// Returns the operands of a row's last two places, which most rows don't have: then they are R0 or 0. `None`: an unknown name.
#[inline(always)]
fn last_operands<'a>(draft: &Draft<'a>, row: &KeptRow<'a>) -> Option<Operands>
    ensures { let last = operand_kept row.now.held row.now.third
        ∷ operand_kept row.now.held row.now.fourth ∷ [] in
        result ≡ (if list_all (is_operand_known draft.now) last
        then Some (operands_of draft.now last) else None) }
{
    let none = Operands {
        a: Reg::R0,
        b: Reg::R0,
        c: Reg::R0,
        number: 0,
        object: 0,
    };
    if let (KeptOperand::Absent, KeptOperand::Absent) = (row.third, row.fourth) {
        return Some(none);
    }
    let operands = with_operand(draft, &row.held, row.fourth, none)?;
    with_operand(draft, &row.held, row.third, operands)
}

/// Returns the row of a line, or `None` if it has an unknown name. It adds operands from right to left, because each register
/// shifts those after it.
#[inline(always)]
pub fn row_of<'a>(draft: &Draft<'a>, row: &KeptRow<'a>) -> Option<Row>
    ensures { result
        ≡ (if list_all (is_operand_known draft.now) (operands_in (row_kept row.now))
        then Some (row_of draft.now (row_kept row.now)) else None) }
{
    let operands = last_operands(draft, row)?;
    let operands = with_operand(draft, &row.held, row.second, operands)?;
    let operands = with_operand(draft, &row.held, row.first, operands)?;
    Some(row_with(row.held.opcode, operands))
}
