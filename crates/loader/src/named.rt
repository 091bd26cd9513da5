ghost use Rattle.std.specs.Prelude.{◌≡◌};
ghost use Rattle.loader.specs.Named.{named_by, stops};

use instruction_table::Row;

/// The one object that a row names besides registers and numbers, by its number.
#[derive(Clone, Copy)]
pub enum Named {
    Nothing,
    /// A row to go to.
    Target(u16),
    Cell(u16),
    Thread(u16),
    Phaser(u16),
    Barrier(u16),
}

/// Returns what the row names besides registers and numbers, or `Nothing`.
pub fn named_by(row: Row) -> Named
    ensures { result ≡ named_by row }
{
    match row {
        Row::Jmp { target } => Named::Target(target),
        Row::Beq { target, .. } => Named::Target(target),
        Row::Bne { target, .. } => Named::Target(target),
        Row::Blt { target, .. } => Named::Target(target),
        Row::Call { target } => Named::Target(target),
        Row::Try { handler } => Named::Target(handler),
        Row::Lds { cell, .. } => Named::Cell(cell),
        Row::Sts { cell, .. } => Named::Cell(cell),
        Row::Intr { thread } => Named::Thread(thread),
        Row::Preg { phaser, .. } => Named::Phaser(phaser),
        Row::Pbulk { phaser, .. } => Named::Phaser(phaser),
        Row::Parr { phaser, .. } => Named::Phaser(phaser),
        Row::Pdereg { phaser, .. } => Named::Phaser(phaser),
        Row::Paaa { phaser, .. } => Named::Phaser(phaser),
        Row::Pawait { phaser, .. } => Named::Phaser(phaser),
        Row::Pawaiti { phaser, .. } => Named::Phaser(phaser),
        Row::Pforce { phaser } => Named::Phaser(phaser),
        Row::Pphase { phaser, .. } => Named::Phaser(phaser),
        Row::Pparties { phaser, .. } => Named::Phaser(phaser),
        Row::Parrived { phaser, .. } => Named::Phaser(phaser),
        Row::Punarr { phaser, .. } => Named::Phaser(phaser),
        Row::Pterm { phaser, .. } => Named::Phaser(phaser),
        Row::Pparent { phaser, .. } => Named::Phaser(phaser),
        Row::Proot { phaser, .. } => Named::Phaser(phaser),
        Row::Cawait { barrier, .. } => Named::Barrier(barrier),
        Row::Creset { barrier } => Named::Barrier(barrier),
        Row::Cbroken { barrier, .. } => Named::Barrier(barrier),
        Row::Cwaiting { barrier, .. } => Named::Barrier(barrier),
        Row::Cparties { barrier, .. } => Named::Barrier(barrier),
        Row::Pawaitt { phaser, .. } => Named::Phaser(phaser),
        Row::Cawaitt { barrier, .. } => Named::Barrier(barrier),
        Row::Halt
        | Row::Ldi { .. }
        | Row::Mov { .. }
        | Row::Add { .. }
        | Row::Sub { .. }
        | Row::Ret
        | Row::Endtry
        | Row::Throw { .. }
        | Row::Out { .. }
        | Row::SelfNumber { .. }
        | Row::Intrd { .. } => Named::Nothing,
    }
}

/// Returns whether no thread goes from the row to the next one: at `halt`, `jmp`, `ret` and `throw`.
pub fn stops(row: Row) -> bool
    ensures { result ≡ stops row }
{
    matches!(
        row,
        Row::Halt | Row::Jmp { .. } | Row::Ret | Row::Throw { .. }
    )
}
