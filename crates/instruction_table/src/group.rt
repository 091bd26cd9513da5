ghost use Rattle.std.specs.Prelude.{◌≡◌};
ghost use Rattle.instruction_table.specs.Group.{group_of};

use crate::row::Row;

/// What a row acts on.
#[derive(Clone, Copy)]
pub enum Group {
    /// Its own thread's registers and the number of that thread's next row. `halt` is here, too.
    Own,
    /// Its own thread's stack.
    Calls,
    /// Outputs, cells, interrupted statuses.
    Data,
    /// A phaser: the row registers, arrives, waits or terminates there.
    Phasers,
    /// A phaser, which the row reads.
    Getters,
    /// A barrier.
    Barriers,
}

/// Returns the row's group: what it acts on.
pub fn group_of(row: Row) -> Group
    ensures { result ≡ group_of row }
{
    match row {
        Row::Halt
        | Row::Ldi { .. }
        | Row::Mov { .. }
        | Row::Add { .. }
        | Row::Sub { .. }
        | Row::Jmp { .. }
        | Row::Beq { .. }
        | Row::Bne { .. }
        | Row::Blt { .. } => Group::Own,
        Row::Call { .. } | Row::Ret | Row::Try { .. } | Row::Endtry | Row::Throw { .. } =>
            Group::Calls,
        Row::Out { .. }
        | Row::Lds { .. }
        | Row::Sts { .. }
        | Row::SelfNumber { .. }
        | Row::Intr { .. }
        | Row::Intrd { .. } => Group::Data,
        Row::Preg { .. }
        | Row::Pbulk { .. }
        | Row::Parr { .. }
        | Row::Pdereg { .. }
        | Row::Paaa { .. }
        | Row::Pawait { .. }
        | Row::Pawaiti { .. }
        | Row::Pawaitt { .. }
        | Row::Pforce { .. } => Group::Phasers,
        Row::Pphase { .. }
        | Row::Pparties { .. }
        | Row::Parrived { .. }
        | Row::Punarr { .. }
        | Row::Pterm { .. }
        | Row::Pparent { .. }
        | Row::Proot { .. } => Group::Getters,
        Row::Cawait { .. }
        | Row::Cawaitt { .. }
        | Row::Creset { .. }
        | Row::Cbroken { .. }
        | Row::Cwaiting { .. }
        | Row::Cparties { .. } => Group::Barriers,
    }
}
