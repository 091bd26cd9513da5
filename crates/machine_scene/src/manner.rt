ghost use Rattle.std.specs.Prelude.{◌≡◌};
ghost use Rattle.machine_scene.specs.Manner.{manner_of};

use instruction_table::{Reg, Row};

/// How an arrival is made: the register for its result, whether the party leaves (`arriveAndDeregister`), and whether it waits
/// for the end of the phase (`arriveAndAwaitAdvance`).
#[derive(Clone, Copy)]
pub struct Manner {
    pub into: Reg,
    pub leaves: bool,
    pub waits: bool,
}

/// Returns how a row arrives. At a row that isn't named here nobody arrives, and nobody uses the result.
#[inline(always)]
pub fn manner_of(row: Row) -> Manner
    ensures { result ≡ manner_of row }
{
    let (into, leaves, waits) = match row {
        Row::Parr { into, .. } => (into, false, false),
        Row::Pdereg { into, .. } => (into, true, false),
        Row::Paaa { into, .. } | Row::Cawait { into, .. } | Row::Cawaitt { into, .. } => (
            into, false, true,
        ),
        _ => (Reg::R0, false, false),
    };
    Manner {
        into,
        leaves,
        waits,
    }
}
