/// The number of a phaser in its forest, from 0 in the order of declaration.
#[derive(Clone, Copy, PartialEq, Eq)]
pub struct PhaserId(pub u8);
