use crate::id::PhaserId;

/// The result of an arrival.
#[derive(Clone, Copy, PartialEq, Eq)]
pub enum Arrived {
    /// Others are still to arrive. The number is that of the phase in which the arrival was counted.
    At(i32),
    /// The arrival was the last of the tree, and `root` is turned. `phase` is the number of the phase that is to end, and
    /// `parties` are those registered with the root.
    Turning {
        root: PhaserId,
        phase: i32,
        parties: u16,
    },
    /// The tree is terminated. The number is its view.
    Dead(i32),
    /// No party is left that could arrive at the phaser, or at a parent that the arrival would reach.
    NotThere,
}
