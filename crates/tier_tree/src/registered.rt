/// The result of a registration.
#[derive(Clone, Copy, PartialEq, Eq)]
pub enum Registered {
    /// The parties are registered. The number is that of the phase that they joined.
    At(i32),
    /// The tree is terminated. The number is its view.
    Dead(i32),
    /// A phaser that the registration would change is turned. The registration has to wait until the phase has ended.
    Held,
    /// A phaser that the registration would change would have more than 65535 parties.
    TooMany,
}
