//! What this library was made of. `bin/program` writes this.

/// The version, and the sum of the sources but for this file.
pub const VERSION: &str =
    "2.0.0\nsources 38406cb70f16c78b88998398b7cea326ed75fc0d9206d66cb18bd1c94de018e9\n";

/// The version as a number.
pub const NUMBER: u32 = 20000;
