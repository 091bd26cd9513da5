//! What this program was made of. `bin/program` writes this.

/// The version, and the sum of the sources but for this file.
pub const VERSION: &str =
    "2.0.0\nsources 0dcc13ab491071150e890d12916bb60221136b34a35549cb7b8983c04d6bf21d";
