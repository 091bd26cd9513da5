//! What came to a sink. Only proofs read it.
ghost use Rattle.std.specs.Prelude.{◌≡◌, ◌++◌, ℕ, List, []};
ghost use Rattle.std.specs.Borrow.{ftrue};

use std::marker::Model;

/// All bytes that came. It needs no memory, and its methods do nothing when they run.
#[derive(Drop)]
pub struct Came {
    pub ghost bytes: { List ℕ },
}

impl Model for Came {
    ghost also_owns = { λ _. ftrue };
}

impl Came {
    /// Returns what has come to a new sink: no bytes. Only proofs see the bytes, so the value is empty when it runs.
    pub fn none() -> Came
        ensures { result.bytes ≡ [] }
    {
        Came {}
    }

    /// Returns what has come so far, followed by these bytes. Only proofs see the bytes, so this does nothing when it runs.
    pub fn and(&self, bytes: &[u8]) -> Came
        ensures { result.bytes ≡ self.now.bytes ++ bytes.now }
    {
        Came {}
    }
}
