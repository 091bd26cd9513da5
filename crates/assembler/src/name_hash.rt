ghost use Rattle.std.proofs.Common.{◌≡◌, [], ◌∷◌, bytes_eq, rules};
ghost use Rattle.std.specs.{Cmp.Rules.comparing, Cmp.Rules.hashing, Hash.DefaultHasher.initial, Hash.DefaultHasher.write};

use std::hash::{BuildHasher, DefaultHasher, Hash, Hasher};

/// Hashes each name together with the whole text that it is in. A map of names with a fixed hash is slow for a text whose
/// labels were chosen to collide in it. Here a changed label changes the text, and so the hash of each name. Nobody can tell
/// which names collide before the text is written.
#[derive(Clone, Copy)]
pub struct NameHash {
    behind_text: DefaultHasher,
}

impl NameHash {
    /// Returns the hash for the names of this text. It takes in the whole text first: so nobody can choose names that collide.
    pub fn new(text: &[u8]) -> NameHash
        ensures { result.behind_text ≡ write initial text.now }
    {
        let mut behind_text = DefaultHasher::new();
        behind_text.write(text);
        NameHash { behind_text }
    }
}

impl BuildHasher for NameHash {
    type Hasher = DefaultHasher;

    ghost build_hasher = { λ hash. hash.behind_text };

    /// Returns a hasher that has read the text, and is to read a name.
    fn build_hasher(&self) -> DefaultHasher {
        self.behind_text
    }
}

/// A name in the map of names. Its bytes are hashed in one piece.
#[derive(Clone, Copy)]
pub struct NameKey<'a> {
    pub bytes: &'a [u8],
}

impl<'a> PartialEq for NameKey<'a> {
    ghost eq = { λ a b. bytes_eq a.bytes.now b.bytes.now };

    ghost laws = { Prim.search (comparing, rules) };

    /// Returns whether the two names have the same bytes.
    fn eq(&self, other: &NameKey<'a>) -> bool {
        self.bytes == other.bytes
    }
}

impl<'a> Eq for NameKey<'a> {
    ghost laws = { Prim.search (comparing, rules) };
}

impl<'a> Hash for NameKey<'a> {
    ghost hash_input = { λ name. name.bytes.now ∷ [] };

    ghost respects_eq = { Prim.search (hashing, rules) };

    /// Gives the name's bytes to the hasher.
    fn hash<H: Hasher>(&self, state: &mut H) {
        state.write(self.bytes);
    }
}
