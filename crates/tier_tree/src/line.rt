//! The line of a phaser: the phasers from it up to its root.
ghost use Rattle.std.specs.Prelude.{◌≡◌, ◌-◌, ◌<◌, [], ◌∷◌, length, slice_index_or};

use std::marker::Model;

/// The most phasers from one up to its root.
pub const MOST_LEVELS: usize = 8;

/// The numbers of a phaser, its parent, its parent's parent and so on up to its root.
#[derive(Drop)]
pub struct Line {
    ids: [u8; MOST_LEVELS],
    len: u8,
}

impl Model for Line {
    ghost use Rattle.std.specs.Prelude.{ℕ, ◌≤◌, ◌<◌, List, take};

    ghost Value = { List ℕ };

    ghost view = { λ line. take line.len line.ids };

    ghost invariant = { λ line. (0 < line.len) × (line.len ≤ 8) };
}

impl Line {
    /// Returns the line of a root: only its own number.
    pub fn of_root(id: u8) -> Line
        ensures { result ≡ id ∷ [] }
    {
        Line {
            ids: [id, 0, 0, 0, 0, 0, 0, 0],
            len: 1,
        }
    }

    /// Returns an equal line.
    pub fn copy(&self) -> Line
        ensures { result ≡ self.now }
    {
        Line {
            ids: self.ids,
            len: self.len,
        }
    }

    /// Returns the numbers of the phasers, from this one up to its root.
    pub fn as_slice(&self) -> &[u8]
        ensures { result.now ≡ self.now }
    {
        &self.ids[..self.len as usize]
    }

    /// Returns how many phasers the line has: 1 for a root, and at most 8.
    pub fn len(&self) -> usize
        ensures { result ≡ length self.now }
    {
        self.len as usize
    }

    /// Returns the number of the root.
    pub fn root(&self) -> u8
        ensures { result ≡ slice_index_or self.now (length self.now - 1) 0 }
    {
        self.ids[self.len as usize - 1]
    }

    /// Returns the line of a child of this line's phaser. `id` is the child's number.
    pub fn of_child(&self, id: u8) -> Line
        requires { length self.now < 8 }
        ensures { result ≡ id ∷ self.now }
    {
        let ids = self.ids;
        Line {
            ids: [id, ids[0], ids[1], ids[2], ids[3], ids[4], ids[5], ids[6]],
            len: self.len + 1,
        }
    }
}
