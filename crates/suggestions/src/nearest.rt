//! The nearest of several names, by how many letters differ. If too many do, a name isn't near at all.

ghost use Rattle.std.specs.Prelude.{◌≡◌, ◌⊎◌, ◌<◌, IfOk, Some};

use std::alloc::{AllocError, Global};
use strsim::osa_distance;

/// In how many letters two names differ at least if neither is near to the other.
const FAR: usize = 3;

/// Returns how many letters of two names differ: changed, left out, added, or swapped with a neighbour. Large and small letters
/// count as equal. Returns `usize::MAX` if a name isn't UTF-8, or if the lengths differ by `FAR` or more.
fn distance(alloc: Global, a: &[u8], b: &[u8]) -> Result<usize, AllocError> {
    if a.len().abs_diff(b.len()) >= FAR {
        return Ok(usize::MAX);
    }
    let a = a.to_ascii_lowercase(alloc)?;
    let b = b.to_ascii_lowercase(alloc)?;
    match (str::from_utf8(a.as_slice()), str::from_utf8(b.as_slice())) {
        (Ok(a), Ok(b)) => osa_distance(alloc, a, b),
        _ => Ok(usize::MAX),
    }
}

/// What the nearest name so far means, and how far the name is.
#[derive(Clone, Copy)]
pub struct Nearest<'a> {
    pub meant: Option<&'a [u8]>,
    pub far: usize,
}

impl<'a> Nearest<'a> {
    /// Begins a search for the name nearest to a word: none is found yet. A name is near if fewer than `far` letters are wrong:
    /// one at most in two to four letters, two in more.
    pub fn to(word: &[u8]) -> Nearest<'a> {
        Nearest {
            meant: None,
            far: word.len().div_ceil(2).min(FAR).max(word.len().min(2)),
        }
    }

    /// Returns `meant`, which `name` stands for, if `name` is nearer to the word than any name so far. Else returns `self`.
    pub fn or(
        self,
        alloc: Global,
        name: &[u8],
        meant: &'a [u8],
        word: &[u8],
    ) -> Result<Nearest<'a>, AllocError>
        ensures nearer { IfOk result (λ found. (found ≡ self.entry)
            ⊎ ((found.meant ≡ Some meant.entry) × (found.far < self.entry.far))) }
    {
        let far = distance(alloc, name, word)?;
        if far < self.far {
            Ok(Nearest {
                meant: Some(meant),
                far,
            })
        } else {
            Ok(self)
        }
    }
}

/// The most letters of a short word. A short word is near to a name only if no other name is equally near.
pub const SHORT: usize = 3;

/// Returns the nearest of these names; its `meant` is None if no name is near. For a word of up to three letters it is None,
/// too, if two names are equally near.
pub fn nearest_of<'a>(
    alloc: Global,
    names: &[&'a [u8]],
    word: &[u8],
) -> Result<Nearest<'a>, AllocError> {
    let mut meant: Option<&'a [u8]> = None;
    let mut least = Nearest::to(word).far;
    for name in names.iter() {
        let far = distance(alloc, *name, word)?;
        if far < least {
            meant = Some(*name);
            least = far;
        } else if far == least && word.len() <= SHORT {
            meant = None;
        }
    }
    Ok(Nearest { meant, far: least })
}
