//! A session in a handle. A call takes the session out of its handle, uses it, and puts it back.
ghost use Rattle.std.specs.Prelude.{◌≡◌, Some, None};
ghost use Rattle.std.specs.Option.{MatchOption};

use crate::handle::Handle;
use crate::held::Held;
use crate::loose::Loose;
use std::alloc::Global;
use std::mem::replace;

/// Returns the session of a handle, which is used up. Returns `None` if the handle has none.
fn into_box(handle: Handle, alloc: Global) -> Option<Box<Held>>
    ensures { MatchOption result (handle.session ≡ None) (λ b. handle.session ≡ Some b.value) }
{
    match handle.into_loose(alloc) {
        Some(loose) => Some(loose.into_box()),
        None => None,
    }
}

/// Puts a session into a handle. `let _` drops the session that was there, if there was one.
pub fn put(alloc: Global, handle: &mut Handle, held: Box<Held>)
    ensures { handle.new.session ≡ Some held.value }
{
    let _ = into_box(replace(handle, Handle::of(Loose::of(held))), alloc);
}

/// Takes the session out of a handle, which has none afterwards. Returns `None` if it had none.
pub fn take(alloc: Global, handle: &mut Handle) -> Option<Box<Held>>
    ensures empty { handle.new.session ≡ None }
    ensures taken { MatchOption result (handle.old.session ≡ None) (λ b. handle.old.session ≡ Some b.value) }
{
    into_box(replace(handle, Handle::empty()), alloc)
}
