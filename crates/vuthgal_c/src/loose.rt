//! A box as its pointer. Only the proofs of its two functions follow the pointer.
ghost use Rattle.std.specs.{Prelude.◌≡◌, Box.Ownership.box_owns};

use std::alloc::Allocator;
use std::marker::Model;

/// The pointer of a box, which owns what the box owned.
pub(crate) struct Loose<T, A: Allocator> {
    pub(crate) at: *mut T,
    pub(crate) alloc: A,
    pub(crate) ghost value: { T },
}

impl<T, A: Allocator> Model for Loose<T, A> {
    ghost also_owns = { λ l. box_owns (A.dealloc_token l.alloc) T.row l.at l.value };
}

impl<T: Drop, A: Allocator> Loose<T, A> {
    /// Turns a box into its pointer. The memory isn't freed: `into_box` gives the box back.
    pub(crate) fn of(value: Box<T, A>) -> Loose<T, A>
        ensures { result.value ≡ value.value }
    {
        let (at, alloc) = Box::into_raw_with_allocator(value);
        Loose { at, alloc }
    }

    /// Turns the pointer back into the box from which `of` took it.
    pub(crate) fn into_box(self) -> Box<T, A>
        ensures { result.value ≡ self.value }
    {
        let Loose { at, alloc } = self;
        unsafe { Box::from_raw(alloc, at) }
    }
}
