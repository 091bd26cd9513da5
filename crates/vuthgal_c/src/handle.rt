//! What a caller holds of a session.
ghost use Rattle.std.specs.Prelude.{◌≡◌, Option, Some, None};
ghost use Rattle.std.specs.Option.{option_map};
ghost use Rattle.vuthgal_c.specs.Sessions.{Kept};

use crate::held::Held;
use crate::loose::Loose;
use std::alloc::Global;
use std::marker::Model;
use std::ptr::null_mut;

/// Nothing, or a session in a block of its own.
#[repr(C)]
pub struct Handle {
    at: *mut u8,
    /// 1 if it has a session, else 0.
    alive: u64,
    pub ghost session: { Option Kept },
}

impl Model for Handle {
    ghost use Rattle.vuthgal_c.specs.{Keep.keeps, contracts.held.Held.the_row};

    ghost also_owns = { λ h. keeps the_row h.at h.alive h.session };
}

impl Handle {
    /// Makes a handle that has no session.
    pub(crate) fn empty() -> Handle
        ensures { result.session ≡ None }
    {
        Handle {
            at: null_mut(),
            alive: 0,
        }
    }

    /// Makes the handle of the session in the block `loose`. The handle then owns the block.
    pub(crate) fn of(loose: Loose<Held, Global>) -> Handle
        ensures { result.session ≡ Some loose.value }
    {
        let Loose { at, alloc: _ } = loose;
        Handle {
            at: at as *mut u8,
            alive: 1,
        }
    }

    /// Returns the block of the session, or `None` if the handle has no session. It uses the handle up.
    pub(crate) fn into_loose(self, alloc: Global) -> Option<Loose<Held, Global>>
        ensures { option_map (λ l. l.value) result ≡ self.session }
    {
        let Handle { at, alive } = self;
        if alive == 0 {
            None
        } else {
            Some(Loose {
                at: at as *mut Held,
                alloc,
            })
        }
    }
}

// A handle is used by one thread at a time, and its session is plain data.
unsafe impl Send for Handle {}
