//! The call at which a port in memory is to fail, counted from 0 for the next call.
ghost use Rattle.std.specs.Prelude.{◌≡◌};
ghost use Rattle.byte_ports.specs.FailAt.{is_due, one_nearer};

/// Returns whether the next call is the one that is to fail.
pub(crate) fn is_next_call(fail_at: Option<u32>) -> bool
    ensures { result ≡ is_due fail_at }
{
    fail_at == Some(0)
}

/// Returns which call is to fail, counted from the call after this one, which didn't fail. `None` means no call.
pub(crate) fn after_a_call(fail_at: Option<u32>) -> Option<u32>
    ensures { result ≡ one_nearer fail_at }
{
    match fail_at {
        Some(calls) => Some(calls.saturating_sub(1)),
        None => None,
    }
}
