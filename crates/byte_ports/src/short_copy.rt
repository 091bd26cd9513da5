//! Copies short pieces of bytes without a call.
ghost use Rattle.std.specs.Prelude.{◌≡◌, ◌+◌, ◌≤◌, length};

/// Copies N to 2 N bytes by two moves of N bytes: the first ones and the last ones. The two may overlap.
#[inline(always)]
#[tactic(auto, using(crate::proofs::ShortCopies::both_ends))]
fn copy_ends<const N: usize>(from: &[u8], to: &mut [u8])
    requires same { length to.old ≡ length from.now }
    requires many { N ≤ length from.now }
    requires few { length from.now ≤ N + N }
    ensures { to.new ≡ from.now }
{
    let (Some((first, _)), Some((_, last))) = (
        from.split_first_chunk::<N>(),
        from.split_last_chunk::<N>(),
    ) else {
        unreachable!()
    };
    let behind = to.len() - N;
    let first = *first;
    to[..N].copy_from_slice(&first);
    let last = *last;
    to[behind..].copy_from_slice(&last);
}

/// Copies `from` over `to`, which has the same length. For 8 to 32 bytes, as in most lines of a trace, it needs no call.
#[inline(always)]
pub(super) fn copy_short(from: &[u8], to: &mut [u8])
    requires { length to.old ≡ length from.now }
    ensures { to.new ≡ from.now }
{
    match from.len() {
        8..16 => copy_ends::<8>(from, to),
        16..=32 => copy_ends::<16>(from, to),
        _ => to.copy_from_slice(from),
    }
}
