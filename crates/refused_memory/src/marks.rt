//! What a trial tells the library that refuses memory: requests of sizes that nothing else asks for, which the library answers
//! itself (`tests/memory/refuse.c`). Without the library each is an ordinary request for memory, and succeeds.

use std::alloc::Global;

/// A request of this size plus n: refuse the nth request, counted from 1.
const REFUSE_ONE: usize = 7_000_000;

/// A request of this size plus n: refuse the nth request and all that follow.
const REFUSE_ALL: usize = 7_100_000;

/// Refuse nothing more. This request is refused if a request was refused since the last `REFUSE_ONE` or `REFUSE_ALL`.
const END: usize = 7_200_000;

/// Note how many blocks of memory are in use.
const COUNT: usize = 7_200_001;

/// This request is refused if more or fewer blocks are in use than at the last `COUNT`.
const COMPARE: usize = 7_200_002;

/// Requests a block of `size` bytes, which only tells the library something. Returns whether the library refuses it.
fn is_refused(alloc: Global, size: usize) -> bool {
    Vec::<u8>::with_capacity(alloc, size).is_err()
}

/// Has the library refuse the request for memory number `request` from now on, with `all` also all later ones. The answer to
/// this request itself says nothing.
pub fn begin(alloc: Global, request: u16, all: bool) {
    let mark = if all { REFUSE_ALL } else { REFUSE_ONE };
    let _ = is_refused(alloc, mark + usize::from(request));
}

/// Has the library refuse nothing more. Returns whether it has refused a request since `begin`.
pub fn end(alloc: Global) -> bool {
    is_refused(alloc, END)
}

/// Has the library note how many blocks of memory are in use, for `is_left_over`. The answer to this request says nothing.
pub fn count(alloc: Global) {
    let _ = is_refused(alloc, COUNT);
}

/// Returns whether more or fewer blocks of memory are in use than at the last `count`: a leak, or a block freed too often.
pub fn is_left_over(alloc: Global) -> bool {
    is_refused(alloc, COMPARE)
}
