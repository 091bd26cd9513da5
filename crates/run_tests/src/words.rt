//! Words, which are packed states of phasers, bit by bit, and the calls on them.
use Answer::{At, Counted, Dead, Held, Is, NotThere, TooMany, Turned};
use Call::{Advance, Arrive, Force, Register, Renew, Vacate};
use packed_phaser::{Arrived, Registered, Word};
use phase_number::Phase;

/// A word; its view, parties, arrived and unarrived; terminated, empty, turned.
static WORDS: [(u64, (i32, u16, u16, u16), (bool, bool, bool)); 11] = [
    (0x0000000000000000, (0, 0, 0, 0), (false, false, true)),
    (0x0000000000000001, (0, 0, 0, 0), (false, true, false)),
    (0x0000000000020002, (0, 2, 0, 2), (false, false, false)),
    (0x0000000000020001, (0, 2, 1, 1), (false, false, false)),
    (0x0000000000020000, (0, 2, 2, 0), (false, false, true)),
    (0x0000000100000001, (1, 0, 0, 0), (false, true, false)),
    (0x0000000100020002, (1, 2, 0, 2), (false, false, false)),
    (
        0x8000000300020001,
        (-2147483645, 2, 2, 0),
        (true, false, false),
    ),
    (
        0x7fffffffffffffff,
        (2147483647, 65535, 0, 65535),
        (false, false, false),
    ),
    (
        0xffffffffffff0000,
        (-1, 65535, 65535, 0),
        (true, false, false),
    ),
    (
        0x8000000000000001,
        (-2147483648, 0, 0, 0),
        (true, false, false),
    ),
];

/// Bits of no word: more parties to arrive than there are.
static NO_WORDS: [u64; 6] = [
    0x2,
    0xffff,
    0x10002,
    0x20003,
    0x8000000000020003,
    0x80000000ffff,
];

/// Returns whether `bits` are a phaser's packed state with these counts (view, parties, arrived, unarrived) and these flags.
fn is_seen(bits: u64, counts: (i32, u16, u16, u16), flags: (bool, bool, bool)) -> bool {
    match Word::from_raw(bits) {
        Some(word) => {
            word.raw() == bits
                && counts
                    == (
                        word.phase_view(),
                        word.parties(),
                        word.arrived(),
                        word.unarrived(),
                    )
                && flags == (word.is_terminated(), word.is_empty(), word.is_turned())
        }
        None => false,
    }
}

/// Checks that each word has its counts and flags, and that no word has more parties to arrive than there are.
#[test]
fn words_and_their_meanings(rt: HostRuntime) {
    for (bits, counts, flags) in &WORDS {
        assert!(rt; is_seen(*bits, *counts, *flags), "{bits:x}");
    }
    for bits in &NO_WORDS {
        assert!(rt; Word::from_raw(*bits).is_none(), "{bits:x}");
    }
}

/// A phase, a number of parties, and the word at the start of that phase.
static FRESH: [(i32, u16, u64); 3] = [
    (0, 2, 0x0000000000020002),
    (4, 0, 0x0000000400000001),
    (2147483647, 65535, 0x7fffffffffffffff),
];

/// Checks that no party has arrived at the beginning of a phase, and that without parties the word is `empty`.
#[test]
fn phases_begin(rt: HostRuntime) {
    for (phase, parties, bits) in &FRESH {
        let word = Word::fresh(Phase::prevailing(*phase), *parties);
        assert!(rt; word.raw() == *bits, "{parties} in phase {phase}");
    }
}

/// A call on a word.
#[derive(Clone, Copy)]
enum Call {
    /// The move to the start of this phase.
    Renew(i32),
    /// The end of the phase. If true, it terminates the phaser.
    Advance(bool),
    /// A turned phaser without parties becomes empty. It stays in its phase.
    Vacate,
    Force,
    /// The arrival of a party. If true, it leaves.
    Arrive(bool),
    Register(u32),
}

/// What a call returns, with the bits of the word after it.
#[derive(Clone, Copy, PartialEq, Eq)]
enum Answer {
    Is(u64),
    Counted(u64),
    Turned(u64),
    /// The parties are registered, in this phase.
    At(u64, i32),
    /// The phaser is terminated, and has this view.
    Dead(i32),
    NotThere,
    TooMany,
    Held,
}

/// Registering 0 parties keeps the word, even while the phase is ending. `TooMany` comes before `Held`, which is the wait for
/// the phase's end.
static CALLS: [(u64, Call, Answer); 41] = [
    (0x900000000, Renew(10), Is(0xa00000001)),
    (0x900030001, Renew(10), Is(0xa00030003)),
    (0x900000001, Renew(0), Is(0x1)),
    (0x8000000900030001, Renew(9), Is(0x900030003)),
    (0x20000, Advance(false), Is(0x100020002)),
    (0x20000, Advance(true), Is(0x8000000100020000)),
    (0x7fffffff00010000, Advance(false), Is(0x10001)),
    (0x0, Advance(false), Is(0x100000001)),
    (0x0, Advance(true), Is(0x8000000100000000)),
    (0x900000000, Vacate, Is(0x900000001)),
    (0x300020001, Force, Is(0x8000000300020001)),
    (0x8000000300020001, Force, Is(0x8000000300020001)),
    (0x20002, Arrive(false), Counted(0x20001)),
    (0x20002, Arrive(true), Counted(0x10001)),
    (
        0x7fffffffffffffff,
        Arrive(false),
        Counted(0x7ffffffffffffffe),
    ),
    (0x20001, Arrive(false), Turned(0x20000)),
    (0x20001, Arrive(true), Turned(0x10000)),
    (0x10001, Arrive(true), Turned(0x0)),
    (0x1, Arrive(false), NotThere),
    (0x1, Arrive(true), NotThere),
    (0x0, Arrive(false), NotThere),
    (0x20000, Arrive(false), NotThere),
    (0x20000, Arrive(true), NotThere),
    (0x8000000300020001, Arrive(false), Dead(-2147483645)),
    (0x8000000300020001, Arrive(true), Dead(-2147483645)),
    (0x1, Register(0), At(0x1, 0)),
    (0x500020000, Register(0), At(0x500020000, 5)),
    (0x1, Register(1), At(0x10001, 0)),
    (0x1, Register(65535), At(0xffffffff, 0)),
    (0x700020001, Register(3), At(0x700050004, 7)),
    (0x10001, Register(65534), At(0xffffffff, 0)),
    (0xffffffff, Register(1), TooMany),
    (0x10001, Register(65535), TooMany),
    (0x10001, Register(4294967295), TooMany),
    (0x10000, Register(65535), TooMany),
    (0x0, Register(65536), TooMany),
    (0x10000, Register(1), Held),
    (0x0, Register(65535), Held),
    (0x8000000300020001, Register(0), Dead(-2147483645)),
    (0x8000000300020001, Register(1), Dead(-2147483645)),
    (0x8000000300020001, Register(65536), Dead(-2147483645)),
];

/// Returns an arrival's result with the bits of its word.
fn arrival(arrived: Arrived) -> Answer {
    match arrived {
        Arrived::Counted(word) => Counted(word.raw()),
        Arrived::Turned(word) => Turned(word.raw()),
        Arrived::Dead(view) => Dead(view),
        Arrived::NotThere => NotThere,
    }
}

/// Returns a registration's result with the bits of its word.
fn registration(registered: Registered) -> Answer {
    match registered {
        Registered::At(word, phase) => At(word.raw(), phase),
        Registered::Dead(view) => Dead(view),
        Registered::TooMany => TooMany,
        Registered::Held => Held,
    }
}

/// Returns what `call` returns. `None`: its contract forbids it. `advance` and `vacate` need a turned word, and `vacate` needs
/// one without parties.
fn answer_of(word: Word, call: Call) -> Option<Answer> {
    match call {
        Renew(phase) => Some(Is(word.renew(Phase::prevailing(phase)).raw())),
        Advance(ends) if word.is_turned() => Some(Is(word.advance(ends).raw())),
        Vacate if word.is_turned() && word.parties() == 0 => Some(Is(word.vacate().raw())),
        Advance(_) | Vacate => None,
        Force => Some(Is(word.force().raw())),
        Arrive(leave) => Some(arrival(word.arrive(leave))),
        Register(count) => Some(registration(word.register(count))),
    }
}

/// Checks that each call returns the result of its row, with the bits of the word after it.
#[test]
fn calls_on_words(rt: HostRuntime) {
    for (number, (bits, call, wanted)) in CALLS.iter().enumerate() {
        let answered = match Word::from_raw(*bits) {
            Some(word) => answer_of(word, *call),
            None => None,
        };
        assert!(rt; answered == Some(*wanted), "{number}");
    }
}
