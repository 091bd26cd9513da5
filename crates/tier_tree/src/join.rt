//! How parties register with a phaser. A phaser that was empty registers one party with its parent, and so on up.
ghost use Rattle.std.specs.Prelude.{◌≡◌, ◌+◌, ◌<◌, [], ◌∷◌, length, All, nat_lt};
ghost use Rattle.std.specs.List.{list_any};
ghost use Rattle.packed_phaser.specs.{Flat.register, Word.record_of};
ghost use Rattle.tier_tree.specs.{Forest.flat_at, Forest.with_flat, Answer.DoesntJoin};
ghost use Rattle.tier_tree.specs.Registration.{joins_along, is_overfull, is_turned, joined, flat_by, registration, after_registration};
ghost use Rattle.tier_tree.specs.Stored.{IsStored, ChangedOnly, ChangedAt, phasers_of};

use crate::node::Node;
use crate::present::{line_at, set_word, word_at};
use crate::registered::Registered;
use packed_phaser::Word;

/// Returns whether a phaser with this word would have more than 65535 parties after `count` more.
fn is_full_for(word: Word, count: u32) -> bool
    ensures { result ≡ nat_lt 65535 ((record_of word).parties + count) }
{
    count > 65535 - word.parties() as u32
}

/// Returns whether registering `count` parties with the first phaser of `line` would give a phaser more than 65535. `line` has
/// a phaser, its parent, and so on up to the root. A phaser without parties would register one party with its parent, too, so
/// the parent is then asked about one.
pub fn is_overfull_along(nodes: &[Node], line: &[u8], count: u32) -> bool
    requires stored { IsStored nodes.now }
    requires there { All (λ id. id < length nodes.now) line.now }
    ensures { result ≡ list_any (is_overfull (phasers_of nodes.now))
        (joins_along line.now count (phasers_of nodes.now)) }
{
    let Some((id, above)) = line.split_first() else {
        return false;
    };
    let word = word_at(nodes, *id as usize);
    if is_full_for(word, count) {
        return true;
    }
    if word.is_empty() {
        is_overfull_along(nodes, above, 1)
    } else {
        false
    }
}

/// Returns whether a registration, as in `is_overfull_along`, would change a phaser that is turned: all its parties have
/// arrived, and its phase hasn't ended yet.
pub fn is_turned_along(nodes: &[Node], line: &[u8], count: u32) -> bool
    requires stored { IsStored nodes.now }
    requires there { All (λ id. id < length nodes.now) line.now }
    ensures { result ≡ list_any (is_turned (phasers_of nodes.now))
        (joins_along line.now count (phasers_of nodes.now)) }
{
    let Some((id, above)) = line.split_first() else {
        return false;
    };
    let word = word_at(nodes, *id as usize);
    if word.is_turned() {
        return true;
    }
    if word.is_empty() {
        is_turned_along(nodes, above, 1)
    } else {
        false
    }
}

/// Registers parties with phaser `i` alone. If its word refuses them, nothing changes.
fn join_at(nodes: &mut [Node], i: usize, count: u32)
    requires stored { IsStored nodes.old }
    requires there { i < length nodes.old }
    ensures joined { phasers_of nodes.new ≡ with_flat (phasers_of nodes.old) i
        (flat_by (register count (flat_at (phasers_of nodes.old) i))
        (flat_at (phasers_of nodes.old) i)) }
    ensures stored { IsStored nodes.new }
    ensures only { ChangedOnly (i ∷ []) nodes.old nodes.new }
{
    if let packed_phaser::Registered::At(word, _) = word_at(nodes, i).register(count) {
        set_word(nodes, i, word);
    }
}

/// Registers `count` parties with the line's first phaser. If it is empty, one is first registered with its parent, and so on.
pub fn join_along(nodes: &mut [Node], line: &[u8], count: u32)
    requires stored { IsStored nodes.old }
    requires there { All (λ id. id < length nodes.old) line.now }
    ensures joined { phasers_of nodes.new
        ≡ joined (joins_along line.now count (phasers_of nodes.old)) (phasers_of nodes.old) }
    ensures stored { IsStored nodes.new }
    ensures only { ChangedOnly line.now nodes.old nodes.new }
{
    let Some((id, above)) = line.split_first() else {
        return;
    };
    let i = *id as usize;
    if word_at(nodes, i).is_empty() {
        join_along(nodes, above, 1);
    }
    join_at(nodes, i, count);
}

/// Returns what a registration with phaser `i` would return. It checks in this order: terminated, 0 parties, `TooMany`, `Held`.
pub fn registration(nodes: &[Node], i: usize, count: u32) -> Registered
    requires stored { IsStored nodes.now }
    requires there { i < length nodes.now }
    ensures { result ≡ registration i count (phasers_of nodes.now) }
{
    let word = word_at(nodes, i);
    if word.is_terminated() {
        return Registered::Dead(word.phase_view());
    }
    if count == 0 {
        return Registered::At(word.phase_view());
    }
    let line = line_at(nodes, i);
    if is_overfull_along(nodes, line.as_slice(), count) {
        Registered::TooMany
    } else if is_turned_along(nodes, line.as_slice(), count) {
        Registered::Held
    } else {
        Registered::At(word.phase_view())
    }
}

/// Registers `count` parties with phaser `i`, unless the result says why not.
pub fn register(nodes: &mut [Node], i: usize, count: u32) -> Registered
    requires stored { IsStored nodes.old }
    requires there { i < length nodes.old }
    ensures answer { result ≡ registration i count (phasers_of nodes.old) }
    ensures forest { phasers_of nodes.new ≡ after_registration i count (phasers_of nodes.old) }
    ensures stored { IsStored nodes.new }
    ensures only { ChangedAt i nodes.old nodes.new }
    ensures refused { DoesntJoin result count → nodes.new ≡ nodes.old }
{
    let answer = registration(nodes, i, count);
    if count > 0 && matches!(answer, Registered::At(_)) {
        let line = line_at(nodes, i);
        join_along(nodes, line.as_slice(), count);
    }
    answer
}
