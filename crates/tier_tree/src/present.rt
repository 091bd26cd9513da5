//! What the stored words mean at present. After the end of a phase or a termination, only the root's word is up to date.
ghost use Rattle.std.specs.Prelude.{◌≡◌, ◌<◌, [], ◌∷◌, length, false, All, slice_index_or};
ghost use Rattle.packed_phaser.specs.{Flat.view_of, Word.record_of};
ghost use Rattle.tier_tree.specs.Forest.{phaser_at, flat_at, root_at, with_flat};
ghost use Rattle.tier_tree.specs.Stored.{IsStored, ChangedOnly, present, stored_at, phasers_of};

use crate::line::Line;
use crate::node::Node;
use packed_phaser::Word;
use phase_number::Phase;

/// Returns the phase of a word, terminated or not.
#[tactic(auto, using(crate::proofs::View::view_number), unfolding(packed_phaser::specs::Word::fields_of))]
pub fn phase_of(word: Word) -> Phase
    ensures { result ≡ (record_of word).phase }
{
    Phase::prevailing(word.phase_view())
}

/// Returns what the word `own` means at present. `root` is its root's word. If `own` is of an earlier phase, all its parties
/// have yet to arrive in the root's phase. If the root is terminated, so is the result.
#[inline(never)]
fn renewed(root: Word, own: Word) -> Word
    ensures { record_of result ≡ present (record_of root) (record_of own) }
{
    let phase = phase_of(root);
    if root.is_terminated() {
        own.renew(phase).force()
    } else if phase_of(own).number() == phase.number() {
        own
    } else {
        own.renew(phase)
    }
}

/// Returns what the word `own` means at present. Mostly it is of the phase of its root's word: the upper halves are equal.
#[inline(always)]
#[tactic(auto, using(crate::proofs::View::stands_as_it_is))]
fn brought_up(root: Word, own: Word) -> Word
    ensures { record_of result ≡ present (record_of root) (record_of own) }
{
    if own.raw() >> 32 == root.raw() >> 32 {
        own
    } else {
        renewed(root, own)
    }
}

/// Returns the line of phaser `i`: its own number first, then those above it, which all exist and have the same root.
#[tactic(auto, using(crate::proofs::Changed::line_read, crate::proofs::Ascent::tree_read, crate::proofs::Ascent::own_read))]
pub fn line_at(nodes: &[Node], i: usize) -> Line
    requires stored { IsStored nodes.now }
    requires there { i < length nodes.now }
    ensures line { result ≡ (phaser_at (phasers_of nodes.now) i).line }
    ensures stored { result ≡ (stored_at nodes.now i).line }
    ensures own { slice_index_or result 0 0 ≡ i }
    ensures within { All (λ above. above < length nodes.now) result }
    ensures tree { All (λ above. root_at (phasers_of nodes.now) above
        ≡ root_at (phasers_of nodes.now) i) result }
{
    nodes[i].line()
}

/// Returns the number of phaser `i`'s root.
pub fn root_of(nodes: &[Node], i: usize) -> u8
    requires stored { IsStored nodes.now }
    requires there { i < length nodes.now }
    ensures root { result ≡ root_at (phasers_of nodes.now) i }
    ensures within { result < length nodes.now }
    ensures top { root_at (phasers_of nodes.now) result ≡ result }
{
    nodes[i].root()
}

/// Returns the word of phaser `i`'s root.
#[inline(always)]
#[tactic(auto, using(crate::proofs::Shown::top_read, crate::proofs::Shown::top_word_read))]
pub fn top_at(nodes: &[Node], i: usize) -> Word
    requires stored { IsStored nodes.now }
    requires there { i < length nodes.now }
    ensures { result ≡ (stored_at nodes.now (root_at (phasers_of nodes.now) i)).word }
{
    let root = nodes[i].root();
    nodes[root as usize].word()
}

/// Returns the word that phaser `i` has at present, even if the stored one is of an earlier phase.
pub fn word_at(nodes: &[Node], i: usize) -> Word
    requires stored { IsStored nodes.now }
    requires there { i < length nodes.now }
    ensures { record_of result ≡ flat_at (phasers_of nodes.now) i }
{
    let top = top_at(nodes, i);
    brought_up(top, nodes[i].word())
}

/// Returns the word of a root, which is always of the present phase.
#[inline(always)]
pub fn root_word_at(nodes: &[Node], root: usize) -> Word
    requires stored { IsStored nodes.now }
    requires there { root < length nodes.now }
    requires root { root_at (phasers_of nodes.now) root ≡ root }
    ensures { record_of result ≡ flat_at (phasers_of nodes.now) root }
{
    nodes[root].word()
}

/// Returns what `getPhase` of phaser `i` returns: the phase of its root, whatever its own word says.
#[inline(always)]
#[tactic(auto, using(crate::proofs::Shown::view_read))]
pub fn view_at(nodes: &[Node], i: usize) -> i32
    requires stored { IsStored nodes.now }
    requires there { i < length nodes.now }
    ensures { result ≡ view_of (flat_at (phasers_of nodes.now) i) }
{
    top_at(nodes, i).phase_view()
}

/// Stores another word of the present phase for phaser `i`, which isn't terminated. The other phasers stay as they are.
pub fn set_word(nodes: &mut [Node], i: usize, word: Word)
    requires stored { IsStored nodes.old }
    requires there { i < length nodes.old }
    requires phase { (record_of word).phase ≡ (flat_at (phasers_of nodes.old) i).phase }
    requires before { (flat_at (phasers_of nodes.old) i).ended ≡ false }
    requires live { (record_of word).ended ≡ false }
    ensures present { phasers_of nodes.new
        ≡ with_flat (phasers_of nodes.old) i (record_of word) }
    ensures stored { IsStored nodes.new }
    ensures only { ChangedOnly (i ∷ []) nodes.old nodes.new }
{
    nodes[i].set_word(word);
}
