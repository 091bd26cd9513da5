ghost use Rattle.std.specs.Prelude.{◌≡◌, ◌<◌, [], ◌∷◌, map, length, true, false};
ghost use Rattle.tier_tree.specs.PhaseEnd.{most_ends, terminated, after_phase_end, after_force};
ghost use Rattle.tier_tree.specs.Forest.{phaser_at, flat_at, root_at};
ghost use Rattle.tier_tree.specs.Stored.{IsStored, ChangedOnly, ChangedAt, phasers_of};

use crate::node::Node;
use crate::present::{root_of, root_word_at};

/// Ends the phase of a turned root, and terminates the tree if `ends`. Only the root's word changes: others are of a past
/// phase.
pub fn end_phase(nodes: &mut [Node], root: usize, ends: bool)
    requires stored { IsStored nodes.old }
    requires there { root < length nodes.old }
    requires root { root_at (phasers_of nodes.old) root ≡ root }
    requires turned { (flat_at (phasers_of nodes.old) root).turned ≡ true }
    requires live { (flat_at (phasers_of nodes.old) root).ended ≡ false }
    requires ends { (phaser_at (phasers_of nodes.old) root).ends < most_ends }
    ensures present { phasers_of nodes.new ≡ after_phase_end root ends (phasers_of nodes.old) }
    ensures stored { IsStored nodes.new }
    ensures only { ChangedOnly (root ∷ []) nodes.old nodes.new }
{
    let word = root_word_at(nodes, root).advance(ends);
    nodes[root].end_phase(word);
}

/// Terminates the tree of a root. Only the root's word changes; the others then count as terminated, too.
fn force_root(nodes: &mut [Node], root: usize)
    requires stored { IsStored nodes.old }
    requires there { root < length nodes.old }
    requires root { root_at (phasers_of nodes.old) root ≡ root }
    ensures present { phasers_of nodes.new ≡ map (terminated root) (phasers_of nodes.old) }
    ensures stored { IsStored nodes.new }
    ensures only { ChangedOnly (root ∷ []) nodes.old nodes.new }
{
    let word = nodes[root].word().force();
    nodes[root].set_word(word);
}

/// Terminates the tree of phaser `i`, which may be a child.
pub fn force_tree(nodes: &mut [Node], i: usize)
    requires stored { IsStored nodes.old }
    requires there { i < length nodes.old }
    ensures forest { phasers_of nodes.new ≡ after_force i (phasers_of nodes.old) }
    ensures stored { IsStored nodes.new }
    ensures only { ChangedAt i nodes.old nodes.new }
{
    let root = root_of(nodes, i);
    force_root(nodes, root as usize);
}
