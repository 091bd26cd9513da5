ghost use Rattle.std.specs.Prelude.{◌≡◌, ◌<◌, ◌≤◌, ℕ, List, map, take, length, All};
ghost use Rattle.tier_tree.specs.Stored.{Stored, IsStored, ChangedAt, stored_at};
ghost use Rattle.tier_tree.specs.Undo.{kept_by, kept_at, saved_of, with_kept, restored};

use crate::node::Node;
use crate::present::line_at;
use packed_phaser::Word;
use phase_number::Phase;
use std::marker::Model;

/// What is saved of one phaser.
#[derive(Clone, Copy)]
pub struct KeptWord {
    pub word: Word,
    pub ended_phases: u32,
    pub id: u8,
}

/// What is saved of a forest before a call, so that `Forest::restore` can undo the call: the words from the phaser that the
/// call names up to its root, at most 8.
#[derive(Drop)]
pub struct Saved {
    kept: [KeptWord; 8],
    len: u8,
}

impl Model for Saved {
    ghost use Rattle.std.specs.Prelude.{List, take, map, ◌≤◌};
    ghost use Rattle.tier_tree.specs.Undo.{Kept, kept_by};

    ghost Value = { List Kept };

    ghost view = { λ saved. map kept_by (take saved.len saved.kept) };

    ghost invariant = { λ saved. saved.len ≤ 8 };
}

/// Saves the word of phaser `id`, and how many phases of its tree have ended.
fn keep_at(nodes: &[Node], id: u8) -> KeptWord
    requires { id < length nodes.now }
    ensures { kept_by result ≡ kept_at nodes.now id }
{
    let node = &nodes[id as usize];
    KeptWord {
        id,
        word: node.word(),
        ended_phases: node.ended_phases(),
    }
}

/// Saves the words of the phasers of a line, at most 8. Unused places hold an empty phaser's word.
fn keep_line(nodes: &[Node], line: &[u8]) -> Saved
    requires few { length line.now ≤ 8 }
    requires there { All (λ id. id < length nodes.now) line.now }
    ensures { result ≡ map (kept_at nodes.now) line.now }
{
    let none = KeptWord {
        id: 0,
        word: Word::fresh(Phase::prevailing(0), 0),
        ended_phases: 0,
    };
    let mut kept = [none; 8];
    for (i, id) in line.iter().enumerate() {
        kept[i] = keep_at(nodes, *id);
    }
    Saved {
        kept,
        len: line.len() as u8,
    }
}

/// Saves what a call at phaser `i` can change: the words from it up to its root.
pub fn keep(nodes: &[Node], i: usize) -> Saved
    requires stored { IsStored nodes.now }
    requires there { i < length nodes.now }
    ensures { result ≡ saved_of i nodes.now }
{
    let line = line_at(nodes, i);
    keep_line(nodes, line.as_slice())
}

/// Restores what was saved of one phaser, if there is such a phaser.
#[tactic(auto, using(std::proofs::lemmas::List::set_past))]
fn put_back_at(nodes: &mut [Node], kept: &KeptWord)
    ensures { nodes.new ≡ with_kept (kept_by kept.now) nodes.old }
{
    let i = kept.id as usize;
    if i < nodes.len() {
        nodes[i].put_back(kept);
    }
}

/// Restores what was saved of each phaser.
fn put_back_each(nodes: &mut [Node], kept: &[KeptWord])
    ensures { nodes.new ≡ restored (map kept_by kept.now) nodes.old }
{
    for one in kept {
        put_back_at(nodes, one);
    }
}

/// Restores everything that was saved.
pub fn put_back_all(nodes: &mut [Node], saved: &Saved)
    ensures { nodes.new ≡ restored saved.now nodes.old }
{
    put_back_each(nodes, &saved.kept[..saved.len as usize]);
}

/// A law: words that are saved before a call at a phaser restore the forest after it. The call may have changed words from
/// this phaser up to its root, and no others.
#[tactic(auto, using(crate::proofs::Changed::saved_restored))]
pub fn what_was_saved_is_restored()
    ensures { (id : ℕ) (before after : List Stored) → ChangedAt id before after
        → restored (saved_of id before) after ≡ before }
{}
