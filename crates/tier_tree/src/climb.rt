//! How an arrival climbs: a child whose parties have all arrived arrives at its parent, and so on up to the root.
ghost use Rattle.std.specs.Prelude.{◌≡◌, ◌<◌, ◌≤◌, length, take, All, true, false};
ghost use Rattle.packed_phaser.specs.{Answer.arrival_of, Flat.arrive, Word.record_of};
ghost use Rattle.tier_tree.specs.{Answer.DoesntArrive, Arrival.climbed, Arrival.arrival, Ascent.IsOfPhase, Ascent.written};
ghost use Rattle.tier_tree.specs.Forest.{flat_at, root_at};
ghost use Rattle.tier_tree.specs.Stored.{IsStored, ChangedOnly, ChangedAt, stored_at, phasers_of};

use crate::arrived::Arrived;
use crate::id::PhaserId;
use crate::line::MOST_LEVELS;
use crate::node::Node;
use crate::present::{line_at, root_of, set_word, top_at, view_at, word_at};
use packed_phaser::Word;

/// How far an arrival climbs.
#[derive(Clone, Copy)]
pub enum Climb {
    /// It is counted, and others are still to arrive where it ends.
    Counted,
    /// It is the root's last.
    Turned,
    /// It is refused, because no party is left to arrive at a phaser that it reaches.
    Refused,
}

/// How far an arrival climbs along a line: this many of the line's phasers will have other words.
#[derive(Clone, Copy)]
struct Ascent {
    climb: Climb,
    levels: usize,
}

/// Returns the result of an arrival at phaser `i` alone, without its parents. `top` is its root's word. The upper halves of
/// `top` and of the phaser's own word differ if the own word is of an earlier phase.
#[inline(always)]
fn arrival_at(nodes: &[Node], i: usize, top: Word, leave: bool) -> packed_phaser::Arrived
    requires stored { IsStored nodes.now }
    requires there { i < length nodes.now }
    requires top { top ≡ (stored_at nodes.now (root_at (phasers_of nodes.now) i)).word }
    ensures { arrival_of result ≡ arrive leave (flat_at (phasers_of nodes.now) i) }
{
    let own = nodes[i].word();
    if own.raw() >> 32 == top.raw() >> 32 {
        own.arrive(leave)
    } else if top.is_terminated() {
        packed_phaser::Arrived::Dead(top.phase_view())
    } else {
        own.arrive_anew(top, leave)
    }
}

/// Computes an arrival's new words, from the line's first phaser up to one at which others are still to arrive, and writes them
/// into `words` only. A child whose parties have all arrived arrives at its parent. If it has no party left, it leaves its
/// parent. Returns how many words there are. If a phaser has no party left that could arrive, the arrival is refused, with
/// none.
#[inline(always)]
fn look(nodes: &[Node], line: &[u8], top: Word, leave: bool, words: &mut [Word]) -> Ascent
    requires stored { IsStored nodes.now }
    requires there { All (λ id. id < length nodes.now) line.now }
    requires room { length line.now ≤ length words.old }
    requires top { All (λ id. top ≡ (stored_at nodes.now (root_at (phasers_of nodes.now) id)).word)
        line.now }
    requires live { (record_of top).ended ≡ false }
    requires before { All (IsOfPhase (record_of top)) words.old }
    ensures climbed { record {
      phasers = written (take result.levels line.now) words.new (phasers_of nodes.now);
      climb = result.climb;
    } ≡ climbed line.now leave (phasers_of nodes.now) }
    ensures levels { result.levels ≤ length line.now }
    ensures refused { result.climb ≡ Climb.Refused → result.levels ≡ 0 }
    ensures many { length words.new ≡ length words.old }
    ensures phase { All (IsOfPhase (record_of top)) words.new }
{
    let mut leaves = leave;
    for (k, id) in line.iter().enumerate() {
        match arrival_at(nodes, *id as usize, top, leaves) {
            packed_phaser::Arrived::Counted(word) => {
                words[k] = word;
                return Ascent {
                    climb: Climb::Counted,
                    levels: k + 1,
                };
            }
            packed_phaser::Arrived::Turned(word) => {
                if k + 1 == line.len() {
                    words[k] = word;
                    return Ascent {
                        climb: Climb::Turned,
                        levels: k + 1,
                    };
                }
                // A child leaves its parent only if the child's last party leaves.
                leaves = leaves && word.parties() == 0;
                words[k] = if leaves { word.vacate() } else { word };
            }
            packed_phaser::Arrived::Dead(_) | packed_phaser::Arrived::NotThere => break,
        }
    }
    Ascent {
        climb: Climb::Refused,
        levels: 0,
    }
}

/// Gives the phasers of a line these words, from the highest phaser down.
#[inline(always)]
fn write(nodes: &mut [Node], line: &[u8], words: &[Word])
    requires stored { IsStored nodes.old }
    requires there { All (λ id. id < length nodes.old) line.now }
    requires words { length line.now ≤ length words.now }
    requires live { All (λ id. (flat_at (phasers_of nodes.old) id).ended ≡ false) line.now }
    requires phase { All (λ id. All (IsOfPhase (flat_at (phasers_of nodes.old) id)) words.now) line.now }
    ensures written { phasers_of nodes.new ≡ written line.now words.now (phasers_of nodes.old) }
    ensures stored { IsStored nodes.new }
    ensures only { ChangedOnly line.now nodes.old nodes.new }
{
    let mut low = line.len();
    while low > 0 {
        low -= 1;
        set_word(nodes, line[low] as usize, words[low]);
    }
}

/// Plays `arrive` from phaser `i` up to its root: computes all new words, and then writes them. `LEAVE`: the party leaves.
#[inline(never)]
fn ascend<const LEAVE: bool>(nodes: &mut [Node], i: usize) -> Arrived
    requires stored { IsStored nodes.old }
    requires there { i < length nodes.old }
    requires live { (flat_at (phasers_of nodes.old) i).ended ≡ false }
    ensures arrival { record { phasers = phasers_of nodes.new; answer = result }
        ≡ arrival i LEAVE (phasers_of nodes.old) }
    ensures stored { IsStored nodes.new }
    ensures only { ChangedAt i nodes.old nodes.new }
    ensures refused { DoesntArrive result → nodes.new ≡ nodes.old }
{
    let line = line_at(nodes, i);
    let way = line.as_slice();
    let top = top_at(nodes, i);
    let phase = view_at(nodes, i);
    let mut words = [top; MOST_LEVELS];
    let ascent = look(nodes, way, top, LEAVE, &mut words);
    write(nodes, &way[..ascent.levels], &words);
    match ascent.climb {
        Climb::Counted => Arrived::At(phase),
        Climb::Turned => {
            let root = line.root();
            Arrived::Turning {
                root: PhaserId(root),
                phase,
                parties: word_at(nodes, root as usize).parties(),
            }
        }
        Climb::Refused => Arrived::NotThere,
    }
}

/// Plays `arrive` if parents change, too. It is a function of its own, so that other arrivals need no buffer for words.
#[inline(always)]
fn arrive_above(nodes: &mut [Node], i: usize, leave: bool) -> Arrived
    requires stored { IsStored nodes.old }
    requires there { i < length nodes.old }
    requires live { (flat_at (phasers_of nodes.old) i).ended ≡ false }
    ensures arrival { record { phasers = phasers_of nodes.new; answer = result }
        ≡ arrival i leave (phasers_of nodes.old) }
    ensures stored { IsStored nodes.new }
    ensures only { ChangedAt i nodes.old nodes.new }
    ensures refused { DoesntArrive result → nodes.new ≡ nodes.old }
{
    if leave {
        ascend::<true>(nodes, i)
    } else {
        ascend::<false>(nodes, i)
    }
}

/// Plays `arrive` at phaser `i`, or `arriveAndDeregister` if the party leaves. If a child turns, phasers above change, too.
#[inline(always)]
pub fn arrive(nodes: &mut [Node], i: usize, leave: bool) -> Arrived
    requires stored { IsStored nodes.old }
    requires there { i < length nodes.old }
    ensures arrival { record { phasers = phasers_of nodes.new; answer = result }
        ≡ arrival i leave (phasers_of nodes.old) }
    ensures stored { IsStored nodes.new }
    ensures only { ChangedAt i nodes.old nodes.new }
    ensures refused { DoesntArrive result → nodes.new ≡ nodes.old }
{
    match arrival_at(nodes, i, top_at(nodes, i), leave) {
        packed_phaser::Arrived::Counted(word) => {
            set_word(nodes, i, word);
            Arrived::At(word.phase_view())
        }
        packed_phaser::Arrived::Turned(word) => {
            let root = root_of(nodes, i);
            if root as usize != i {
                return arrive_above(nodes, i, leave);
            }
            set_word(nodes, i, word);
            Arrived::Turning {
                root: PhaserId(root),
                phase: word.phase_view(),
                parties: word.parties(),
            }
        }
        packed_phaser::Arrived::Dead(view) => Arrived::Dead(view),
        packed_phaser::Arrived::NotThere => Arrived::NotThere,
    }
}
