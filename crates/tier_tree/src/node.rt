ghost use Rattle.std.specs.Prelude.{◌≡◌, ◌+◌, ◌<◌, ◌≤◌, ◌^◌};
ghost use Rattle.tier_tree.specs.{Stored.top_of, Undo.kept_by};

use crate::line::Line;
use crate::saved::KeptWord;
use packed_phaser::{Policy, Word};
use std::marker::Model;

/// One phaser of a forest. Only a root counts the phases that have ended.
#[derive(Drop)]
pub struct Node {
    line: Line,
    policy: Policy,
    word: Word,
    ended_phases: u32,
}

impl Model for Node {
    ghost use Rattle.tier_tree.specs.Stored.{Stored};

    ghost Value = { Stored };

    ghost view = { λ node. record {
      line = node.line;
      policy = node.policy;
      word = node.word;
      ends = node.ended_phases;
    } };
}

impl Node {
    /// Makes a phaser of a tree in which no phase has ended.
    pub fn new(line: Line, policy: Policy, word: Word) -> Node
        ensures { result ≡ record { line = line; policy = policy; word = word; ends = 0 } }
    {
        Node {
            line,
            policy,
            word,
            ended_phases: 0,
        }
    }

    /// Returns an equal phaser.
    pub fn copy(&self) -> Node
        ensures { result ≡ self.now }
    {
        Node {
            line: self.line.copy(),
            policy: self.policy,
            word: self.word,
            ended_phases: self.ended_phases,
        }
    }

    /// Returns the line: the phaser, its parent, and so on up to the root.
    pub fn line(&self) -> Line
        ensures { result ≡ self.now.line }
    {
        self.line.copy()
    }

    /// Returns the number of its root.
    pub fn root(&self) -> u8
        ensures { result ≡ top_of self.now }
    {
        self.line.root()
    }

    /// Returns the policy of `onAdvance`. That of a child is never used.
    pub fn policy(&self) -> Policy
        ensures { result ≡ self.now.policy }
    {
        self.policy
    }

    /// Returns the word as it is stored, which may be of an earlier phase than the root's.
    pub fn word(&self) -> Word
        ensures { result ≡ self.now.word }
    {
        self.word
    }

    /// Returns how many phases of its tree have ended, or 0 for a child.
    pub fn ended_phases(&self) -> u32
        ensures { result ≡ self.now.ends }
    {
        self.ended_phases
    }

    /// Replaces only the word.
    pub fn set_word(&mut self, word: Word)
        ensures { self.new ≡ record self.old { word = word } }
    {
        self.word = word;
    }

    /// Replaces the word after the end of a phase, and counts the phase.
    pub fn end_phase(&mut self, word: Word)
        requires { self.old.ends < 4294967295 }
        ensures { self.new ≡ record self.old { word = word; ends = self.old.ends + 1 } }
    {
        self.word = word;
        self.ended_phases += 1;
    }

    /// Restores the saved word and the saved count of ended phases.
    pub fn put_back(&mut self, kept: &KeptWord)
        ensures { self.new ≡ record self.old {
          word = (kept_by kept.now).word;
          ends = (kept_by kept.now).ends;
        } }
    {
        self.word = kept.word;
        self.ended_phases = kept.ended_phases;
    }
}
