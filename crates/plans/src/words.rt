//! The words of a plan, stored in at most two bytes for each byte of the text.
ghost use Rattle.std.specs.Prelude.{◌≡◌, ◌<◌, ◌++◌, [], ◌∷◌, IfSome, OnOk, None, drop, length};
ghost use Rattle.std.specs.Vec.{vec_capacity, vec_len};
ghost use Rattle.plans.specs.Parts.{left_of, put_of, taken_of};

use crate::part::{Part, stored_word, takes_number, takes_seed, word_with};
use crate::word::Word;
use std::alloc::{AllocError, Global};
use std::marker::Model;

/// A plan's words. `parts` has one part for each word. The numbers and seeds of the parts that need one are in `numbers` and
/// `seeds`, in the same order.
#[derive(Drop)]
pub struct Words {
    parts: Vec<Part>,
    numbers: Vec<u32>,
    seeds: Vec<u64>,
}

impl Model for Words {
    ghost use Rattle.std.specs.Prelude.{◌≡◌, List, length};
    ghost use Rattle.std.specs.List.{count_by};
    ghost use Rattle.plans.specs.{Parts.takes_number, Parts.takes_seed, Parts.words_of_parts, declared.word.Word.Word};

    ghost Value = { List Word };

    ghost view = { λ words. words_of_parts words.parts.items words.numbers.items words.seeds.items };

    ghost invariant = { λ words. (length words.numbers.items ≡ count_by takes_number words.parts.items)
        × (length words.seeds.items ≡ count_by takes_seed words.parts.items) };
}

/// The words of a plan, from one of them on.
#[derive(Drop)]
pub struct WordsFrom<'a> {
    parts: &'a [Part],
    numbers: &'a [u32],
    seeds: &'a [u64],
}

impl<'a> Model for WordsFrom<'a> {
    ghost use Rattle.std.specs.Prelude.{List};
    ghost use Rattle.plans.specs.{Parts.words_of_parts, declared.word.Word.Word};

    ghost Value = { List Word };

    ghost view = { λ words. words_of_parts words.parts.now words.numbers.now words.seeds.now };
}

/// Appends the number of a part if `takes` says that it has one. The caller has reserved room, so this can't fail.
fn put_number(numbers: &mut Vec<u32>, takes: bool, number: u32)
    requires { vec_len numbers.old < vec_capacity numbers.old }
    ensures { numbers.new.items ≡ numbers.old.items ++ put_of takes number }
{
    if takes {
        numbers.push_reserved(number);
    }
}

/// Appends the seed of a part if `takes` says that it has one. The caller has reserved room, so this can't fail.
fn put_seed(seeds: &mut Vec<u64>, takes: bool, seed: u64)
    requires { vec_len seeds.old < vec_capacity seeds.old }
    ensures { seeds.new.items ≡ seeds.old.items ++ put_of takes seed }
{
    if takes {
        seeds.push_reserved(seed);
    }
}

impl Words {
    /// Returns an empty list of words.
    pub fn new(alloc: Global) -> Words
        ensures { result ≡ [] }
    {
        Words {
            parts: Vec::new(alloc),
            numbers: Vec::new(alloc),
            seeds: Vec::new(alloc),
        }
    }

    /// Appends a word, or fails and changes nothing: room in all three lists is reserved before anything is appended.
    pub fn push(&mut self, word: Word) -> Result<(), AllocError>
        ensures { OnOk result (self.new ≡ self.old ++ word ∷ []) }
    {
        self.parts.reserve(1)?;
        self.numbers.reserve(1)?;
        self.seeds.reserve(1)?;
        let stored = stored_word(word);
        self.parts.push_reserved(stored.part);
        put_number(&mut self.numbers, takes_number(stored.part), stored.number);
        put_seed(&mut self.seeds, takes_seed(stored.part), stored.seed);
        Ok(())
    }

    /// Returns all words, to be read from the first on.
    pub fn all(&self) -> WordsFrom<'_>
        ensures { result ≡ self.now }
    {
        WordsFrom {
            parts: self.parts.as_slice(),
            numbers: self.numbers.as_slice(),
            seeds: self.seeds.as_slice(),
        }
    }
}

/// Returns the first of `numbers` if the word's part `takes` a number. If it takes none, or the list is empty, returns 0.
fn taken_number(takes: bool, numbers: &[u32]) -> u32
    ensures { result ≡ taken_of takes numbers.now }
{
    if takes && !numbers.is_empty() {
        numbers[0]
    } else {
        0
    }
}

/// Returns the first of `seeds` if the word's part `takes` a seed. If it takes none, or the list is empty, returns 0.
fn taken_seed(takes: bool, seeds: &[u64]) -> u64
    ensures { result ≡ taken_of takes seeds.now }
{
    if takes && !seeds.is_empty() {
        seeds[0]
    } else {
        0
    }
}

/// Returns the numbers of the words after this one: without the first if this word has a number (`takes`), or else all of them.
/// An empty list stays empty, since `WordsFrom` doesn't promise that a number is there.
fn numbers_left(takes: bool, numbers: &[u32]) -> &[u32]
    ensures { result.now ≡ left_of takes numbers.now }
{
    if takes && !numbers.is_empty() {
        &numbers[1..]
    } else {
        numbers
    }
}

/// Returns the seeds of the words after this one, as `numbers_left` does with numbers.
fn seeds_left(takes: bool, seeds: &[u64]) -> &[u64]
    ensures { result.now ≡ left_of takes seeds.now }
{
    if takes && !seeds.is_empty() {
        &seeds[1..]
    } else {
        seeds
    }
}

/// Returns the parts after the first.
fn parts_left(parts: &[Part]) -> &[Part]
    requires { 0 < length parts.now }
    ensures { result.now ≡ drop 1 parts.now }
{
    &parts[1..]
}

impl<'a> WordsFrom<'a> {
    /// Returns the words from here on, to be read a second time.
    pub fn again(&self) -> WordsFrom<'a>
        ensures { result ≡ self.now }
    {
        WordsFrom {
            parts: self.parts,
            numbers: self.numbers,
            seeds: self.seeds,
        }
    }

    /// Returns the first word and leaves the others, or returns `None` at the end.
    pub fn next(&mut self) -> Option<Word>
        ensures some { IfSome result (λ word. self.old ≡ word ∷ self.new) }
        ensures none { result ≡ None → self.old ≡ [] }
        ensures end { result ≡ None → self.new ≡ [] }
    {
        if self.parts.is_empty() {
            return None;
        }
        let part = self.parts[0];
        let counted = takes_number(part);
        let seeded = takes_seed(part);
        let word = word_with(
            part,
            taken_number(counted, self.numbers),
            taken_seed(seeded, self.seeds),
        );
        self.parts = parts_left(self.parts);
        self.numbers = numbers_left(counted, self.numbers);
        self.seeds = seeds_left(seeded, self.seeds);
        Some(word)
    }
}
