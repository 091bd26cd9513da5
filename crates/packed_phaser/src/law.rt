//! Laws about words and the states that they represent. Each law is the contract of a function that does nothing.
ghost use Rattle.std.specs.Prelude.{◌≡◌, ℕ, false};
ghost use Rattle.packed_phaser.specs.{Flat.Flat, Flat.IsFlat, Word.IsWord, Word.record_of};

/// A law: each word represents a state that a phaser can have.
pub fn each_word_has_a_record()
    ensures { (word : ℕ) → IsWord word → IsFlat (record_of word) }
{}

/// A law: each state that a phaser can have is represented by a word.
pub fn each_record_has_a_word()
    ensures { (f : Flat) → IsFlat f → (word : ℕ) × (IsWord word × (record_of word ≡ f)) }
{}

/// A law: the state of a phaser that isn't terminated is represented by only one word.
pub fn words_of_a_live_record_are_equal()
    ensures { (v w : ℕ) → IsWord v → IsWord w → record_of v ≡ record_of w
        → (record_of v).ended ≡ false → v ≡ w }
{}
