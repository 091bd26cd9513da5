//! Labels: words that end in a colon.
ghost use Rattle.std.specs.Prelude.{◌≡◌};
ghost use Rattle.line_reader.specs.Reading.{before_last, is_label};

/// Returns whether a word ends in a colon, and so is a label.
#[tactic(auto, using(crate::proofs::Labels::label_by_last))]
pub fn is_label(word: &[u8]) -> bool
    ensures { result ≡ is_label word.now }
{
    !word.is_empty() && word[word.len() - 1] == b':'
}

/// Returns a word without its last byte, if it has one: a label without its colon.
pub fn before_last(word: &[u8]) -> &[u8]
    ensures { result.now ≡ before_last word.now }
{
    &word[..word.len().saturating_sub(1)]
}
