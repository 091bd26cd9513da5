//! The parts of the lines of phasers, barriers and threads.
ghost use Rattle.std.specs.Prelude.{◌≡◌, ◌++◌, [], ◌∷◌, OnOk};
ghost use Rattle.std.specs.Fmt.{decimal, signed_decimal};
ghost use Rattle.line_reader.specs.Listing.{number_word, spaced};

use itoa::Buffer;
use std::alloc::AllocError;

/// Appends `word`, and after it a number that isn't negative.
pub(crate) fn push_count(text: &mut Vec<u8>, word: &[u8], count: u64) -> Result<(), AllocError>
    ensures { OnOk result (text.new.items ≡ text.old.items ++ (word.now ++ decimal count)) }
{
    text.extend_from_slice(word)?;
    text.extend_from_slice(Buffer::new().format(count).as_bytes())
}

/// Appends `word`, and after it a number, with a minus sign if it is negative.
pub(crate) fn push_value(text: &mut Vec<u8>, word: &[u8], value: i32) -> Result<(), AllocError>
    ensures { OnOk result (text.new.items ≡ text.old.items ++ (word.now ++ signed_decimal value)) }
{
    text.extend_from_slice(word)?;
    text.extend_from_slice(Buffer::new().format(value).as_bytes())
}

/// Appends a space, the option, and the number of a row or an object: ` action #7`.
#[tactic(auto, using(crate::proofs::ListedTexts::word_steps))]
pub(crate) fn push_number(text: &mut Vec<u8>, option: &[u8], number: u64) -> Result<(), AllocError>
    ensures { OnOk result (text.new.items
        ≡ text.old.items ++ spaced (option.now ∷ number_word number ∷ [])) }
{
    text.extend_from_slice(b" ")?;
    text.extend_from_slice(option)?;
    push_count(text, b" #", number)
}
