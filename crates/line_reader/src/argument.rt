//! The options of a directive. Each function takes the words of the line that are left, and returns those left after it.
ghost use Rattle.std.specs.Prelude.{◌≡◌, map, option_map, pos};
ghost use Rattle.line_reader.specs.{Seen.seen, Seen.name_seen, Seen.reference_seen, Spelling.greatest_int};
ghost use Rattle.line_reader.specs.Reading.{argument_at, end_at, number_at, reference_at, reference_option_at};

use crate::asm_fault::{AsmFaultKind, WordFault, read_at};
use crate::number::number_at;
use crate::reference::{Reference, reference_at};
use crate::words::is_word;

/// How many words are left at an option without its argument: the option, which is the last word.
const OPTION_ALONE: usize = 1;

/// Reads an option's argument: the name of a row or an object, or `#` and its number, at most `high`. If no word is left, the
/// option has the fault `OperandCount`.
pub fn reference_argument<'a, 'w>(
    high: u16,
    words: &'w [&'a [u8]],
) -> Result<(Reference<&'a [u8]>, &'w [&'a [u8]]), WordFault>
    ensures { seen (λ x. (reference_seen x.0, map name_seen x.1.now)) result
        ≡ argument_at (reference_at high) (map name_seen words.now) }
{
    match words {
        [] => Err(WordFault::at(OPTION_ALONE, AsmFaultKind::OperandCount)),
        [word, rest @ ..] => Ok((read_at(words.len(), reference_at(high, *word))?, rest)),
    }
}

/// Reads this option and its argument, if the option comes next. The argument is the name of a row or an object, or `#` and its
/// number, at most `high`. If another word or none comes next, returns `None` and all the words.
#[tactic(auto, unfolding(crate::specs::Reading::reference_option_at))]
pub fn reference_option_at<'a, 'w>(
    option: &str,
    high: u16,
    words: &'w [&'a [u8]],
) -> Result<(Option<Reference<&'a [u8]>>, &'w [&'a [u8]]), WordFault>
    ensures { seen (λ x. (option_map reference_seen x.0, map name_seen x.1.now)) result
        ≡ reference_option_at option.now high (map name_seen words.now) }
{
    match words {
        [] => Ok((None, words)),
        [word, rest @ ..] => {
            if !is_word(*word, option) {
                return Ok((None, words));
            }
            let (reference, rest) = reference_argument(high, rest)?;
            Ok((Some(reference), rest))
        }
    }
}

/// Reads an option's argument: a phase, 0 to 2147483647. If no word is left, the option has the fault `OperandCount`.
pub fn phase_argument<'a, 'w>(words: &'w [&'a [u8]]) -> Result<(i32, &'w [&'a [u8]]), WordFault>
    ensures { seen (λ x. (x.0, map name_seen x.1.now)) result
        ≡ argument_at (number_at (pos 0) greatest_int) (map name_seen words.now) }
{
    match words {
        [] => Err(WordFault::at(OPTION_ALONE, AsmFaultKind::OperandCount)),
        [word, rest @ ..] => Ok((read_at(words.len(), number_at(0, i32::MAX, *word))?, rest)),
    }
}

/// Checks that no word is left. Otherwise the first one left is `BadOption`. Its place is how many words are left.
pub fn end_at(words: &[&[u8]]) -> Result<(), WordFault>
    ensures { result ≡ end_at (map name_seen words.now) }
{
    match words {
        [] => Ok(()),
        _ => Err(WordFault::at(words.len(), AsmFaultKind::BadOption)),
    }
}
