//! Names, and how they are spelled.
ghost use Rattle.std.specs.{Prelude.◌≡◌, List.list_all};
ghost use Rattle.line_reader.specs.{Seen.seen, Seen.name_seen, Names.begins_name, Names.goes_on_name, Names.is_name};
ghost use Rattle.line_reader.specs.Reading.{name_at};

use crate::asm_fault::AsmFaultKind;
use crate::byte_kind::goes_on_name;

/// Returns whether a byte may begin a name: a letter or `_`.
fn begins_name(byte: u8) -> bool
    ensures { result ≡ begins_name byte }
{
    byte.is_ascii_alphabetic() || byte == b'_'
}

/// Returns whether each byte may continue a name.
fn all_go_on_name(word: &[u8]) -> bool
    ensures { result ≡ list_all goes_on_name word.now }
{
    word.iter().all(|byte| goes_on_name(*byte))
}

/// Returns whether a word is spelled as a name: at most 32 bytes, of which the first isn't a digit.
fn is_name(word: &[u8]) -> bool
    ensures { result ≡ is_name word.now }
{
    !word.is_empty() && word.len() < 33 && begins_name(word[0]) && all_go_on_name(word)
}

/// Reads a name: a letter or `_`, then letters, digits and `_`, at most 32 bytes in all. Any other word is `BadName`.
#[inline(always)]
#[tactic(auto, unfolding(crate::specs::Reading::name_at))]
pub fn name_at(word: &[u8]) -> Result<&[u8], AsmFaultKind>
    ensures { seen name_seen result ≡ name_at word.now }
{
    if is_name(word) {
        Ok(word)
    } else {
        Err(AsmFaultKind::BadName)
    }
}
