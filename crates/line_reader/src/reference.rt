ghost use Rattle.std.specs.Prelude.{◌≡◌};
ghost use Rattle.line_reader.specs.{Seen.seen, Seen.reference_seen, Reading.reference_at};

use crate::asm_fault::AsmFaultKind;
use crate::name::name_at;
use crate::number::count_at;

/// How a program's text refers to a row or an object: by its name, stored as an `N`, or by its number.
#[derive(Drop)]
pub enum Reference<N> {
    Named(N),
    Numbered(u16),
}

/// Reads a name, or `#` and a number from 0 to `high`. An empty word is `BadName`.
#[inline(always)]
#[tactic(auto, unfolding(crate::specs::Reading::reference_at))]
pub fn reference_at(high: u16, word: &[u8]) -> Result<Reference<&[u8]>, AsmFaultKind>
    ensures { seen reference_seen result ≡ reference_at high word.now }
{
    match word {
        [] => Err(AsmFaultKind::BadName),
        [byte, number @ ..] => {
            if *byte == b'#' {
                Ok(Reference::Numbered(count_at(high, number)?))
            } else {
                Ok(Reference::Named(name_at(word)?))
            }
        }
    }
}
