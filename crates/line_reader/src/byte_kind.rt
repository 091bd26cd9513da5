//! Where in a line a byte may be.
ghost use Rattle.std.specs.Prelude.{◌≡◌};
ghost use Rattle.line_reader.specs.{FirstLine.is_letter, Names.goes_on_name, Words.is_allowed};

/// For each byte where it may be: 3 in a name, 2 in another word, 1 between words or in a comment, 0 in no line. This is
/// a table because each byte of a text is looked up, mostly more than once.
const KINDS: [u8; 256] = [
    0, 0, 0, 0, 0, 0, 0, 0, 0, 1, 0, 0, 0, 1, 0, 0, 0, 0, 0, 0, 0, 0, 0, 0, 0, 0, 0, 0, 0, 0, 0, 0,
    1, 2, 2, 2, 2, 2, 2, 2, 2, 2, 2, 2, 2, 2, 2, 2, 3, 3, 3, 3, 3, 3, 3, 3, 3, 3, 2, 1, 2, 2, 2, 2,
    2, 3, 3, 3, 3, 3, 3, 3, 3, 3, 3, 3, 3, 3, 3, 3, 3, 3, 3, 3, 3, 3, 3, 3, 3, 3, 3, 2, 2, 2, 2, 3,
    2, 3, 3, 3, 3, 3, 3, 3, 3, 3, 3, 3, 3, 3, 3, 3, 3, 3, 3, 3, 3, 3, 3, 3, 3, 3, 3, 2, 2, 2, 2, 0,
    0, 0, 0, 0, 0, 0, 0, 0, 0, 0, 0, 0, 0, 0, 0, 0, 0, 0, 0, 0, 0, 0, 0, 0, 0, 0, 0, 0, 0, 0, 0, 0,
    0, 0, 0, 0, 0, 0, 0, 0, 0, 0, 0, 0, 0, 0, 0, 0, 0, 0, 0, 0, 0, 0, 0, 0, 0, 0, 0, 0, 0, 0, 0, 0,
    0, 0, 0, 0, 0, 0, 0, 0, 0, 0, 0, 0, 0, 0, 0, 0, 0, 0, 0, 0, 0, 0, 0, 0, 0, 0, 0, 0, 0, 0, 0, 0,
    0, 0, 0, 0, 0, 0, 0, 0, 0, 0, 0, 0, 0, 0, 0, 0, 0, 0, 0, 0, 0, 0, 0, 0, 0, 0, 0, 0, 0, 0, 0, 0,
];

/// Returns whether a line may have this byte: tab, CR, the space, or printable ASCII.
pub fn is_allowed(byte: u8) -> bool
    ensures { result ≡ is_allowed byte }
{
    KINDS[usize::from(byte)] > 0
}

/// Returns whether this byte is part of a word: printable ASCII except the space and `;`.
pub fn is_letter(byte: u8) -> bool
    ensures { result ≡ is_letter byte }
{
    KINDS[usize::from(byte)] > 1
}

/// Returns whether a byte may continue a name: a letter, a digit or `_`.
pub fn goes_on_name(byte: u8) -> bool
    ensures { result ≡ goes_on_name byte }
{
    KINDS[usize::from(byte)] > 2
}
