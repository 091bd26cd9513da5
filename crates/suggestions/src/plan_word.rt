//! What helps at a wrong word of a plan, if that is more than the entry of its fault says (`refusals`).

use crate::java::found_in;
use crate::nearest::nearest_of;
use line_reader::number::are_digits;
use line_reader::words::length_before;
use plans::fault::PlanFaultKind;
use std::alloc::{AllocError, Global};

/// What helps if a comment begins as in other languages.
pub const AT_COMMENT: &str = "a comment begins with `;`";

const AT_COMMA: &str = "no commas: put blanks between the words of a plan";

const AT_COUNTED_DOT: &str = "a dot has no count: `ann*3`, or `( ann. )*3`";

/// What helps at a choice that is written otherwise, as `T0` and `xt0`.
pub const AT_TURN: &str = "a turn of thread 0 is `t0`, and the expiry of its timed wait `x0`";

/// The bytes of the sign that is three dots.
const ELLIPSIS: [u8; 3] = [0xe2, 0x80, 0xa6];

/// Returns whether a word begins with the sign of a comment in other languages.
pub fn has_comment_sign(word: &[u8]) -> bool {
    word.starts_with(b"#") || word.starts_with(b"//") || word.starts_with(b"/*")
}

/// Returns advice for a comment, a comma or a count in a wrong word of a plan, else None; `before` is the byte before it.
fn helps_at_count(word: &[u8], before: Option<u8>) -> Option<&'static str> {
    let count = word.get(..length_before(b'*', word)).unwrap_or(word);
    helps! {
        has_comment_sign(word) => AT_COMMENT,
        word.contains(&b',') => AT_COMMA,
        word.starts_with(b"*") => "no blank before a count, as in `ann*3` and `( ann. )*3`",
        are_digits(count) && count.len() < word.len() => "the count is last, as in `ann*3`",
        matches!(word, [b'[' | b'{', ..]) || are_digits(word) && before == Some(b')') =>
            "what is repeated is in parentheses, and its count follows a star: `( ann bob )*3`",
        are_digits(word) => "`t0` is thread 0; a count follows a name and a star, as in `ann*3`",
        else None
    }
}

/// Returns advice if a wrong word of a plan has dots in the wrong place, and None if not.
fn helps_at_dots(word: &[u8]) -> Option<&'static str> {
    let behind = word.get(length_before(b'.', word).saturating_add(1)..)?;
    helps! {
        word == b".".as_slice() => "`..` plays all threads in turn; `ann.` plays ann until it waits",
        word.starts_with(b"...") => "`..` has two dots: it plays all threads in turn",
        word.starts_with(b"..") => "a count follows a star, as in `..*5`",
        word.ends_with(b"..") => "one dot follows a name, as in `ann.`; `..` is a word of its own",
        behind.starts_with(b"*") => AT_COUNTED_DOT,
        !behind.is_empty() => "put a blank behind a dot, as in `ann. bob.`",
        word.starts_with(b"x") => "no dot after an expiry: `xann` lets the time of ann's wait run out",
        else None
    }
}

/// Returns advice for a wrong count after a star. None if the count is only too small or too large.
fn helps_at_star(word: &[u8]) -> Option<&'static str> {
    helps! {
        word.ends_with(b".") => AT_COUNTED_DOT,
        word.contains(&b',') => AT_COMMA,
        word.ends_with(b"*") => "a count follows a star without a blank, as in `ann*3`",
        else None
    }
}

/// Words that people write in plans, and what helps there.
const NO_NAMES: &str = "\
x: no blank: `xann` is the expiry of ann's wait
until: `ann.` plays ann until it waits, ends or dies
then and: put only blanks between the words of a plan
seed random: `?7`, without a blank, plays any thread that can continue, by the seed 7
all each every: `..` plays all threads in turn
";

/// Returns advice for a wrong word of a plan, by its fault and the byte before it. None if the entry of the fault says enough.
pub fn helps_at(kind: PlanFaultKind, word: &[u8], before: Option<u8>) -> Option<&'static str> {
    match kind {
        PlanFaultKind::BadWord if word.starts_with(&ELLIPSIS) => Some(
            "`..` has two dots: it plays all threads in turn",
        ),
        PlanFaultKind::BadWord => helps_at_count(word, before).or(helps_at_dots(word)),
        PlanFaultKind::BadCount => helps_at_star(word),
        PlanFaultKind::BadSeed if word == b"?".as_slice() => found_in(NO_NAMES, b"seed"),
        PlanFaultKind::NotNamed => match word {
            [b'T' | b'X', digits @ ..] | [b'x', b't', digits @ ..] if are_digits(digits) => Some(
                AT_TURN,
            ),
            _ => found_in(NO_NAMES, word),
        },
        _ => None,
    }
}

/// Returns the choice that a person may have meant: the nearest of these names with the word's dot or count, and `x` before it
/// if it is an expiry. None if no name is near.
pub fn near_choice(
    alloc: Global,
    names: &[&[u8]],
    word: &[u8],
) -> Result<Option<Vec<u8>>, AllocError> {
    let length = length_before(b'.', word).min(length_before(b'*', word));
    let (name, behind) = word.split_at(length.min(word.len()));
    let turn = nearest_of(alloc, names, name)?;
    let expiry = nearest_of(
        alloc,
        names,
        name.strip_prefix(b"x".as_slice()).unwrap_or(&[]),
    )?;
    let is_expiry = expiry.meant.is_some() && (turn.meant.is_none() || expiry.far < turn.far);
    let mut text = Vec::from_slice(alloc, if is_expiry { b"x".as_slice() } else { b"" })?;
    let near = if is_expiry { expiry.meant } else { turn.meant };
    let Some(near) = near else {
        return Ok(None);
    };
    text.extend_from_slice(near)?;
    text.extend_from_slice(behind)?;
    Ok(Some(text))
}
