//! The line that helps a person: `help: TEXT`, or `near: NAME` with what may have been meant.

use std::alloc::{AllocError, Global};

/// How many names are shown at most.
const MOST_NAMES: usize = 8;

/// The line of what helps, or of what may have been meant, if there is something and there was memory for it.
pub type Hint = Result<Option<Vec<u8>>, AllocError>;

/// Returns the line that has this word before a text. It is never None: the callers return a `Hint`, too.
fn hint(alloc: Global, word: &[u8], text: &[u8]) -> Hint {
    let mut line = Vec::from_slice(alloc, word)?;
    line.extend_from_slice(text)?;
    Ok(Some(line))
}

/// Returns the line `help: TEXT`.
pub fn help(alloc: Global, text: &[u8]) -> Hint {
    hint(alloc, b"help: ", text)
}

/// Returns the line `help: TEXT`, or None without a text.
pub fn help_if_any(alloc: Global, text: Option<&str>) -> Hint {
    text.map_or(Ok(None), |text| help(alloc, text.as_bytes()))
}

/// Returns the line `near: NAME`, which says what may have been meant.
pub fn near(alloc: Global, name: &[u8]) -> Hint {
    hint(alloc, b"near: ", name)
}

/// Returns a line of help: these words, and then the first eight names that aren't empty. None if there is no name.
pub fn help_by_names(alloc: Global, words: &[u8], names: &[&[u8]]) -> Hint {
    let mut text = Vec::new(alloc);
    for name in names
        .iter()
        .filter(|name| !name.is_empty())
        .take(MOST_NAMES)
    {
        text.extend_from_slice(if text.is_empty() {
            words
        } else {
            b", ".as_slice()
        })?;
        text.extend_from_slice(name)?;
    }
    if text.is_empty() {
        return Ok(None);
    }
    if names.len() > MOST_NAMES {
        text.extend_from_slice(b", ..")?;
    }
    help(alloc, text.as_slice())
}
