//! What words mean.
ghost use Rattle.std.specs.Prelude.{[], ◌≡◌, IfOk, Some, false, map};
ghost use Rattle.vuthgal_c.specs.{Explaining.Explains, Explaining.ExplainsText, Explaining.SettlesExplaining, Shows.Shows};
ghost use Rattle.vuthgal_c.specs.Words.{AreWordsOf};

use crate::reply::Reply;
use byte_ports::Sink;
use refusals::entries::tables;
use refusals::entry::Entry;
use refusals::explain::{NO_LINE, QUESTIONS, explain};
use std::alloc::{AllocError, Global};
use workbench::done;
use workbench::fault::Fault;

/// How many bytes words may have.
const MOST_BYTES: usize = 65_536;

/// Returns the words of a text, which are separated by blanks.
fn words_of(alloc: Global, text: &str) -> Result<Vec<&str>, AllocError>
    ensures { IfOk result (λ words. AreWordsOf text.now (map (λ w. w.now) words.items)) }
{
    let mut words = Vec::new(alloc);
    for word in text.split_ascii_whitespace() {
        words.push(word)?;
    }
    Ok(words)
}

/// Writes the entry of these tables for which the words of `text` ask. Returns whether there is one: false, too, if `text`
/// isn't UTF-8. Fails with `Read` if `text` has more than 65,536 bytes.
fn explained<K: Sink>(
    alloc: Global,
    tables: &[&[Entry]],
    text: &[u8],
    output: &mut K,
) -> Result<bool, Fault>
    ensures { ExplainsText tables.now QUESTIONS.now text.now result (K.written output.old) (K.written output.new) (K.has_failed output.new) }
{
    if text.len() > MOST_BYTES {
        return Err(Fault::Read);
    }
    let Ok(text) = str::from_utf8(text) else {
        return Ok(false);
    };
    let Ok(words) = words_of(alloc, text) else {
        return Err(Fault::Memory);
    };
    match explain(tables, words.as_slice(), output) {
        Ok(means) => Ok(means),
        Err(_) => Err(Fault::Write),
    }
}

/// Returns the exit status: 0 if an entry was written, 2 if there is none, or a fault's. Except with 0, `line` says why.
fn settled<E: Sink>(answer: Result<bool, Fault>, line: &mut E) -> u8
    ensures { SettlesExplaining NO_LINE.now answer result (E.has_failed line.new) (E.written line.old) (E.written line.new) }
{
    match answer {
        Ok(true) => 0,
        Ok(false) => {
            let _ = line.push(NO_LINE);
            2
        }
        Err(fault) => done::settled(Err(fault), line),
    }
}

/// Writes what `words` mean and a fault's line, as far as they fit, and their lengths. Returns 0, 2 if no entry has these
/// words, or 4 or 5 for a fault.
#[unsafe(no_mangle)]
pub extern "C" fn vuthgal_explain(
    alloc: Global,
    words: &[u8],
    output: &mut [u8],
    output_length: &mut usize,
    line: &mut [u8],
    line_length: &mut usize,
) -> u8
    ensures { Shows (Explains QUESTIONS.now NO_LINE.now words.now) result output.old output.new output_length.new line.old line.new line_length.new }
{
    let mut reply = Reply::new(alloc, output.len(), line.len());
    let answer = explained(alloc, &tables(), words, &mut reply.shown);
    let status = settled(answer, &mut reply.told);
    reply.hand(status, output, output_length, line, line_length)
}
