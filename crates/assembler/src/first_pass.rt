//! From a text to its draft: each line is read after the lines before it, and added.
ghost use Rattle.std.specs.Prelude.{◌≡◌, ◌≢◌, ◌<◌, ◌≤◌, [], ◌∷◌, IfErr, IfOk, IsErr, Ok, OnOk, false, length, map, true};
ghost use Rattle.line_reader.specs.{Reading.fault_at, Reading.is_directive, Reading.is_label, FirstLine.first_line};
ghost use Rattle.line_reader.specs.{Seen.name_seen, Words.lines_of, Words.words_of};
ghost use Rattle.assembler.specs.Answers.{AnswersAt, AnswersPlaced, IsWrong, at_line};
ghost use Rattle.assembler.specs.{Passes.behind, Passes.lines_read, Placed.IsPlacedIn};
ghost use Rattle.assembler.specs.Reading.{line_behind, words_behind};
ghost use Rattle.line_reader.specs.declared.asm_fault.AsmFaultKind.TheVariants as fault;

use crate::draft::Draft;
use crate::kept_line::KeptLine;
use crate::name_hash::NameHash;
use crate::placed::{PlacedFault, placed};
use crate::reading::{directive_behind, label_behind, row_behind};
use line_reader::asm_fault::{AsmFaultKind, WordFault, read_at};
use line_reader::directive::is_directive;
use line_reader::first_line::put_line;
use line_reader::label::is_label;
use std::alloc::{AllocError, Global};

/// Returns `Ok` if a line was added, and otherwise the fault `Memory`. Its place 0 says that no word of the line is wrong.
#[inline(always)]
fn pushed(added: Result<(), AllocError>) -> Result<(), WordFault>
    ensures ok { OnOk result (added ≡ Ok tt) }
    ensures err { IfErr result (λ refused. (refused ≡ fault_at 0 fault.Memory) × IsErr added) }
{
    match added {
        Ok(()) => Ok(()),
        Err(_) => Err(WordFault::at(0, AsmFaultKind::Memory)),
    }
}

/// Adds the line of this number: the label `word`, and perhaps a row in `words` after it. A fault adds nothing.
#[inline(never)]
#[tactic(auto, unfolding(crate::specs::Reading::words_behind))]
fn add_labelled<'a>(
    draft: &mut Draft<'a>,
    number: u64,
    word: &'a [u8],
    words: &[&'a [u8]],
) -> Result<(), WordFault>
    requires { is_label word.now ≡ true }
    ensures read { AnswersAt (λ _. draft.new) (at_line number result)
        (behind draft.old number (words_behind draft.old (word.now ∷ map name_seen words.now))) }
    ensures wrong { IfErr result (λ e. IsWrong e
        (words_behind draft.old (word.now ∷ map name_seen words.now))) }
{
    let line = label_behind(&*draft, number, word, words)?;
    pushed(draft.push(line))
}

/// Adds the line of this number: a directive that `word` begins, with the other words in `words`. A fault adds nothing.
#[inline(never)]
#[tactic(auto, unfolding(crate::specs::Reading::words_behind, crate::specs::Reading::statement_behind))]
fn add_directive<'a>(
    draft: &mut Draft<'a>,
    number: u64,
    word: &'a [u8],
    words: &[&'a [u8]],
) -> Result<(), WordFault>
    requires label { is_label word.now ≡ false }
    requires directive { is_directive word.now ≡ true }
    ensures read { AnswersAt (λ _. draft.new) (at_line number result)
        (behind draft.old number (words_behind draft.old (word.now ∷ map name_seen words.now))) }
    ensures wrong { IfErr result (λ e. IsWrong e
        (words_behind draft.old (word.now ∷ map name_seen words.now))) }
{
    let said = directive_behind(&*draft, word, words)?;
    pushed(draft.push_directive(number, said))
}

/// Adds the line of this number: a row without a label. `word` begins it, and `words` are its operands. A fault adds nothing.
#[inline(always)]
#[tactic(auto, unfolding(crate::specs::Reading::words_behind, crate::specs::Reading::statement_behind))]
fn add_row<'a>(
    draft: &mut Draft<'a>,
    number: u64,
    word: &'a [u8],
    words: &[&'a [u8]],
) -> Result<(), WordFault>
    requires label { is_label word.now ≡ false }
    requires directive { is_directive word.now ≡ false }
    ensures read { AnswersAt (λ _. draft.new) (at_line number result)
        (behind draft.old number (words_behind draft.old (word.now ∷ map name_seen words.now))) }
    ensures wrong { IfErr result (λ e. IsWrong e
        (words_behind draft.old (word.now ∷ map name_seen words.now))) }
{
    let row = row_behind(&*draft, word, words)?;
    pushed(draft.push(KeptLine::Row(number, row)))
}

/// Adds the line of this number, which has these words. A line without words adds nothing.
#[inline(always)]
#[tactic(auto, unfolding(crate::specs::Reading::words_behind))]
fn add_words<'a>(draft: &mut Draft<'a>, number: u64, words: &[&'a [u8]]) -> Result<(), WordFault>
    ensures read { AnswersAt (λ _. draft.new) (at_line number result)
        (behind draft.old number (words_behind draft.old (map name_seen words.now))) }
    ensures wrong { IfErr result (λ e. IsWrong e (words_behind draft.old (map name_seen words.now))) }
{
    match words {
        [] => Ok(()),
        [word, operands @ ..] => {
            if is_label(*word) {
                add_labelled(draft, number, *word, operands)
            } else if is_directive(*word) {
                add_directive(draft, number, *word, operands)
            } else {
                add_row(draft, number, *word, operands)
            }
        }
    }
}

/// Adds the first line of a text, which has this number, to the draft. Returns the text after the line, or the line's fault.
/// The line's words replace those in `words`: the caller counts them to find the place of a fault.
#[inline(always)]
#[tactic(auto, unfolding(crate::specs::Reading::line_behind), using(crate::proofs::SpelledLines::words_counted))]
fn read_line<'a>(
    draft: &mut Draft<'a>,
    words: &mut Vec<&'a [u8]>,
    number: u64,
    text: &'a [u8],
) -> Result<&'a [u8], WordFault>
    requires { 0 < length text.now }
    ensures read { AnswersAt (λ _. draft.new) (at_line number result)
        (behind draft.old number (line_behind draft.old (first_line text.now))) }
    ensures wrong { IfErr result (λ e. IsWrong e (line_behind draft.old (first_line text.now))) }
    ensures words { IfErr result (λ e. e.left ≢ 0
        → length words.new.items ≡ length (words_of (first_line text.now))) }
    ensures lines { IfOk result (λ after. lines_of text.now ≡ first_line text.now ∷ lines_of after.now) }
    ensures shorter { IfOk result (λ after. length after.now < length text.now) }
{
    // The place 0: the fault is of no word, but of the line or a byte. `placed` finds the byte of a `BadByte`.
    let after = read_at(0, put_line(words, text))?;
    add_words(draft, number, words)?;
    Ok(after)
}

/// Returns what the lines of a text say, and how many lines there are, or the first fault with its place.
pub fn lines_read(alloc: Global, text: &[u8]) -> Result<(Draft<'_>, u64), PlacedFault>
    ensures read { AnswersPlaced (λ x. x.0) result (lines_read 1 [] (lines_of text.now)) }
    ensures lines { IfOk result (λ x. x.1 ≡ length (lines_of text.now)) }
    ensures line { IfErr result (λ e. (1 ≤ e.fault.line) × (e.fault.line ≤ length (lines_of text.now))) }
    ensures place { IfErr result (IsPlacedIn text.now) }
{
    let mut draft = Draft::new(alloc, NameHash::new(text));
    let mut words = Vec::new(alloc);
    let mut rest = text;
    let mut number = 0u64;
    while !rest.is_empty() {
        number += 1;
        match read_line(&mut draft, &mut words, number, rest) {
            Ok(after) => rest = after,
            Err(fault) => return Err(placed(number, fault, text, words.len())),
        }
    }
    Ok((draft, number))
}
