//! How a line is read after the lines before it: which names are new, what has room, and where a directive may be.
ghost use Rattle.std.specs.Prelude.{◌≡◌, IfOk, Option, false, map, option_map, true};
ghost use Rattle.line_reader.specs.{Seen.seen, Seen.name_seen, Seen.statement_seen, Reading.before_last, Reading.is_label};
ghost use Rattle.line_reader.specs.{Symbols.Name, KeptRow.row_kept};
ghost use Rattle.line_reader.specs.declared.statement.Statement.TheVariants as statement;
ghost use Rattle.assembler.specs.{KeptLine.number_kept, KeptLine.statement_kept, Statements.is_code, Statements.is_new};
ghost use Rattle.assembler.specs.Reading.{directive_behind, labelled_behind, row_behind, statement_behind};

use crate::draft::{Draft, name_in};
use crate::kept_line::KeptLine;
use line_reader::asm_fault::{AsmFaultKind, WordFault, read_at};
use line_reader::directive::{directive_at, is_directive};
use line_reader::kept_row::{KeptRow, row_at};
use line_reader::label::before_last;
use line_reader::name::name_at;
use line_reader::statement::Statement;

/// Returns whether no line so far gives this name. It is true if there is no name.
fn is_new(draft: &Draft, name: Option<&[u8]>) -> bool
    ensures { result ≡ is_new draft.now (option_map name_seen name.entry) }
{
    match name {
        Some(name) => !draft.is_given(name),
        None => true,
    }
}

/// Reads the directive that `word` begins, after the lines in `draft`. `word` has the fault `MisplacedDirective` if one of
/// these is a label or a row, and `TooMany` if there is no room. The name has the fault `NameTwice` if it isn't new.
#[tactic(auto, unfolding(crate::specs::Reading::directive_behind))]
pub fn directive_behind<'a>(
    draft: &Draft<'a>,
    word: &[u8],
    words: &[&'a [u8]],
) -> Result<Statement<&'a [u8]>, WordFault>
    ensures said { seen statement_seen result
        ≡ directive_behind draft.now word.now (map name_seen words.now) }
    ensures directive { IfOk result (λ said. is_code (statement_seen said) ≡ false) }
{
    if draft.has_code() {
        return Err(WordFault::at(words.len() + 1, AsmFaultKind::MisplacedDirective));
    }
    let said = directive_at(word, words)?;
    if !is_new(draft, name_in(&said)) {
        return Err(WordFault::at(words.len(), AsmFaultKind::NameTwice));
    }
    if !draft.has_room(&said) {
        return Err(WordFault::at(words.len() + 1, AsmFaultKind::TooMany));
    }
    Ok(said)
}

/// Reads the row that `word` begins, after the lines in `draft`. If there is no room for it, `word` has the fault `TooMany`.
#[inline(always)]
#[tactic(auto, unfolding(crate::specs::Reading::row_behind))]
pub fn row_behind<'a>(
    draft: &Draft<'a>,
    word: &[u8],
    words: &[&'a [u8]],
) -> Result<KeptRow<'a>, WordFault>
    ensures { (label : Option Name) → seen (λ row. statement.Row label (row_kept row)) result
        ≡ row_behind draft.now label word.now (map name_seen words.now) }
{
    let row = row_at(word, words)?;
    if !draft.has_room_for_row() {
        return Err(WordFault::at(words.len() + 1, AsmFaultKind::TooMany));
    }
    Ok(row)
}

/// Reads what follows a label in the line of this number: nothing, or a row. A directive is `MisplacedDirective`.
#[tactic(auto, unfolding(crate::specs::Reading::labelled_behind))]
fn labelled_behind<'a>(
    draft: &Draft<'a>,
    number: u64,
    label: &'a [u8],
    words: &[&'a [u8]],
) -> Result<KeptLine<'a>, WordFault>
    ensures said { seen statement_kept result
        ≡ labelled_behind draft.now label.now (map name_seen words.now) }
    ensures number { IfOk result (λ line. number_kept line ≡ number) }
{
    match words {
        [] => Ok(KeptLine::Label(number, label)),
        [word, operands @ ..] => {
            if is_directive(*word) {
                return Err(WordFault::at(words.len(), AsmFaultKind::MisplacedDirective));
            }
            let row = row_behind(draft, *word, operands)?;
            Ok(KeptLine::LabelledRow(number, label, row))
        }
    }
}

/// Reads the label `word` in the line of this number, and what follows it. The label has to be a new name.
#[tactic(auto, unfolding(crate::specs::Reading::statement_behind))]
pub fn label_behind<'a>(
    draft: &Draft<'a>,
    number: u64,
    word: &'a [u8],
    words: &[&'a [u8]],
) -> Result<KeptLine<'a>, WordFault>
    requires { is_label word.now ≡ true }
    ensures said { seen statement_kept result
        ≡ statement_behind draft.now word.now (map name_seen words.now) }
    ensures number { IfOk result (λ line. number_kept line ≡ number) }
{
    // A fault's place is the count of the words from the wrong one on: here the label, and all words after it.
    let left = words.len() + 1;
    let label = read_at(left, name_at(before_last(word)))?;
    if draft.is_given(label) {
        return Err(WordFault::at(left, AsmFaultKind::NameTwice));
    }
    labelled_behind(draft, number, label, words)
}
