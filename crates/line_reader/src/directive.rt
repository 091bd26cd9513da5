//! Directives: `.phaser`, `.barrier`, `.thread` and `.cell`.
ghost use Rattle.std.specs.Prelude.{◌≡◌, map};
ghost use Rattle.line_reader.specs.Seen.{seen, name_seen, statement_seen};
ghost use Rattle.line_reader.specs.Reading.{cell_at, directive_at, is_directive};

use crate::asm_fault::{AsmFaultKind, WordFault, read_at};
use crate::name::name_at;
use crate::statement::Statement;
use crate::symbolic_barrier::barrier_at;
use crate::symbolic_phaser::phaser_at;
use crate::symbolic_thread::thread_at;
use crate::words::is_word;

/// Returns whether a word is `.phaser`, `.barrier`, `.thread` or `.cell`. It tests the dot first: few words begin with one.
#[inline(always)]
pub fn is_directive(word: &[u8]) -> bool
    ensures { result ≡ is_directive word.now }
{
    match word {
        [b'.', ..] => {
            is_word(word, ".phaser")
                || is_word(word, ".barrier")
                || is_word(word, ".thread")
                || is_word(word, ".cell")
        }
        _ => false,
    }
}

/// Reads the words after `.cell`: one name. With no word or more than one, `.cell` has the fault `OperandCount`.
#[tactic(auto, unfolding(crate::specs::Reading::cell_at))]
fn cell_at<'a>(words: &[&'a [u8]]) -> Result<&'a [u8], WordFault>
    ensures { seen name_seen result ≡ cell_at (map name_seen words.now) }
{
    match words {
        [name] => read_at(words.len(), name_at(*name)),
        _ => Err(WordFault::at(words.len() + 1, AsmFaultKind::OperandCount)),
    }
}

/// Reads the directive that `word` begins. The caller has checked `is_directive`, so a word other than these three is `.cell`.
#[tactic(auto, unfolding(crate::specs::Reading::directive_at))]
pub fn directive_at<'a>(word: &[u8], words: &[&'a [u8]]) -> Result<Statement<&'a [u8]>, WordFault>
    ensures { seen statement_seen result ≡ directive_at word.now (map name_seen words.now) }
{
    if is_word(word, ".phaser") {
        Ok(Statement::Phaser(phaser_at(words)?))
    } else if is_word(word, ".barrier") {
        Ok(Statement::Barrier(barrier_at(words)?))
    } else if is_word(word, ".thread") {
        Ok(Statement::Thread(thread_at(words)?))
    } else {
        Ok(Statement::Cell(cell_at(words)?))
    }
}
