//! The state that a run ended in.
ghost use Rattle.std.proofs.Common.{◌≡◌, ◌≤◌, ◌++◌, ◌∷◌, [], IfOk, OnOk, bytes_eq, codes, drop, length, rules};
ghost use Rattle.std.specs.Cmp.Rules.{comparing, hashing};
ghost use Rattle.thread_machine.specs.World.{world_of};
ghost use Rattle.commands.specs.Ends.{behind_first_line, end_text, ending_word};

use line_reader::words::length_before;
use std::alloc::{AllocError, Global};
use std::hash::{Hash, Hasher};
use thread_machine::Machine;
use thread_runner::Ending;
use trace_text::state::state_text;

/// The state that a run ended in: its text without the counts of choices and steps, which differ between runs.
#[derive(Drop)]
pub struct EndState {
    pub text: Vec<u8>,
}

impl PartialEq for EndState {
    ghost eq = { λ a b. bytes_eq a.text.items b.text.items };

    ghost laws = { Prim.search (comparing, rules) };

    /// Returns whether both texts have the same bytes.
    fn eq(&self, other: &EndState) -> bool {
        self.text.as_slice() == other.text.as_slice()
    }
}

impl Eq for EndState {
    ghost laws = { Prim.search (comparing, rules) };
}

impl Hash for EndState {
    ghost hash_input = { λ end. end.text.items ∷ [] };

    ghost respects_eq = { Prim.search (hashing, rules) };

    /// Hashes the text, so that an end state can be the key of a map.
    fn hash<H: Hasher>(&self, state: &mut H) {
        state.write(self.text.as_slice());
    }
}

/// Returns the word for how a run ended: `all`, `stuck` or `live`.
pub fn word_of(ending: Ending) -> &'static [u8]
    ensures { result.now ≡ ending_word ending }
{
    ending.standing().name()
}

/// Returns what follows the first line of a text, or nothing if it has only one.
fn behind_first_line(text: &[u8]) -> &[u8]
    ensures { result.now ≡ behind_first_line text.now }
{
    let end = (length_before(b'\n', text) + 1).min(text.len());
    &text[end..]
}

/// Returns the text by which end states are compared: a line of the word `state` and `word`, and then the lines of the text
/// `state` after its first.
fn text_with(alloc: Global, word: &[u8], state: &[u8]) -> Result<Vec<u8>, AllocError>
    ensures { IfOk result (λ text. text.items ≡ codes "state " ++ (word.now ++ (10 ∷ behind_first_line state.now))) }
{
    let mut text = Vec::from_slice(alloc, b"state ")?;
    text.extend_from_slice(word)?;
    text.push(b'\n')?;
    text.extend_from_slice(behind_first_line(state))?;
    Ok(text)
}

impl EndState {
    /// Returns the end state of `machine`, whose run ended as `ending` says.
    pub fn of(alloc: Global, ending: Ending, machine: &Machine) -> Result<EndState, AllocError>
        ensures { IfOk result (λ end. end.text.items ≡ end_text ending (world_of machine.now)) }
    {
        let state = state_text(alloc, machine)?;
        let text = text_with(alloc, word_of(ending), state.as_slice())?;
        Ok(EndState { text })
    }
}
