// What a line of a trace names.
ghost use Rattle.std.specs.Prelude.{◌≡◌, ◌≤◌};
ghost use Rattle.thread_machine.specs.declared.choice.Choice.{Choice};
ghost use Rattle.trace_compare.specs.{declared.line_names.LineNames.TheVariants.Made, Naming.line_names};

use thread_machine::Choice;
use trace_text::trace_line::{choice_in, is_state_line};

/// The most bytes in a line of a trace, without its LF.
const MOST_BYTES: usize = 65_536;

/// What a line names.
#[derive(Clone, Copy, PartialEq, Eq)]
pub enum LineNames {
    /// A choice.
    Made(Choice),
    /// The state, which ends the choices.
    State,
    /// Neither: it is no line of a trace.
    Nothing,
}

/// Returns what a line without its LF names: `Nothing` if the line has more than 65,536 bytes.
pub(crate) fn line_names(line: &[u8]) -> LineNames
    ensures names { result ≡ line_names line.now }
    ensures thread { (choice : Choice) → result ≡ Made choice → choice.thread ≤ 63 }
{
    if line.len() > MOST_BYTES {
        return LineNames::Nothing;
    }
    match choice_in(line) {
        Some(choice) => LineNames::Made(choice),
        None if is_state_line(line) => LineNames::State,
        None => LineNames::Nothing,
    }
}
