//! The schedule that a live run writes: a token for each choice.
ghost use Rattle.std.specs.Prelude.{◌≡◌, ◌+◌, ◌≤◌, ◌++◌, ◌∷◌, [], All, List, None};
ghost use Rattle.std.specs.Vec.{vec_len, vec_capacity};
ghost use Rattle.thread_machine.specs.declared.choice.Choice.{Choice};
ghost use Rattle.schedule_reader.specs.{Schedule.finished_schedule, Schedule.run_of, Text.token_of};
ghost use Rattle.schedule_reader.specs.Record.{IsNamed, once_each, record_text};

use thread_machine::Choice;

/// The most bytes that a choice takes in a record: the space before it, its letter and two digits.
pub const MOST_CHOICE_BYTES: usize = 4;

/// Appends one choice to a text that names each of its choices separately. The caller has made room for its 4 bytes.
pub fn push_choice(text: &mut Vec<u8>, choice: Choice)
    requires room { vec_len text.old + 4 ≤ vec_capacity text.old }
    requires thread { choice.thread ≤ 63 }
    ensures { (choices : List Choice) → text.old.items ≡ record_text choices
        → text.new.items ≡ record_text (choices ++ choice ∷ []) }
{
    if !text.is_empty() {
        text.push_reserved(b' ');
    }
    push_once(text, choice);
}

/// Appends a choice as a token, with no space before it. The caller has made room for its 3 bytes.
fn push_once(text: &mut Vec<u8>, choice: Choice)
    requires room { vec_len text.old + 3 ≤ vec_capacity text.old }
    requires thread { choice.thread ≤ 63 }
    ensures { text.new.items ≡ text.old.items ++ token_of (run_of choice 1) }
{
    text.push_reserved(if choice.expiry { b'x' } else { b't' });
    if choice.thread > 9 {
        text.push_reserved(b'0' + choice.thread / 10);
    }
    text.push_reserved(b'0' + choice.thread % 10);
}

/// A law: if choices of threads from 0 to 63 are recorded as a text, the text is read as exactly these choices.
pub fn a_record_is_read_as_its_choices()
    ensures { (choices : List Choice) → All IsNamed choices
        → finished_schedule (record_text choices) ≡ record { runs = once_each choices; fault = None } }
{}
