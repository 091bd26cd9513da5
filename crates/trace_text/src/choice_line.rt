ghost use Rattle.std.specs.Prelude.{◌≡◌, ◌+◌, ◌<◌, ◌^◌, []};
ghost use Rattle.trace_text.specs.Lines.{event_text, refusal_text};

use crate::digits::Digits;
use crate::line::{put_played, put_refused};
use crate::line_end::LineEnd;
use std::marker::Model;
use thread_machine::{Choice, Event};

/// The line of a choice. It keeps its buffer and its number's digits for the next choice: mostly only the last digit changes.
#[derive(Drop)]
pub struct ChoiceLine {
    text: LineEnd,
    number: Digits,
}

impl Model for ChoiceLine {
    ghost use Rattle.std.specs.Prelude.{List, ℕ};

    ghost Value = { List ℕ };

    ghost view = { λ line. line.text };
}

impl ChoiceLine {
    /// Returns an empty line, of no choice yet.
    pub fn new() -> ChoiceLine
        ensures { result ≡ [] }
    {
        ChoiceLine {
            text: LineEnd::new(),
            number: Digits::new(),
        }
    }

    /// Returns the bytes of the line, with its LF.
    pub fn as_slice(&self) -> &[u8]
        ensures { result.now ≡ self.now }
    {
        self.text.as_slice()
    }

    /// Makes this the line of choice number `step`, which a thread at row `pc` has played.
    #[inline(always)]
    pub fn put_event(&mut self, step: u64, choice: Choice, pc: u16, event: &Event)
        requires { step + 1 < 2 ^ 64 }
        ensures { self.new ≡ event_text step choice pc event.now }
    {
        put_played(&mut self.text, choice, pc, event);
        self.number.move_to(step);
        self.text.put_digits(&self.number);
    }

    /// Makes this the line of refused choice `step`: it says `limit` and the thread's row `pc`, or `none` for no such thread.
    pub fn put_refusal(&mut self, step: u64, choice: Choice, pc: Option<u16>)
        requires { step + 1 < 2 ^ 64 }
        ensures { self.new ≡ refusal_text step choice pc }
    {
        put_refused(&mut self.text, choice, pc);
        self.number.move_to(step);
        self.text.put_digits(&self.number);
    }
}
