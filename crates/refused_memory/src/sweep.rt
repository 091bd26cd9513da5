//! The sweep that all calls have: each request for memory of a call is refused in turn, and the results are written.

use crate::marks;
use crate::trial::{Answer, Trial, Tried};
use std::alloc::Global;
use std::io;

/// The result of all trials of a call.
#[derive(Clone, Copy)]
enum Outcome {
    /// So many requests were refused in turn. Each time the call was right, or reported out of memory (`memory` times).
    Refused { requests: u16, memory: u16 },
    /// With this request refused the call did neither, or left blocks of memory in use, or its requests had no end.
    Wrong(u16),
}

/// The most requests of one call that are refused in turn.
const MOST: u16 = 60_000;

/// Tries a call with its first request for memory refused, then its second, and so on, until it makes no more. With `all` the
/// later requests are refused, too. A wrong answer ends the sweep, and so do blocks of memory that are still in use.
fn swept<F: Fn(Trial) -> Tried>(alloc: Global, all: bool, call: &F) -> Outcome
    requires { F.IsAlwaysCallable call.now }
{
    let mut memory = 0u16;
    for request in 1..=MOST {
        marks::count(alloc);
        let answer = call(Trial {
            alloc,
            request,
            all,
        });
        if marks::is_left_over(alloc) {
            return Outcome::Wrong(request);
        }
        match (answer, marks::end(alloc)) {
            (Ok(Answer::Right), false) => {
                let requests = request - 1;
                return Outcome::Refused { requests, memory };
            }
            // A `Vec` asks again for as much when it is refused, so a call may be right though a request was refused.
            (Ok(Answer::Right), true) => {}
            (Ok(Answer::Memory), true) => memory = memory.saturating_add(1),
            _ => return Outcome::Wrong(request),
        }
    }
    Outcome::Wrong(MOST)
}

/// Returns in words whether both calls, the second with a longer run, make as many requests. `many` is 0 without the library.
fn compared(short: Outcome, long: Outcome) -> &'static str {
    match (short, long) {
        (Outcome::Refused { requests: few, .. }, Outcome::Refused { requests: many, .. }) => {
            match many {
                0 => "right, and nothing was refused",
                _ if few == many => "as many requests",
                _ => "another number of requests",
            }
        }
        _ => "WRONG",
    }
}

/// Where trials get their memory, and where their results are written.
#[derive(Drop)]
pub struct Trials<'a> {
    pub rt: &'a HostRuntime,
    pub alloc: Global,
    /// Whether all results have been written. After one that is not, no call is tried.
    pub written: io::Result<()>,
}

impl<'a> Trials<'a> {
    /// Tries the call named `name` twice, and writes a line for each: with each request refused alone, and with all later ones.
    pub fn tell<F: Fn(Trial) -> Tried>(&mut self, name: &str, call: F)
        requires { F.IsAlwaysCallable call }
    {
        self.try_once(name, false, &call);
        self.try_once(name, true, &call);
    }

    /// Tries a call with each request refused, with `all` also all later ones, and writes a line, unless writing has failed.
    fn try_once<F: Fn(Trial) -> Tried>(&mut self, name: &str, all: bool, call: &F)
        requires { F.IsAlwaysCallable call.now }
    {
        if self.written.is_ok() {
            let outcome = swept(self.alloc, all, call);
            let which = if all {
                "each with all behind it"
            } else {
                "each request alone"
            };
            self.written = self.write(name, which, outcome);
        }
    }

    /// Writes the result of a call as one line, with the call's name. If requests were refused, the line says `which`.
    fn write(&self, name: &str, which: &str, outcome: Outcome) -> io::Result<()> {
        let came = match outcome {
            Outcome::Refused { requests: 0, .. } => {
                return println!(self.rt; "{name}: right, and nothing was refused");
            }
            Outcome::Refused { memory: 0, .. } => "never Memory",
            Outcome::Refused { .. } => "Memory, or right without it, each time",
            Outcome::Wrong(request) => {
                return println!(self.rt; "{name}, {which} refused: WRONG at request {request}");
            }
        };
        println!(self.rt; "{name}, {which} refused: {came}")
    }

    /// Tries both calls with each request for memory refused alone, and writes whether they make as many requests (or `WRONG`).
    /// `long` has ten times the tokens or lines of `short`: the number of requests should not depend on that.
    pub fn tell_counts<F: Fn(Trial) -> Tried, G: Fn(Trial) -> Tried>(
        &mut self,
        name: &str,
        short: F,
        long: G,
    )
        requires short { F.IsAlwaysCallable short }
        requires long { G.IsAlwaysCallable long }
    {
        if self.written.is_ok() {
            let short = swept(self.alloc, false, &short);
            let came = compared(short, swept(self.alloc, false, &long));
            self.written = println!(self.rt; "{name}: {came}");
        }
    }
}
