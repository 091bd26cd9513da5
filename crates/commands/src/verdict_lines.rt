//! What follows a verdict.
ghost use Rattle.std.specs.Prelude.{◌≡◌, ◌++◌, IfOk, OnOk, codes, option_map};
ghost use Rattle.commands.specs.Showing.{StandsBehind, line_behind, wanted};

use std::alloc::{AllocError, Global};
use trace_compare::{Judged, Verdict};

/// Appends a word, a blank, a line and an LF, or only the word and an LF if there is no line.
fn push_line(text: &mut Vec<u8>, word: &[u8], line: Option<&[u8]>) -> Result<(), AllocError>
    ensures { OnOk result (text.new.items ≡ text.old.items ++ line_behind word.now (option_map (λ l. l.now) line.entry)) }
{
    text.extend_from_slice(word)?;
    if let Some(line) = line {
        text.extend_from_slice(b" ")?;
        text.extend_from_slice(line)?;
    }
    text.extend_from_slice(b"\n")
}

/// Returns the lines `trace ..` and `run ..`, each with only the word if there is no such line.
fn differing(alloc: Global, trace: Option<&[u8]>, run: Option<&[u8]>) -> Result<Vec<u8>, AllocError>
    ensures { IfOk result (λ text. text.items ≡ line_behind (codes "trace") (option_map (λ l. l.now) trace.entry)
        ++ line_behind (codes "run") (option_map (λ l. l.now) run.entry)) }
{
    let mut text = Vec::new(alloc);
    push_line(&mut text, b"trace", trace)?;
    push_line(&mut text, b"run", run)?;
    Ok(text)
}

/// Returns the line `trace ..`, or only its word if `trace` is `None`, and a line that says what a trace's line may be.
fn not_a_trace(alloc: Global, trace: Option<&[u8]>) -> Result<Vec<u8>, AllocError>
    ensures { IfOk result (λ text. text.items ≡ line_behind (codes "trace") (option_map (λ l. l.now) trace.entry) ++ wanted) }
{
    let mut text = Vec::new(alloc);
    push_line(&mut text, b"trace", trace)?;
    text.extend_from_slice(
        b"wanted STEP tN ROW WHAT, STEP xN ROW WHAT, or the lines of a state, from state CHOICES STEPS WORD on\n",
    )?;
    Ok(text)
}

/// Returns the lines that follow a verdict: none for `Same`. `Differs`: the trace's line and the run's. `NotATrace`: the
/// trace's line, and what it may be.
pub fn shown(alloc: Global, judged: &Judged) -> Result<Vec<u8>, AllocError>
    ensures { IfOk result (λ text. StandsBehind judged.now.told.verdict judged.now.trace judged.now.told.line text.items) }
{
    match judged.verdict() {
        Verdict::Same => Ok(Vec::new(alloc)),
        Verdict::Differs { .. } => {
            let run = judged.run_line(alloc)?;
            let run = run.as_ref().map(|line| line.as_slice());
            differing(alloc, judged.trace_line(), run)
        }
        Verdict::NotATrace { .. } => not_a_trace(alloc, judged.trace_line()),
    }
}
