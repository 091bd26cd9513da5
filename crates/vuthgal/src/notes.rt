//! What a person at a terminal reads besides the output, if the command may do something else than was meant.

use byte_ports::{Sink, WritePort};
use command_line::ports::printable;
use fault_reports::report::Report;
use std::io::IsTerminal;

/// Writes a text to standard error if that is a terminal. A note that can't be written is left out.
fn push_note(rt: &HostRuntime, text: &[u8]) {
    if rt.stderr().is_terminal() {
        let _ = WritePort::new(printable::errors(rt)).push(text);
    }
}

/// Says to a person what is waited for, if standard input is a terminal.
pub fn push_waiting(report: &Report<'_>, text: &[u8]) {
    if report.rt.stdin().is_terminal() {
        push_note(report.rt, text);
    }
}

/// Tells a person if a plan that is an argument plays nothing, or not all of what may have been meant.
pub fn push_odd_plan(report: &Report<'_>, plan: &str) {
    if plan.trim().is_empty() {
        report.help("the plan is empty: `..` plays all threads in turn");
    } else if plan.find(';').is_some() {
        report.help("`;` begins a comment in a plan: the rest isn't played");
    } else if plan.find("()").is_some() {
        report.help(
            "empty parentheses play nothing: a count follows choices, as in `( ann. bob. )*3`",
        );
    }
}

/// Tells a person whose terminal the page would go to how to write it to a file.
pub fn push_page_on_terminal(report: &Report<'_>) {
    if report.rt.stdout().is_terminal() {
        push_note(
            report.rt,
            b"a page is for a browser: `show .. > page.html` writes it to a file\n",
        );
    }
}
