//! The program: finds the command that its arguments request, opens the files, and passes them to the command.
//!
//! Each command is a function of a library, over ports. This crate connects the commands with the system:
//!
//! - `run`, `picture`, `live`, `text`, `trace`, `plan` and `debug` have the commands, with the ports that each gets.
//! - `arguments`, `input` and `steps` read the arguments, files and streams.
//! - `expectation` and `notes` show a person more than the output.
//!
//! `fault_reports` reports each failure.
#![tactic(auto)]

mod arguments;
mod debug;
mod expectation;
mod input;
mod live;
mod notes;
mod origin;
mod picture;
mod plan;
mod run;
mod steps;
mod text;
mod trace;

use arguments::requested;
use command_line::request::Request;
use fault_reports::report::Report;
use std::process::ExitCode;

/// Does what the arguments ask for, and returns the exit status.
fn main(rt: HostRuntime) -> ExitCode {
    let words = match arguments::given(&rt) {
        Ok(words) => words,
        Err(no_command) => return ExitCode::from(no_command.report(&rt, &[])),
    };
    let (request, when) = match requested(&rt, words.as_slice()) {
        Ok(both) => both,
        Err(no_command) => return ExitCode::from(no_command.report(&rt, words.as_slice())),
    };
    let report = Report::new(&rt, when);
    let answer = match request {
        Request::Run {
            file,
            steps,
            expected,
        } => run::run(&report, file, steps, expected.as_slice()),
        Request::Asm { source, image } => text::asm(&report, source, image),
        Request::List { file, has_rows } => text::list(&report, file, has_rows),
        Request::Explain { words } => text::explain(&report, words.as_slice()),
        Request::Compare {
            file,
            trace,
            is_shown,
        } => trace::compare(&report, file, trace, is_shown),
        Request::Choices { trace } => trace::choices(&report, trace),
        Request::Debug { file, steps } => debug::debug(&report, file, steps),
        Request::Show { file, steps } => picture::show(&report, file, steps),
        Request::Draw { file, steps, width } => picture::draw(&report, file, steps, width),
        Request::Live {
            file,
            limit,
            seed,
            runs,
            expected,
        } => live::live(&rt, &report, file, limit, seed, runs, expected.as_slice()),
        Request::Race { parties, rounds } => live::race(&rt, &report, parties, rounds),
        Request::Plan {
            file,
            plan,
            has_names,
            orders,
        } => match orders {
            None => plan::plan(&report, file, plan, has_names),
            Some(orders) => plan::seeds(&report, file, plan, has_names, &orders),
        },
    };
    ExitCode::from(match answer {
        Ok(done) => done.status(),
        Err(reported) => reported.status,
    })
}
