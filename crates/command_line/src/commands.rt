//! The table of the commands: their arguments and options, other names, and their help. `clap` reads the words by it.

use crate::texts;
use clap::builder::ValueParser;
use clap::{Arg, ArgAction, Command};
use std::alloc::{AllocError, Global};

/// How an argument is given on a command line.
#[derive(Clone, Copy)]
pub enum Kind {
    /// In its place, and required.
    Needed,
    /// In its place, if there is one.
    Given,
    /// In its place, as many as there are.
    Several,
    /// `--NAME`.
    Flag,
    /// `--NAME VALUE`.
    Value(&'static str, Rule),
    /// `--NAME N`, a number from the first to the second.
    Number(&'static str, i64, i64, Rule),
}

/// How often a value is given, and with what.
#[derive(Clone, Copy)]
pub enum Rule {
    /// Once, or not at all.
    Once,
    Often,
    Needed,
    /// Once, and only together with this option.
    With(&'static str),
    OftenWith(&'static str),
    /// Once, and not together with these arguments.
    Instead(&'static [&'static str]),
    /// This is the value if it isn't given.
    Default(&'static str),
}

/// An argument or an option of a command: its name, how it is given, and its help.
#[derive(Clone, Copy)]
pub struct Word(pub &'static str, pub Kind, pub &'static str);

/// A command: its name, what it is called otherwise, its help in a line, and its arguments in order.
#[derive(Clone, Copy)]
pub struct Subcommand {
    pub name: &'static str,
    pub aliases: &'static [&'static str],
    pub about: &'static str,
    pub words: &'static [Word],
}

const FILE: Word = Word(
    "FILE",
    Kind::Needed,
    "A program text, or an image: it begins with PBW1 or PBW2",
);

const SCHEDULE: Word = Word(
    "SCHEDULE",
    Kind::Given,
    "The file of the schedule, or `-` for standard input",
);

const TRACE: Word = Word(
    "TRACE",
    Kind::Needed,
    "The file of the trace, or `-` for standard input",
);

const PLAN: Word = Word(
    "plan",
    Kind::Value("PLAN", Rule::Instead(&["SCHEDULE"])),
    "Plays this plan instead of a schedule, such as 'ann. bob.'",
);

const PLAN_FILE: Word = Word(
    "plan-file",
    Kind::Value("FILE", Rule::Instead(&["SCHEDULE", "plan"])),
    "Plays the plan in this file instead of a schedule",
);

const EXPECT: Word = Word(
    "expect",
    Kind::Value("STATE", Rule::Often),
    "Exits with 1 if the run ends differently; can be repeated",
);

/// The commands, in the order of the help.
static COMMANDS: [Subcommand; 12] = [
    Subcommand {
        name: "asm",
        aliases: &["assemble", "compile", "build"],
        about: "Assembles a program text into an image",
        words: &[
            Word("SRC", Kind::Needed, "The file of the program text"),
            Word("OUT", Kind::Needed, "The file that the image is written to"),
        ],
    },
    Subcommand {
        name: "list",
        aliases: &["disasm", "disassemble", "dump"],
        about: "Writes the canonical text of a program",
        words: &[
            FILE,
            Word(
                "rows",
                Kind::Flag,
                "Writes each row with its number, and for a text its line",
            ),
        ],
    },
    Subcommand {
        name: "run",
        aliases: &["play", "exec", "execute", "replay", "simulate"],
        about: "Plays a program under a schedule and writes the trace",
        words: &[FILE, SCHEDULE, EXPECT, PLAN, PLAN_FILE],
    },
    Subcommand {
        name: "compare",
        aliases: &["diff", "verify"],
        about: "Compares a trace with the run that it names",
        words: &[
            FILE,
            TRACE,
            Word(
                "show",
                Kind::Flag,
                "Writes the two lines that differ, or what a line has to be",
            ),
        ],
    },
    Subcommand {
        name: "debug",
        aliases: &["step", "gdb"],
        about: "Plays a program by commands, forwards and backwards",
        words: &[
            FILE,
            Word(
                "at",
                Kind::Value("TRACE", Rule::Once),
                "Begins after the choices of the trace in this file",
            ),
            Word(
                "plan",
                Kind::Value("PLAN", Rule::Instead(&["at"])),
                "Begins after the choices of this plan, such as 'ann. bob.'",
            ),
            Word(
                "plan-file",
                Kind::Value("FILE", Rule::Instead(&["at", "plan"])),
                "Begins after the choices of the plan in this file",
            ),
        ],
    },
    Subcommand {
        name: "show",
        aliases: &["page", "html", "view"],
        about: "Writes a page that shows a run",
        words: &[FILE, SCHEDULE, PLAN, PLAN_FILE],
    },
    Subcommand {
        name: "draw",
        aliases: &["picture", "diagram", "graph"],
        about: "Draws a run as text",
        words: &[
            FILE,
            SCHEDULE,
            Word(
                "width",
                Kind::Number("N", 60, 1000, Rule::Default("80")),
                "The longest line in bytes, 60 to 1000",
            ),
            PLAN,
            PLAN_FILE,
        ],
    },
    Subcommand {
        name: "live",
        aliases: &["stress"],
        about: "Plays a program on real threads and writes the trace",
        words: &[
            FILE,
            Word(
                "limit",
                Kind::Number("N", 1, 1_000_000_000, Rule::Default("1000000")),
                "How many steps at most, 1 to 1000000000",
            ),
            Word(
                "stir",
                Kind::Number("SEED", 0, 4_294_967_295, Rule::Once),
                "Makes threads pause before some of their turns, 0 to 4294967295",
            ),
            Word(
                "runs",
                Kind::Number("N", 1, 100_000, Rule::Once),
                "Plays N runs and counts how they end, 1 to 100000",
            ),
            EXPECT,
        ],
    },
    Subcommand {
        name: "race",
        aliases: &[],
        about: "Lets real threads meet at a shared phaser",
        words: &[
            Word(
                "parties",
                Kind::Number("N", 1, 16, Rule::Needed),
                "How many threads, 1 to 16",
            ),
            Word(
                "rounds",
                Kind::Number("R", 1, 1_000_000, Rule::Needed),
                "How many phases, 1 to 1000000",
            ),
        ],
    },
    Subcommand {
        name: "choices",
        aliases: &[],
        about: "Writes the schedule of a trace",
        words: &[TRACE],
    },
    Subcommand {
        name: "plan",
        aliases: &[],
        about: "Writes the schedule of a plan",
        words: &[
            FILE,
            Word(
                "PLAN",
                Kind::Given,
                "The file of the plan, or `-` for standard input",
            ),
            Word(
                "seeds",
                Kind::Value("FROM..TO", Rule::Once),
                "Counts how the runs of these seeds end, such as 1..1000",
            ),
            Word(
                "limit",
                Kind::Number("N", 1, 1_000_000, Rule::With("seeds")),
                "With --seeds: how many choices of each seed, 1 to 1000000",
            ),
            Word(
                "expect",
                Kind::Value("STATE", Rule::OftenWith("seeds")),
                "With --seeds: exits with 1 if a run ends differently; can be repeated",
            ),
            Word(
                "names",
                Kind::Flag,
                "Writes the names of the threads instead of their numbers",
            ),
        ],
    },
    Subcommand {
        name: "explain",
        aliases: &[],
        about: "Says what an error, a trace's line or an instruction means",
        words: &[Word(
            "WORD",
            Kind::Several,
            "The words of a line on standard error, such as `refused asm 2 5`",
        )],
    },
];

impl Word {
    /// Returns the argument or option for `clap`.
    fn arg<'a>(&self, alloc: Global) -> Result<Arg<'a>, AllocError> {
        let Word(name, kind, help) = *self;
        let arg = Arg::new(alloc, name).help(help);
        let (arg, rule) = match kind {
            Kind::Needed => (arg, Rule::Needed),
            Kind::Given => (arg, Rule::Once),
            Kind::Several => (arg, Rule::Often),
            Kind::Flag => (arg.long(name).action(ArgAction::SetTrue), Rule::Once),
            Kind::Value(value, rule) => (arg.long(name).value_name(value), rule),
            Kind::Number(value, least, most, rule) => (
                arg.long(name)
                    .value_name(value)
                    .allow_negative_numbers(true)
                    .value_parser(ValueParser::signed(least, most)),
                rule,
            ),
        };
        match rule {
            Rule::Once => Ok(arg),
            Rule::Often => Ok(arg.action(ArgAction::Append)),
            Rule::Needed => Ok(arg.required(true)),
            Rule::With(other) => arg.requires_arg(other),
            Rule::OftenWith(other) => arg.action(ArgAction::Append).requires_arg(other),
            Rule::Instead(others) => arg.conflicts_with_all(others),
            Rule::Default(value) => Ok(arg.default_value(value)),
        }
    }
}

impl Subcommand {
    /// Returns the command for `clap`, with its arguments and its help.
    fn command<'a>(&self, alloc: Global) -> Result<Command<'a>, AllocError> {
        let mut command = Command::new(alloc, self.name)
            .about(self.about)
            .long_about(texts::of(self.name))
            .after_help(texts::STATUSES)
            .aliases(self.aliases)?;
        for word in self.words {
            command = command.arg(word.arg(alloc)?)?;
        }
        Ok(command)
    }
}

/// Returns the option `--explain WHEN` of the program and of each command. If it is given several times, the last one counts.
fn explain<'a>(alloc: Global) -> Result<Arg<'a>, AllocError> {
    Arg::new(alloc, "explain")
        .long("explain")
        .value_name("WHEN")
        .value_parser(["always", "auto", "never"].as_slice())
        .help("Explains what is refused; auto is at a terminal")
        .global(true)
        .overrides_with("explain")
}

/// Returns the program of this version for `clap`, without its commands.
fn bare<'a>(alloc: Global, version: &'a str) -> Result<Command<'a>, AllocError> {
    Command::new(alloc, "vuthgal")
        .version(version)
        .about("Plays programs of threads that call phasers and barriers")
        .long_about(texts::PROGRAM)
        .after_help(texts::STATUSES)
        .arg(EXPECT.arg(alloc)?)?
        .arg(explain(alloc)?)
}

/// Returns the program of this version for `clap`, with its commands.
pub fn program<'a>(alloc: Global, version: &'a str) -> Result<Command<'a>, AllocError> {
    let mut program = bare(alloc, version)?;
    for subcommand in &COMMANDS {
        program = program.subcommand(subcommand.command(alloc)?)?;
    }
    Ok(program)
}
