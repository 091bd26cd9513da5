use crate::entry::Entry;

/// What ends the program besides a refused input.
pub static ENDING: [Entry; 7] = entries! {
    // A picture that would be too long.
    "refused show 1000000", "docs/TRACES.md, \"Page\"", ["show"] ["show" "1000000"]:
        "the schedule has more choices than a page plays",
        "a schedule of at most 1000000 choices",
        "printf '.thread t #0\\nhalt\\n.run\\nt0*1000001\\n' > a.txt; vuthgal show a.txt";
    "refused show 16777216", "docs/TRACES.md, \"Page\"", ["show" "16777216"]:
        "the trace of the run has more bytes than a page has room for",
        "a shorter schedule: a trace of at most 16777216 bytes",
        "printf '.thread t #0\\nhalt\\n.run\\nt0*1000000\\n' > a.txt; vuthgal show a.txt";
    "refused draw 2000", "docs/TRACES.md, \"Picture\"", ["draw"] ["draw" "2000"]:
        "the schedule has more choices than a picture shows",
        "a schedule of at most 2000 choices; in a plan a count, as in `..*200`",
        "printf '.thread t #0\\nhalt\\n.run\\nt0*2001\\n' > a.txt; vuthgal draw a.txt";
    // What else ends the program.
    "memory", "docs/COMMANDS.md, \"Exit statuses\"", ["memory"] ["fault" "_" "memory"]:
        "out of memory",
        "more memory, or a shorter input",
        "none: it depends on the machine";
    "spawn", "docs/COMMANDS.md, \"Exit statuses\"", ["spawn"]:
        "the system couldn't start a thread",
        "fewer threads, or higher limits: `ulimit -u`, `ulimit -v`",
        "none: it depends on the machine";
    "read", "docs/COMMANDS.md, \"Exit statuses\"", ["read"]:
        "a file or standard input can't be read, doesn't exist, or is too long",
        "an existing file of up to 16777216 bytes",
        "vuthgal list no-such-file";
    "write", "docs/COMMANDS.md, \"Exit statuses\"", ["write"]:
        "standard output or OUT can't be written, or OUT is the file SRC",
        "free space, permission to write, another OUT",
        "vuthgal --help > /dev/full";
};
