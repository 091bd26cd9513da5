use crate::entry::Entry;

/// The exit statuses.
pub static STATUS: [Entry; 6] = numbered! { "", "status", "docs/COMMANDS.md, \"Exit statuses\"";
    0: "done: all output was written",
        "nothing is wrong, even if threads are stuck",
        "vuthgal --version";
    1: "a trace differs or isn't one, a run ended differently, a plan stopped",
        "look at the reported line, or at the line `state`",
        "printf '.thread t #0\\nhalt\\n' > a.txt; echo hello | vuthgal compare a.txt -";
    2: "the command line is wrong, and nothing was read",
        "vuthgal --help",
        "vuthgal --speed";
    3: "the input is refused: standard error has a line `refused ..`",
        "`vuthgal explain` with the words of that line",
        "printf 'halt\\n' | vuthgal";
    4: "out of memory or threads: standard error has `memory` or `spawn`",
        "more memory, or fewer threads",
        "none: it depends on the machine";
    5: "a file can't be read or written: standard error has `read` or `write`",
        "`vuthgal explain read` and `vuthgal explain write`",
        "vuthgal list no-such-file";
};
