use crate::entry::Entry;

/// What a command finds, how a run ends, and what `debug` replies.
pub static FINDING: [Entry; 11] = entries! {
    // What a command finds.
    "not a trace LINE", "docs/COMMANDS.md, \"Comparing\"", ["not" "a" "trace"] ["not" "a" "trace" " line"]:
        "this line of TRACE isn't a line that a trace has there",
        "a trace as `vuthgal run` writes it: choices, then the state",
        "printf '.thread t #0\\nhalt\\n' > a.txt; echo hello | vuthgal compare a.txt -";
    "differs LINE", "docs/COMMANDS.md, \"Comparing\"", ["differs"] ["differs" " line"]:
        "this line of TRACE isn't the run's, byte for byte",
        "`vuthgal compare FILE TRACE --show` writes both lines",
        "printf '.thread t #0\\nhalt\\n' > a.txt; echo 1 t0 0 ok | vuthgal compare a.txt -";
    "expected STATE: LINE", "docs/COMMANDS.md, \"Expected ends\"", ["expected" ".."]:
        "the run didn't end as STATE says: LINE differs or is a refused choice",
        "another schedule, or the STATE in which the run ends",
        "printf '.thread t #0\\nhalt\\n' | vuthgal --expect all";
    "stopped at 1000000 choices", "docs/TRACES.md, \"Plan text\"", ["stopped"] ["stopped" "at" "1000000" "choices"]:
        "the plan needs more choices: only the first 1000000 are written or played",
        "a count after `..`, `?` or `)`, as in `..*50`; with --seeds, `--limit N`",
        "printf '.thread t #0\\njmp #0\\n' > a.txt; echo .. | vuthgal plan a.txt";
    // How a run ends, and a choice that is refused.
    "state CHOICES STEPS stuck", "docs/TRACES.md, \"Trace text\"", ["stuck"] ["state" "_" "_" "stuck"] ["deadlock"]:
        "some threads haven't ended, and none of them can continue",
        "`vuthgal draw` shows where each thread stopped",
        "printf '.phaser p 2\\n.thread t #0\\npaaa r0 p\\nhalt\\n.run\\nt0\\n' | vuthgal";
    "state CHOICES STEPS all", "docs/COMMANDS.md, \"Expected ends\"", ["all"] ["state" "_" "_" "all"] ["ended"]:
        "every thread has ended or died; `--expect ended` expects that none died",
        "a line of the state shows `ended`, or `died:` and the number of the exception",
        "printf '.thread t #0\\nhalt\\n.run\\nt0\\n' | vuthgal";
    "state CHOICES STEPS live", "docs/TRACES.md, \"Trace text\"", ["live"] ["state" "_" "_" "live"]:
        "the run has ended, but some thread can still continue",
        "more choices; `..` at the end of a plan plays all threads in turn",
        "printf '.thread t #0\\nhalt\\n' | vuthgal";
    "none", "docs/TRACES.md, \"Trace text\"", ["none"] ["fault" "_" "none"] ["_" "_" "-" "none"]:
        "a choice of a thread that the program doesn't have",
        "threads are numbered from 0, in the order of their .thread lines",
        "printf '.thread t #0\\nhalt\\n.run\\nt5\\n' | vuthgal";
    // The limit of a run, and what `debug` replies.
    "limit", "docs/TRACES.md, \"Trace text\"", ["limit"] ["fault" "_" "limit"] ["_" "_" "_" "limit"]:
        "the machine has taken as many steps or choices as it can",
        "a shorter schedule",
        "none: it takes 1000000000 steps";
    "?", "docs/COMMANDS.md, \"Debugger commands\"", ["?"]:
        "the line isn't a command of `debug`, or there is no such row",
        "the commands that `vuthgal debug --help` lists",
        "printf '.thread t #0\\nhalt\\n' > a.txt; echo z | vuthgal debug a.txt";
    "no history", "docs/COMMANDS.md, \"Debugger commands\"", ["no" "history"]:
        "there is no choice to take back",
        "`b` takes back at most the last 4096 choices",
        "printf '.thread t #0\\nhalt\\n' > a.txt; echo b | vuthgal debug a.txt";
};
