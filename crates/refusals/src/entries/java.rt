use crate::entry::Entry;

/// What Java has, and how it is here.
pub static JAVA: [Entry; 8] = entries! {
    // Tools.
    "locks", "docs/JAVA.md, \"Calls\"", ["locks"] ["lock"] ["synchronized"] ["monitor"] ["mutex"] ["notify"]
        ["notifyAll"] ["condition"] ["ReentrantLock"] ["Semaphore"] ["Exchanger"]:
        "a program has no locks, monitors or semaphores",
        "threads wait only at phasers and barriers, as in `paaa r0 p` and `cawait r0 b`",
        "none: no row is one of these";
    "latch", "docs/LANGUAGE.md, \"Instruction table\"", ["latch"] ["CountDownLatch"] ["countDown"] ["getCount"]:
        "a phaser can be used as a CountDownLatch: each countDown is an arrival",
        "`.phaser p 3`; `parr r0 p` counts down; `pawait r0 p r1` waits until phase r1, at first 0, has ended",
        "none: no row has this name";
    "join", "docs/LANGUAGE.md, \"Directives\"", ["join"] ["start"] ["daemon"] ["Runnable"] ["Executor"]:
        "all threads run from the start, and a run ends with its schedule",
        "`.thread ann main` declares a thread; another waits for its end at a phaser",
        "none: no row has this name";
    "volatile", "docs/LANGUAGE.md, \"Directives\"", ["volatile"] ["atomic"] ["AtomicInteger"] ["memory" "model"]:
        "each step reads what the last step before it wrote: cells are as volatile fields",
        "`.cell sum`; `lds r0 sum` reads it, and `sts r0 sum` writes it",
        "none: no row has this name";
    // Waits, trees, time and loops.
    "spurious wakeup", "docs/PHASER.md, \"Waiting for a phase\"", ["spurious"] ["spurious" "wakeup"]
        ["spurious" "wakeups"] ["wakeup"]:
        "no wait ends without a reason: see the rules of the call",
        "a turn of a thread that has to wait on is `idle` in the trace",
        "none: no wait ends so";
    "tiers", "docs/BEHAVIOUR.md, \"Tiers\"", ["tiering"] ["tiers"] ["tier"] ["tree"] ["child"] ["children"] ["root"]:
        "phasers can have a parent: a child with parties is one party of its parent",
        "`.phaser child 2 parent root`, below the line of the parent",
        "none: no row has this name";
    "time", "docs/PHASER.md, \"Waiting for a time\"", ["time"] ["timeout"] ["expiry"] ["sleep"] ["yield"]:
        "no time passes: the schedule says who goes on, and which timed wait times out",
        "`cawaitt r0 b r1` or `pawaitt r0 p r1 r2`; in a plan `xann` ends ann's wait",
        "none: no row has this name";
    "loop", "docs/LANGUAGE.md, \"Instruction table\"", ["loop"] ["for"] ["while"] ["do"] ["else"] ["goto"] ["label"]:
        "a loop is a jump back to a label",
        "`again: ..` and `blt r0 r1 again`, `bne`, `beq` or `jmp again`",
        "none: `vuthgal explain blt` has one";
};
