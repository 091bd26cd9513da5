use crate::entry::Entry;

/// What a choice did, as its line in a trace says.
pub static EVENT: [Entry; 12] = entries! {
    // What the row of a choice did, as the line of a trace says.
    "ok", "docs/TRACES.md, \"Trace text\"", ["ok"] ["_" "_" "_" "ok" ".."]:
        "the choice carried out a row that gives no number",
        "`vuthgal draw` says in words what each choice did",
        "printf '.thread t #0\\njmp #1\\nhalt\\n.run\\nt0\\n' | vuthgal";
    "= VALUE", "docs/TRACES.md, \"Trace text\"", ["="] ["_" "_" "_" "=" ".."]:
        "the choice put VALUE into a register: by its row, or at the end of a wait",
        "the first operand of the row is the register",
        "printf '.thread t #0\\nldi r0 5\\nhalt\\n.run\\nt0\\n' | vuthgal";
    "out VALUE", "docs/TRACES.md, \"Trace text\"", ["_" "_" "_" "out" ".."]:
        "the choice put out VALUE",
        "the state has all that a thread put out, after the word `out` in its line",
        "printf '.thread t #0\\nldi r0 5\\nout r0\\nhalt\\n.run\\nt0*2\\n' | vuthgal";
    "wait", "docs/TRACES.md, \"Trace text\"", ["wait"] ["waits"] ["waiting"] ["_" "_" "_" "wait" ".."]:
        "the thread began to wait, at a phaser or a barrier (there is no `Object.wait`)",
        "it goes on at its next choice after the phase has ended or the barrier has tripped",
        "printf '.phaser p 2\\n.thread t #0\\npaaa r0 p\\nhalt\\n.run\\nt0\\n' | vuthgal";
    // What a choice did to the stack of its thread.
    "throw CODE", "docs/BEHAVIOUR.md, \"Exceptions\"", ["throws"] ["throw" "_"] ["_" "_" "_" "throw" ".."]:
        "the row threw the exception CODE, or a call or a wait ended with it",
        "`vuthgal explain exception 1` to `exception 8` say what a CODE means",
        "printf '.phaser p 0\\n.thread t #0\\nparr r0 p\\nhalt\\n.run\\nt0\\n' | vuthgal";
    "enter", "docs/TRACES.md, \"Trace text\"", ["enter"] ["enters"] ["_" "_" "_" "enter" ".."]:
        "the thread began to run an `onAdvance` routine, or a barrier's action",
        "`ret` at the end of the routine ends the phase, or trips the barrier",
        "printf '.phaser p 1 onadvance #2\\n.thread t #0\\nparr r0 p\\nhalt\\nret\\n.run\\nt0\\n' | vuthgal";
    "unwind", "docs/BEHAVIOUR.md, \"Exceptions\"", ["unwind"] ["unwinds"] ["_" "_" "_" "unwind" ".."]:
        "an exception made the thread leave a call, a routine or an action",
        "`try L` before the row catches the exception",
        "printf '.thread t #0\\ncall #1\\nthrow r0\\n.run\\nt0*3\\n' | vuthgal";
    "catch CODE", "docs/BEHAVIOUR.md, \"Exceptions\"", ["catches"] ["catch" "_"] ["_" "_" "_" "catch" ".."]:
        "a handler took the exception CODE: the thread goes on there, with CODE in r7",
        "`try L` names the label of the handler",
        "printf '.thread t #0\\ntry #2\\nthrow r0\\nhalt\\n.run\\nt0*3\\n' | vuthgal";
    // How a thread ended, that it did nothing, and what ended with it.
    "die CODE", "docs/BEHAVIOUR.md, \"Exceptions\"", ["die"] ["dies"] ["died"] ["dead"] ["die" "_"]
        ["_" "_" "_" "die" ".."]:
        "no handler took the exception CODE, so the thread is dead",
        "`try L` before the row catches the exception",
        "printf '.thread t #0\\nthrow r0\\n.run\\nt0*2\\n' | vuthgal";
    "end", "docs/TRACES.md, \"Trace text\"", ["ends"] ["_" "_" "_" "end" ".."]:
        "the thread ended, by `halt`",
        "`--expect ended` expects that every thread ends",
        "printf '.thread t #0\\nhalt\\n.run\\nt0\\n' | vuthgal";
    "idle", "docs/TRACES.md, \"Trace text\"", ["idle"] ["_" "_" "_" "idle" ".."]:
        "the choice did nothing: its thread can't continue now, has no timed wait that `xN` could end, or has ended or died",
        "a plan makes no such choices with `ann.` and `..`",
        "printf '.thread t #0\\nhalt\\n.run\\nt0*2\\n' | vuthgal";
    "+p0 VALUE", "docs/TRACES.md, \"Trace text\"", ["mark"] ["marks"] ["+p0"] ["+p0" "_"] ["+b0"] ["-b0"]:
        "the choice ended a phase of p0: `getPhase` now returns VALUE; `+b0`: it tripped b0",
        "`-b0` says that the choice broke the barrier, or reset it while threads waited",
        "printf '.phaser p 1\\n.thread t #0\\nparr r0 p\\nhalt\\n.run\\nt0\\n' | vuthgal";
};
