use crate::entry::Entry;

/// A program that names a row that doesn't exist, or declares a phaser that can't be made.
pub static LOAD_PLACE: [Entry; 2] = entries! {
    "refused load 1 PLACE", "docs/FORMATS.md, \"Load faults\"", ["load" "1"] ["load" "1" "row" " row"]
        ["load" "1" "thread" " thread"] ["load" "1" "phaser" " phaser"] ["load" "1" "barrier" " barrier"]:
        "Target: this place names a row that doesn't exist",
        "a row of the program, from 0; a label needs a row after it",
        "printf '.thread t #9\\nhalt\\n' | vuthgal";
    "refused load 7 PHASER FAULT", "docs/FORMATS.md, \"Load faults\"", ["load" "7"] ["load" "7" " phaser"]:
        "Declare: this phaser can't be declared",
        "`vuthgal explain declare FAULT` says why",
        "printf '.phaser p 1 parent #0\\n.thread t #0\\nhalt\\n' | vuthgal";
};

/// A program that isn't loaded for another reason.
pub static LOAD: [Entry; 7] = numbered! { "refused ", "load", "docs/FORMATS.md, \"Load faults\"";
    2: "FallsOff: a thread could run past the last row",
        "halt, jmp, ret or throw as the last row",
        "printf '.thread t #0\\nldi r0 5\\n' | vuthgal";
    3 ROW: "NoSuchPhaser: this row names a phaser that isn't declared",
        "a .phaser line for it; the first is #0",
        "printf '.thread t #0\\npphase r0 #0\\nhalt\\n' | vuthgal";
    4 ROW: "NoSuchBarrier: this row names a barrier that isn't declared",
        "a .barrier line for it; the first is #0",
        "printf '.thread t #0\\ncreset #0\\nhalt\\n' | vuthgal";
    5 ROW: "NoSuchThread: this row names a thread that isn't declared",
        "a .thread line for it; the first is #0",
        "printf '.thread t #0\\nintr #1\\nhalt\\n' | vuthgal";
    6 ROW: "NoSuchCell: this row names a cell that doesn't exist",
        "the cells #0 to #31",
        "printf '.thread t #0\\nlds r0 #32\\nhalt\\n' | vuthgal";
    8 BARRIER: "BarrierParties: this barrier has no parties",
        "1 to 65535 parties",
        "printf '.barrier b 0\\n.thread t #0\\nhalt\\n' | vuthgal";
    9: "NoThread: the program has no thread",
        "a .thread line",
        "printf 'halt\\n' | vuthgal";
};
