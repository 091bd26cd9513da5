use crate::entry::Entry;

/// What the program reads and writes.
pub static TERM: [Entry; 12] = entries! {
    // The texts of a run and of its order.
    "trace", "docs/TRACES.md, \"Trace text\"", ["trace"] ["traces"] ["event"] ["events"]:
        "what a run writes: a line for each choice, as `2 t1 0 = 1 +p0 1`, then the state",
        "STEP, the thread, its row, what the choice did, and perhaps a mark: `explain idle`",
        "printf '.thread t #0\\nhalt\\n.run\\nt0\\n' | vuthgal";
    "state", "docs/TRACES.md, \"Trace text\"", ["state"] ["regs"] ["registers"] ["_" "_" "_" "_" "regs" ".."]:
        "the end of a trace: a line for each thread, phaser, barrier and cell",
        "a thread's line has its row, whether it runs, r0 to r7, its stack and what it put out",
        "printf '.thread t #0\\nhalt\\n' | vuthgal";
    "schedule", "docs/TRACES.md, \"Schedule text\"", ["schedule"] ["schedules"] ["choice"] ["choices"] ["turn"]
        ["turns"]:
        "which thread takes each turn: `t0 t1*3 x2`; x2 is the end of thread 2's time",
        "in a file of its own, or after a line `.run` below the program text",
        "printf '.thread t #0\\nhalt\\n.run\\nt0\\n' | vuthgal";
    "plan", "docs/TRACES.md, \"Plan text\"", ["plan"] ["plans"]:
        "a schedule in short: `ann.` plays ann until it waits, `..` all threads in turn",
        "`vuthgal run FILE --plan 'ann. bob*3 ..'`, or `--plan-file PLAN`",
        "printf '.thread t #0\\nhalt\\n' > a.txt; vuthgal run a.txt --plan '..'";
    // What a run begins with, and what a program is.
    "seed", "docs/TESTING.md, \"Look for an order that goes wrong\"", ["seed"] ["seeds"] ["random"] ["shuffle"]:
        "a number that stands for an order of turns: the same number, the same order",
        "`vuthgal plan FILE --seeds 1..1000` counts how the runs of 1000 seeds end",
        "printf '.thread t #0\\nhalt\\n' > a.txt; vuthgal run a.txt --plan '?7'";
    "stray", "docs/PHASER.md, \"Arriving\"", ["stray"] ["strays"]:
        "an arrival by a thread that isn't registered: it takes the place of another",
        "`preg r0 p` registers a party before it arrives",
        "printf '.phaser p 2\\n.thread a #0\\n.thread b #0\\n.thread c #2\\npaaa r0 p\\nhalt\\nparr r0 p\\nhalt\\n.run\\nt0 t2 t0 t1\\n' | vuthgal";
    "image", "docs/FORMATS.md, \"Images\"", ["image"] ["images"] ["binary"]:
        "a program in bytes: `vuthgal asm SRC OUT` writes it, and each FILE can be one",
        "`vuthgal list FILE` writes the program text of an image",
        "printf '.thread t #0\\nhalt\\n' > a.txt; vuthgal asm a.txt a.img";
    "rows", "docs/LANGUAGE.md, \"Instruction table\"", ["rows"] ["row"] ["instructions"] ["instruction"]:
        "a row is an instruction of a program; rows are numbered from 0",
        "`vuthgal explain ROW`: halt ldi mov add sub jmp beq bne blt call ret try endtry throw out lds sts self intr intrd \
            preg pbulk parr pdereg paaa pawait pawaiti pawaitt pforce pphase pparties parrived punarr pterm pparent proot \
            cawait cawaitt creset cbroken cwaiting cparties",
        "printf '.thread t #0\\nhalt\\n' > a.txt; vuthgal list --rows a.txt";
    // The lines of a state behind those of its threads, and the signs of a drawing.
    "p0 PHASE PARTIES ARRIVED UNARRIVED", "docs/TRACES.md, \"Trace text\"", ["p0"]:
        "a phaser in a state: what `getPhase` returns, and its parties, how many have arrived and how many haven't",
        "a negative PHASE is that of a phaser that has terminated",
        "printf '.phaser p 2\\n.thread t #0\\nparr r0 p\\nhalt\\n.run\\nt0\\n' | vuthgal";
    "b0 WAITING BROKEN", "docs/TRACES.md, \"Trace text\"", ["b0"]:
        "a barrier in a state: how many threads have arrived in this generation, and whether it is broken, 0 or 1",
        "a broken barrier throws at each wait, until `creset` resets it",
        "printf '.barrier b 2\\n.thread t #0\\ncawait r0 b\\nhalt\\n.run\\nt0\\n' | vuthgal";
    "c0 VALUE", "docs/TRACES.md, \"Trace text\"", ["c0"]:
        "a cell in a state: its value; a cell that is 0 has no line",
        "`lds a C` reads a cell and `sts a C` writes it",
        "printf '.cell c\\n.thread t #0\\nldi r0 5\\nsts r0 c\\nhalt\\n.run\\nt0*2\\n' | vuthgal";
    "| # : ! ~", "docs/TRACES.md, \"Picture\"", ["|"] ["#"] [":"] ["!"] ["~"] ["signs"] ["sign"]:
        "in a drawing, a thread at another's turn: `|` runs, `#` waits, `:` waits and can go on, `!` throws",
        "a thread that has ended or died has no sign; `~` is where a long row or name was cut",
        "printf '.thread t #0\\nhalt\\n.run\\nt0\\n' > a.txt; vuthgal draw a.txt";
};
