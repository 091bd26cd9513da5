//! The entries of the rows by their groups: small tables, since a proof goes over each whole one.

use crate::word::WordEntry;

/// The rows that only load, copy, add and subtract registers, or jump; and `halt`.
pub const PLAIN_ROWS: [WordEntry; 9] = rows! {
    halt: "return; in run()", "`end`",
        "ends the thread; in a routine or an action throws 7",
        ".thread ann main\nmain: halt\n.run\nt0";
    ldi a n: "a = n;", "`= v`",
        "puts n into a",
        ".thread ann main\nmain: ldi r0 5\nout r0\nhalt\n.run\nt0*3";
    mov a b: "a = b;", "`= v`",
        "copies b into a",
        ".thread ann main\nmain: ldi r1 5\nmov r0 r1\nout r0\nhalt\n.run\nt0*4";
    add a b c: "a = b + c;", "`= v`",
        "puts b plus c into a; it wraps, as Java's int does",
        ".thread ann main\nmain: ldi r1 2\nldi r2 3\nadd r0 r1 r2\nout r0\nhalt\n.run\nt0*5";
    sub a b c: "a = b - c;", "`= v`",
        "puts b minus c into a; it wraps, as Java's int does",
        ".thread ann main\nmain: ldi r1 2\nldi r2 3\nsub r0 r1 r2\nout r0\nhalt\n.run\nt0*5";
    jmp L: "none: a loop's end", "`ok`",
        "jumps to row L",
        ".thread ann main\nmain: jmp done\nout r0\ndone: halt\n.run\nt0*2";
    beq a b L: "if (a == b) ..", "`ok`",
        "jumps to row L if a equals b",
        ".thread ann main\nmain: ldi r1 0\nbeq r0 r1 done\nout r0\ndone: halt\n.run\nt0*3";
    bne a b L: "if (a != b) ..", "`ok`",
        "jumps to row L if a isn't equal to b",
        ".thread ann main\nmain: ldi r1 3\nldi r2 1\nagain: add r0 r0 r2\nbne r0 r1 again\nhalt\n.run\nt0*9";
    blt a b L: "if (a < b) ..", "`ok`",
        "jumps to row L if a is less than b",
        ".thread ann main\nmain: ldi r1 3\nldi r2 1\nagain: add r0 r0 r2\nblt r0 r1 again\nhalt\n.run\nt0*9";
};

/// The rows of calls, exceptions and output.
pub const CONTROL_ROWS: [WordEntry; 6] = rows! {
    call L: "a method's call", "`ok`",
        "jumps to row L, and `ret` returns to the next row; throws 6 if the stack has 64 entries",
        ".thread ann main\nmain: call five\nout r0\nhalt\nfive: ldi r0 5\nret\n.run\nt0*5";
    ret: "return;", "`ok`, `= v`",
        "returns to the row after the `call`, or ends the routine or the action; throws 7 elsewhere",
        ".thread ann main\nmain: call five\nout r0\nhalt\nfive: ldi r0 5\nret\n.run\nt0*5";
    try L: "try { .. } catch", "`ok`",
        "from here on an exception jumps to row L, with its number in r7; throws 6 if the stack has 64 entries",
        ".thread ann main\nmain: try failed\nldi r0 9\nthrow r0\nfailed: out r7\nhalt\n.run\nt0*6";
    endtry: "the } of try", "`ok`",
        "ends the last `try`; throws 7 elsewhere",
        ".thread ann main\nmain: try failed\nldi r0 9\nendtry\nhalt\nfailed: out r7\nhalt\n.run\nt0*4";
    throw a: "throw", "`throw v`",
        "throws the number in a: 1 to 8 are the machine's own (`explain exception 1`)",
        ".thread ann main\nmain: try failed\nldi r0 9\nthrow r0\nfailed: out r7\nhalt\n.run\nt0*6";
    out a: "System.out.println(a);", "`out v`",
        "prints the number in a; throws 8 after 4096 numbers",
        ".thread ann main\nmain: ldi r0 5\nout r0\nhalt\n.run\nt0*3";
};

/// The rows of shared cells and of threads.
pub const SHARED_ROWS: [WordEntry; 5] = rows! {
    lds a C: "a = cell;", "`= v`",
        "puts cell C into a",
        ".thread ann main\n.cell total\nmain: ldi r0 5\nsts r0 total\nlds r1 total\nout r1\nhalt\n.run\nt0*5";
    sts a C: "cell = a;", "`ok`",
        "puts a into cell C",
        ".thread ann main\n.cell total\nmain: ldi r0 5\nsts r0 total\nlds r1 total\nout r1\nhalt\n.run\nt0*5";
    self a: "Thread.currentThread()", "`= v`",
        "puts this thread's number into a",
        ".thread ann main\n.thread bob main\nmain: self r0\nout r0\nhalt\n.run\nt0*3 t1*3";
    intr T: "t.interrupt()", "`ok`",
        "interrupts thread T, unless it has ended or died",
        ".thread ann main\n.thread bob other\nmain: intr bob\nhalt\nother: intrd r0\nout r0\nhalt\n.run\nt0*2 t1*3";
    intrd a: "Thread.interrupted()", "`= v`",
        "puts 1 into a if this thread was interrupted, else 0; clears its interrupt",
        ".thread ann main\nmain: intr ann\nintrd r0\nout r0\nhalt\n.run\nt0*4";
};

/// The rows that change a phaser, or wait there.
pub const PHASER_ROWS: [WordEntry; 8] = rows! {
    preg a P: "register()", "`= v`",
        "registers one party; a gets the phase that it joined",
        ".phaser door 1\n.thread ann main\nmain: preg r0 door\npparties r1 door\nout r1\nhalt\n.run\nt0*4";
    pbulk a P b: "bulkRegister(b)", "`= v`",
        "registers as many parties as b says; a gets the phase that they joined",
        ".phaser door 1\n.thread ann main\nmain: ldi r1 3\npbulk r0 door r1\npparties r2 door\nout r2\nhalt\n.run\nt0*5";
    parr a P: "arrive()", "`= v`, `enter`",
        "arrives and doesn't wait; a gets the phase of the arrival",
        ".phaser door 2\n.thread ann main\n.thread bob main\nmain: parr r0 door\nout r0\nhalt\n.run\nt0*3 t1*3";
    pdereg a P: "arriveAndDeregister()", "`= v`, `enter`",
        "arrives and deregisters one party; a gets the phase of the arrival",
        ".phaser door 2\n.thread ann main\nmain: pdereg r0 door\npparties r1 door\nout r1\nhalt\n.run\nt0*4";
    paaa a P: "arriveAndAwaitAdvance()", "`= v`, `wait`, `enter`",
        "arrives and waits for the others; a gets the next phase",
        ".phaser door 2\n.thread ann main\n.thread bob main\nmain: paaa r0 door\nout r0\nhalt\n.run\nt0 t1*3 t0*3";
    pawait a P b: "awaitAdvance(b)", "`= v`, `wait`",
        "waits until phase b has ended; a gets the current phase",
        ".phaser door 1\n.thread ann main\n.thread bob other\nmain: pawait r0 door r1\nout r0\nhalt\nother: parr r0 door\nhalt\n.run\nt0 t1*2 t0*3";
    pawaiti a P b: "awaitAdvanceInterruptibly(b)", "`= v`, `wait`",
        "like `pawait`, but an interrupt ends the wait and throws 3",
        ".phaser door 1\n.thread ann main\n.thread bob other\nmain: try woken\npawaiti r0 door r1\nhalt\nwoken: out r7\nhalt\nother: intr ann\nhalt\n.run\nt0*2 t1*2 t0*4";
    pforce P: "forceTermination()", "`ok`",
        "terminates all phasers of its tree: no thread waits there any more",
        ".phaser door 2\n.thread ann main\n.thread bob other\nmain: paaa r0 door\nout r0\nhalt\nother: pforce door\nhalt\n.run\nt0 t1*2 t0*3";
};

/// The rows that look at a phaser.
pub const VIEW_ROWS: [WordEntry; 7] = rows! {
    pphase a P: "getPhase()", "`= v`",
        "a gets the phase, below 0 if the phaser is terminated",
        ".phaser door 1 phase 7\n.thread ann main\nmain: pphase r0 door\nout r0\nhalt\n.run\nt0*3";
    pparties a P: "getRegisteredParties()", "`= v`",
        "a gets how many parties are registered",
        ".phaser door 3\n.thread ann main\nmain: pparties r0 door\nout r0\nhalt\n.run\nt0*3";
    parrived a P: "getArrivedParties()", "`= v`",
        "a gets how many parties have arrived",
        ".phaser door 2\n.thread ann main\nmain: parr r0 door\nparrived r1 door\nout r1\nhalt\n.run\nt0*4";
    punarr a P: "getUnarrivedParties()", "`= v`",
        "a gets how many parties haven't arrived yet",
        ".phaser door 3\n.thread ann main\nmain: parr r0 door\npunarr r1 door\nout r1\nhalt\n.run\nt0*4";
    pterm a P: "isTerminated()", "`= v`",
        "a gets 1 if the phaser is terminated, else 0",
        ".phaser door 2\n.thread ann main\nmain: pforce door\npterm r0 door\nout r0\nhalt\n.run\nt0*4";
    pparent a P: "getParent()", "`= v`",
        "a gets the parent's number, -1 if there is none",
        ".phaser house 1\n.phaser room 1 parent house\n.thread ann main\nmain: pparent r0 room\nout r0\nhalt\n.run\nt0*3";
    proot a P: "getRoot()", "`= v`",
        "a gets the root's number",
        ".phaser house 1\n.phaser room 1 parent house\n.thread ann main\nmain: proot r0 room\nout r0\nhalt\n.run\nt0*3";
};

/// The rows of barriers.
pub const BARRIER_ROWS: [WordEntry; 5] = rows! {
    cawait a B: "await()", "`= v`, `wait`, `enter`",
        "waits for the others; a gets how many were missing, 0 for the last",
        ".barrier gate 2\n.thread ann main\n.thread bob main\nmain: cawait r0 gate\nout r0\nhalt\n.run\nt0 t1*3 t0*3";
    creset B: "reset()", "`ok`",
        "resets the barrier: each thread that waits there throws 4",
        ".barrier gate 2\n.thread ann main\n.thread bob other\nmain: try broken\ncawait r0 gate\nhalt\nbroken: out r7\nhalt\nother: creset gate\nhalt\n.run\nt0*2 t1*2 t0*4";
    cbroken a B: "isBroken()", "`= v`",
        "a gets 1 if the barrier is broken, else 0",
        ".barrier gate 2\n.thread ann main\nmain: cbroken r0 gate\nout r0\nhalt\n.run\nt0*3";
    cwaiting a B: "getNumberWaiting()", "`= v`",
        "a gets how many threads wait there",
        ".barrier gate 2\n.thread ann main\n.thread bob other\nmain: cawait r0 gate\nhalt\nother: cwaiting r0 gate\nout r0\nhalt\n.run\nt0 t1*3";
    cparties a B: "getParties()", "`= v`",
        "a gets how many parties the barrier has",
        ".barrier gate 2\n.thread ann main\nmain: cparties r0 gate\nout r0\nhalt\n.run\nt0*3";
};

/// The rows that wait no longer than a time.
pub const TIMED_ROWS: [WordEntry; 2] = rows! {
    pawaitt a P b c: "awaitAdvanceInterruptibly(b, c, ..)", "`= v`, `wait`",
        "like `pawaiti`, but a wait throws 5 if c is 0 or less or `xN` in a schedule ends it",
        ".phaser door 1\n.thread ann main\nmain: try late\nldi r2 9\npawaitt r0 door r1 r2\nhalt\nlate: out r7\nhalt\n.run\nt0*3 x0 t0*3";
    cawaitt a B b: "await(b, ..)", "`= v`, `wait`, `enter`",
        "like `cawait`, but a wait throws 5 and breaks the barrier if b is 0 or less or `xN` in a schedule ends it",
        ".barrier gate 2\n.thread ann main\nmain: try late\nldi r1 9\ncawaitt r0 gate r1\nhalt\nlate: out r7\nhalt\n.run\nt0*3 x0 t0*3";
};
