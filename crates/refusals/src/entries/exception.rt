use crate::entry::Entry;

/// The exceptions: those that Java has, with their names, and the others.
pub static EXCEPTION: [Entry; 8] = numbered! { "", "exception", "docs/BEHAVIOUR.md, \"Exceptions\"";
    1 | "IllegalStateException": "IllegalStateException: no party left to arrive, or too many parties",
        "a registration before the arrival",
        "printf '.phaser p 0\\n.thread t #0\\nparr r0 p\\nhalt\\n.run\\nt0\\n' | vuthgal";
    2 | "IllegalArgumentException": "IllegalArgumentException: bulkRegister with a number below 0",
        "0 or more parties",
        "printf '.phaser p 1\\n.thread t #0\\nldi r1 -1\\npbulk r0 p r1\\nhalt\\n.run\\nt0*2\\n' | vuthgal";
    3 | "InterruptedException": "InterruptedException: an interrupt before or during the wait",
        "`try L` before the wait catches it",
        "printf '.phaser p 1\\n.thread t #0\\nintr #0\\npawaiti r1 p r2\\nhalt\\n.run\\nt0*2\\n' | vuthgal";
    4 | "BrokenBarrierException": "BrokenBarrierException: the barrier is broken, or breaks meanwhile",
        "`creset B` resets the barrier",
        "printf '.barrier b 2\\n.thread t #0\\n.thread u #1\\ncawaitt r0 b r1\\ncawait r0 b\\nhalt\\n.run\\nt0 t1\\n' | vuthgal";
    5 | "TimeoutException": "TimeoutException: a timed wait timed out, or its time is 0 or less",
        "a time above 0, and no xN in the schedule",
        "printf '.barrier b 2\\n.thread t #0\\ncawaitt r0 b r1\\nhalt\\n.run\\nt0\\n' | vuthgal";
    6: "stack full: a call, a try or an arrival with 64 entries on the stack",
        "a ret for each call, an endtry for each try",
        "printf '.thread t #0\\ncall #0\\nhalt\\n.run\\nt0*65\\n' | vuthgal";
    7: "bad return: ret without call, endtry without try, or halt in a routine or action",
        "a call before each ret, a try before each endtry",
        "printf '.thread t #0\\nret\\n.run\\nt0\\n' | vuthgal";
    8: "output full: the thread has already printed 4096 numbers",
        "at most 4096 numbers for each thread",
        "printf '.thread t #0\\nout r0\\njmp #0\\n.run\\nt0*8193\\n' | vuthgal";
};
