use crate::entry::Entry;

/// A schedule that is refused.
pub static SCHEDULE: [Entry; 3] =
    numbered! { "refused ", "schedule", "docs/TRACES.md, \"Schedule text\"";
    1 BYTE: "Byte: a byte that isn't allowed here, or an incomplete token",
        "tN, xN, tN*K and xN*K with blanks between them",
        "printf '.thread t #0\\nhalt\\n.run\\nt0,t1\\n' | vuthgal";
    2 BYTE: "Number: a thread's number is above 63, or has more than two digits",
        "t0 to t63, and x0 to x63",
        "printf '.thread t #0\\nhalt\\n.run\\nt64\\n' | vuthgal";
    3 BYTE: "Repeat: a count is 0 or above 1000000000, or has more than ten digits",
        "1 to 1000000000",
        "printf '.thread t #0\\nhalt\\n.run\\nt0*0\\n' | vuthgal";
};
