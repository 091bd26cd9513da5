use crate::entry::Entry;

/// Entries of reasons why a phaser can't be declared, each with its number.
macro_rules! declared {
    ($($number:literal: $means:literal, $helps:literal, $example:literal;)+) => {
        [$(Entry {
            asked: &[
                &["load", "7", " phaser", stringify!($number)],
                &["declare", stringify!($number)],
                &["declare", " phaser", stringify!($number)],
            ],
            told: concat!("refused load 7 PHASER ", $number),
            means: $means,
            helps: $helps,
            example: $example,
            more: "docs/FORMATS.md, \"Load faults\"",
        }),+]
    };
}

/// Why a phaser can't be declared.
pub static DECLARE: [Entry; 6] = declared! {
    1: "BadParties: fewer than 0 or more than 65535 parties",
        "0 to 65535 parties",
        "none: a text or an image can't have such a number";
    2: "TooMany: a phaser above it already has 65535 parties",
        "fewer parties there: each child with parties adds one",
        "printf '.phaser r 65535\\n.phaser x 1 parent r\\n.thread t #0\\nhalt\\n' | vuthgal";
    3: "TooDeep: it would be on level 9 of its tree",
        "at most 8 levels",
        "{ echo .phaser a 0; for i in {0..7}; do echo .phaser a$i 0 parent \\#$i; done; echo .thread t \\#0; echo halt; } | vuthgal";
    4: "TooManyPhasers: there are already 64 phasers",
        "at most 64 phasers",
        "none: a text or an image can't have so many";
    5: "PhaseOnChild: a child has a first phase other than 0",
        "`phase N` on the root only",
        "printf '.phaser r 1\\n.phaser x 1 parent r phase 1\\n.thread t #0\\nhalt\\n' | vuthgal";
    6: "NoParent: its parent isn't declared before it",
        "the parent's line above those of its children",
        "printf '.phaser p 1 parent #0\\n.thread t #0\\nhalt\\n' | vuthgal";
};
