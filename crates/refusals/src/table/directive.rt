//! What begins with a dot in a program's text.
ghost use Rattle.std.specs.Prelude.{◌≡◌, ◌≢◌, MatchOption, true};
ghost use Rattle.line_reader.specs.Reading.{is_directive};

use crate::word::WordEntry;

/// The words that begin with a dot.
pub const DIRECTIVES: [&str; 5] = [".phaser", ".barrier", ".thread", ".cell", ".run"];

/// Entries of words that begin with a dot: the word, what follows it, what can stand there, what it is in Java, what it does,
/// and an example.
macro_rules! directives {
    ($($word:literal $rest:literal: $operands:literal, $java:literal, $means:literal, $example:literal;)+) => {
        [$(WordEntry {
            word: $word,
            form: concat!($word, $rest),
            operands: $operands,
            java: $java,
            means: $means,
            event: "none",
            example: $example,
        }),+]
    };
}

/// The entries of the words that begin with a dot.
const ENTRIES: [WordEntry; 5] = directives! {
    ".phaser" " NAME PARTIES [parent P] [phase N] [never | until N | onadvance L]":
        "NAME: its name; PARTIES: 0 to 65535, without children; [..]: optional, in this order",
        "new Phaser(parent, parties)",
        "makes the next phaser; `never`, `until N` and `onadvance L` say when it terminates at the end of a phase",
        ".phaser house 0 phase 3 onadvance greet\n.phaser room 1 parent house\n.phaser door 1 until 9\n.thread ann main\nmain: parr r0 room\nhalt\ngreet: ldi r0 0\nret\n.run\nt0*4";
    ".barrier" " NAME PARTIES [action L]":
        "NAME: its name; PARTIES: 1 to 65535; [action L]: the last to arrive runs the rows from L to their `ret`",
        "new CyclicBarrier(parties, action)", "makes the next cyclic barrier",
        ".barrier gate 1 action greet\n.thread ann main\nmain: cawait r0 gate\nhalt\ngreet: out r0\nret\n.run\nt0*4";
    ".thread" " NAME L":
        "NAME: its name; L: its first row, a label or # and a number",
        "new Thread(..).start()", "makes the next thread; the first is t0",
        ".thread ann main\nmain: self r0\nout r0\nhalt\n.run\nt0*3";
    ".cell" " NAME":
        "NAME: its name",
        "a field that threads share", "makes the next shared cell, with the value 0",
        ".thread ann main\n.cell total\nmain: ldi r0 5\nsts r0 total\nhalt\n.run\nt0*3";
    ".run" "":
        "none; it is alone on its line",
        "none", "ends the program; its schedule follows: `t0` is a turn of thread 0, `t0*3` three turns, `x0` its timeout",
        ".thread ann main\nmain: halt\n.run\nt0";
};

/// Returns the entry of `.phaser`, `.barrier`, `.thread`, `.cell` or `.run`. None for other words.
pub(crate) fn directive_entry(word: &str) -> Option<WordEntry>
    ensures { MatchOption result (is_directive word.now ≢ true) (λ e. e.word.now ≡ word.now) }
{
    let [phaser, barrier, thread, cell, run] = ENTRIES;
    match word {
        ".phaser" => Some(phaser),
        ".barrier" => Some(barrier),
        ".thread" => Some(thread),
        ".cell" => Some(cell),
        ".run" => Some(run),
        _ => None,
    }
}
