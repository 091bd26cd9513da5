use crate::entry::Entry;

/// A plan that is refused.
pub static PLAN: [Entry; 8] = numbered! { "refused ", "plan", "docs/TRACES.md, \"Plan text\"";
    LINE 1: "BadWord: this isn't a word of a plan",
        "ann t0 ann*3 ann. xann .. ..*5 ?7 ( ann. )*3, with blanks, not commas",
        "printf '.thread t #0\\nhalt\\n' > a.txt; echo 't+2' | vuthgal plan a.txt";
    LINE 2: "BadCount: no number from 1 to 1000000 follows the star",
        "one to seven digits, the first not 0, at most 1000000",
        "printf '.thread t #0\\nhalt\\n' > a.txt; echo 't*0' | vuthgal plan a.txt";
    LINE 3: "BadSeed: no number below 2 to the 64th follows the question mark",
        "one to twenty digits, at most 18446744073709551615",
        "printf '.thread t #0\\nhalt\\n' > a.txt; echo '?x' | vuthgal plan a.txt";
    LINE 4: "NotNamed: no thread has this name",
        "the name after `.thread`, as in ann. or xann; in an image tN",
        "printf '.thread t #0\\nhalt\\n' > a.txt; echo 'a' | vuthgal plan a.txt";
    LINE 5: "NoThread: no thread has this number",
        "threads are numbered from 0, in the order of their `.thread` lines",
        "printf '.thread t #0\\nhalt\\n' > a.txt; echo 't1' | vuthgal plan a.txt";
    LINE 6: "TooDeep: a parenthesis is inside sixteen others",
        "at most sixteen parentheses inside each other",
        "printf '.thread t #0\\nhalt\\n' > a.txt; echo '((((((((((((((((( t )))))))))))))))))' | vuthgal plan a.txt";
    LINE 7: "NotOpened: a `)` has no `(` before it",
        "a `(` before it, or no `)`",
        "printf '.thread t #0\\nhalt\\n' > a.txt; echo 't )' | vuthgal plan a.txt";
    LINE 8: "NotClosed: a `(` has no `)`; the place is that of the outermost",
        "a `)` after what is repeated, as in ( ann bob )*20",
        "printf '.thread t #0\\nhalt\\n' > a.txt; echo '( t' | vuthgal plan a.txt";
};
