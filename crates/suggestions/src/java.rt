//! Java's methods and other words that people write, and what the language has in their place.

use line_reader::words::length_before;

/// Methods and other words, in small letters, and the word of the language for them.
pub const METHODS: &str = "\
register: preg
bulkregister: pbulk
arrive countdown: parr
arriveandderegister deregister: pdereg
arriveandawaitadvance advance: paaa
awaitadvance: pawait
awaitadvanceinterruptibly: pawaiti
forcetermination: pforce
getphase: pphase
getregisteredparties parties party: pparties
getarrivedparties: parrived
getunarrivedparties: punarr
isterminated: pterm
getparent: pparent
getroot: proot
await: cawait
reset: creset
isbroken: cbroken
getnumberwaiting: cwaiting
getparties: cparties
interrupt: intr
interrupted isinterrupted: intrd
cyclicbarrier: .barrier
print println printf: out
catch: try
end exit stop: halt
if: beq
currentthread: self
goto jump: jmp
load ld: lds
store st: sts
move: mov
set: ldi
";

/// Java's classes and statements and other words, in small letters, and what the language has in their place.
const JAVA: &str = "\
phaser: `.phaser p 2` declares a phaser of 2 parties
cyclicbarrier barrier: `.barrier b 2` declares a barrier of 2 parties
thread: `.thread ann main` declares a thread that begins at `main:`
int long boolean var final: \
    a thread has the registers r0 to r7, as in `ldi r0 3`; `.cell x` declares a cell that all threads share
atomicinteger: `.cell sum`: all threads share it
semaphore countdownlatch latch mutex lock reentrantlock synchronized condition exchanger: \
    there are only phasers, barriers and cells: `.phaser p 2`, `.barrier b 2`, `.cell c`
for while do loop: no loops: a label, as in `again:`, and a jump back to it, as in `blt r0 r1 again`
if else switch: `beq`, `bne` and `blt` compare two registers, and jump to a label
bgt bge ble beqz bnez: `beq`, `bne` and `blt` compare two registers: `blt r1 r0 L` jumps if r0 is the greater one
nop: there is no such row: leave it out
label: a label is a name with a colon, as in `main:`
goto break continue: `jmp again` jumps to `again:`
return: `halt` ends a thread; `ret` returns from a `call`, a routine or an action
catch finally: `try failed` comes before: what is thrown from there on goes to the label `failed:`
sleep yield: no time passes: the schedule says who goes on; `xann` in a plan ends ann's `cawaitt`
wait notify notifyall: no monitors: threads wait at phasers and barriers, as in `paaa r0 p`
join start run: `.thread ann main` declares a thread that runs from the start; phasers wait for others
new: no `new`: declare it, as in `.phaser p 2`, `.barrier b 2` or `.thread ann main`
onadvance: a routine, as in `.phaser p 2 onadvance r`
public private static class void import package { }: no classes and no braces: only declarations, labels and instructions
++ -- += -= inc dec mul div: `add r0 r1 r2` and `sub r0 r1 r2` are all arithmetic; `ldi r1 1` puts 1 into r1
";

/// Returns the text of the table's line `WORD WORD: TEXT` that lists this word, in any letter case. None if no line does.
pub fn found_in(table: &'static str, word: &[u8]) -> Option<&'static str> {
    table
        .split('\n')
        .filter_map(|line| line.split_once(": "))
        .find(|(words, _)| {
            words
                .split_ascii_whitespace()
                .any(|one| one.as_bytes().eq_ignore_ascii_case(word))
        })
        .map(|(_, found)| found)
}

/// Returns the method's name alone, `arrive` of `p.arrive()`, or that of a class, `Phaser` of `Phaser(2)`.
pub fn method_in(word: &[u8]) -> &[u8] {
    let call = &word[..length_before(b'(', word)];
    let at = call.iter().rposition(|byte| *byte == b'.');
    at.map_or(call, |at| call.get(at.saturating_add(1)..).unwrap_or(call))
}

/// Returns whether the call that a word begins has an argument: `await(5,` has one, and `await()` has none.
fn has_argument(word: &[u8]) -> bool {
    let behind = word.get(length_before(b'(', word).saturating_add(1)..);
    matches!(behind, Some([first, ..]) if *first != b')')
}

/// Returns the row or directive for the method of Java that a word calls. None if it calls none. `await` and
/// `awaitAdvanceInterruptibly` have another row if the call has a time.
pub fn row_of(word: &[u8]) -> Option<&'static str> {
    match found_in(METHODS, method_in(word))? {
        "cawait" if has_argument(word) => Some("cawaitt"),
        "pawaiti" if word.contains(&b',') => Some("pawaitt"),
        row => Some(row),
    }
}

/// Returns what the language has in place of a word of Java without a row, as `while`, `new` or `x++`. None for others.
pub fn in_place_of(word: &[u8]) -> Option<&'static str> {
    if word.ends_with(b"++") || word.ends_with(b"--") {
        found_in(JAVA, b"++")
    } else {
        found_in(JAVA, method_in(word))
    }
}
