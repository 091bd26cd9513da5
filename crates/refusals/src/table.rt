//! The entries of the words of the language: of the rows, and of what begins with a dot.

/// What an operand that isn't a register can be, by the letter that stands for it. The text about the registers precedes it.
macro_rules! other_operand {
    ($registers:literal n) => {
        concat!($registers, "n: a number, -2147483648 to 2147483647")
    };
    ($registers:literal L) => {
        concat!($registers, "L: a row, its label or # and a number")
    };
    ($registers:literal P) => {
        concat!($registers, "P: a phaser, its name or # and a number")
    };
    ($registers:literal B) => {
        concat!($registers, "B: a barrier, its name or # and a number")
    };
    ($registers:literal T) => {
        concat!($registers, "T: a thread, its name or # and a number")
    };
    ($registers:literal C) => {
        concat!($registers, "C: a cell, its name or # and a number")
    };
}

/// What the operands of a row can be, by the letters that stand for them: `a`, `b` and `c` are registers.
macro_rules! operands {
    () => {
        "none"
    };
    (a) => {
        "a: a register, r0 to r7"
    };
    (a b) => {
        "a, b: registers, r0 to r7"
    };
    (a b c) => {
        "a, b, c: registers, r0 to r7"
    };
    (a $other:ident) => {
        other_operand!("a: a register, r0 to r7; " $other)
    };
    (a b $other:ident) => {
        other_operand!("a, b: registers, r0 to r7; " $other)
    };
    (a $other:ident b) => {
        other_operand!("a, b: registers, r0 to r7; " $other)
    };
    (a $other:ident b c) => {
        other_operand!("a, b, c: registers, r0 to r7; " $other)
    };
    ($other:ident) => {
        other_operand!("" $other)
    };
}

/// The entries of rows: a row's word and its operands, as the documents write them, what it is in Java, what a trace shows of
/// it, what it does, and an example.
macro_rules! rows {
    ($($word:tt $($operand:ident)*: $java:literal, $event:literal, $means:literal, $example:literal;)+) => {
        [$(WordEntry {
            word: stringify!($word),
            form: concat!(stringify!($word) $(, " ", stringify!($operand))*),
            operands: operands!($($operand)*),
            java: $java,
            means: $means,
            event: $event,
            example: $example,
        }),+]
    };
}

pub mod directive;
pub mod row;
mod rows;
