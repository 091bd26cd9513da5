//! The entries for lines on standard error, exit statuses, exceptions, what a trace says, what the program reads and writes,
//! and what Java has, a file for each group.

/// What a place is called in a pattern.
macro_rules! counted {
    (LINE) => {
        " line"
    };
    (BYTE) => {
        " byte"
    };
    (ROW) => {
        " row"
    };
    (BARRIER) => {
        " barrier"
    };
}

/// Entries of one kind of words, each with its number, and with a place before or after the number if it has one: what is
/// wrong, what is allowed there, and a command that leads to it.
macro_rules! numbered {
    ($before:literal, $kind:literal, $more:literal; $(
        $($first:ident)? $number:literal $($last:ident)? $(| $name:literal)?: $means:literal, $helps:literal, $example:literal;
    )+) => {
        [$(Entry {
            asked: &[
                &[$kind, stringify!($number)],
                $(&[$kind, counted!($first), stringify!($number)],)?
                $(&[$kind, stringify!($number), counted!($last)],)?
                $(&[$name],)?
            ],
            told: concat!($before, $kind, " ", $(stringify!($first), " ",)? $number $(, " ", stringify!($last))?),
            means: $means,
            helps: $helps,
            example: $example,
            more: $more,
        }),+]
    };
}

/// Entries of other words: the words of the line, where the documents say more, and the patterns; then what is wrong, what is
/// allowed there, and a command that leads to it.
macro_rules! entries {
    ($($told:literal, $more:literal, $([$($asked:literal)+])+: $means:literal, $helps:literal, $example:literal;)+) => {
        [$(Entry {
            asked: &[$(&[$($asked),+]),+],
            told: $told,
            means: $means,
            helps: $helps,
            example: $example,
            more: $more,
        }),+]
    };
}

pub mod asm;
pub mod declare;
pub mod ending;
pub mod event;
pub mod exception;
pub mod finding;
pub mod image;
pub mod java;
pub mod load;
pub mod plan;
pub mod schedule;
pub mod status;
pub mod term;

use crate::entry::Entry;

/// Returns all tables of entries. If words fit several entries, the first one counts.
pub fn tables() -> [&'static [Entry]; 14] {
    [
        &asm::ASM,
        &image::IMAGE,
        &load::LOAD_PLACE,
        &load::LOAD,
        &declare::DECLARE,
        &schedule::SCHEDULE,
        &plan::PLAN,
        &ending::ENDING,
        &finding::FINDING,
        &status::STATUS,
        &exception::EXCEPTION,
        &event::EVENT,
        &term::TERM,
        &java::JAVA,
    ]
}
