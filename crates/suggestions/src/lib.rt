//! Finds what a person may have meant by a word, a line or a file that is refused.
//!
//! Usually it is a word or a name that is spelled nearly like the wrong one. It may also be the row for a method of Java, or what
//! the language has in place of a statement of other languages.
#![tactic(auto)]

/// What helps in the first of these cases that holds, or else what follows `else`.
macro_rules! helps {
    ($($case:expr => $helps:expr,)+ else $other:expr) => {
        $(if $case { Some($helps) } else)+ { $other }
    };
}

// What helps, as a line.
pub mod hint;

// Names and words that are near to one, and the form of a row.
pub mod file_name;
pub mod form;
pub mod names;
pub mod nearest;

// What other languages have, and what a line, a word of a plan and a file may be.
pub mod file_kind;
pub mod java;
pub mod line;
pub mod meant;
pub mod plan_line;
pub mod plan_word;

// What helps at a fault.
pub mod load_fault;
pub mod plan_fault;
pub mod program_fault;
pub mod schedule_fault;

// What is asked for.
pub mod sought;
