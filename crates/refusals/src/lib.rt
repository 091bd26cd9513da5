//! Explains in words why the program refused something.
//!
//! An entry is such an explanation. It says what is wrong, what helps, which command leads to exactly this refusal, and where
//! the documents say more. Each entry has patterns. Words request an entry if they fit one of its patterns. When the program
//! refuses something at a terminal, it prints a line, and below it a sentence of the entry that the words of this line request.
//! `explain` shows the whole entry if you pass these words to it.
#![tactic(auto)]

// An entry, how it is written, the table of them, and that of the words of the language.
pub mod entries;
pub mod entry;
pub mod table;

// Which words ask for which entry, and the command.
pub mod explain;
pub mod question;
pub mod word;
