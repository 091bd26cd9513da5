//! What helps at the wrong word of a program's line, if that is more than the entry of its fault says (`refusals`).

use crate::file_kind::{helps_at_encoding, is_schedule};
use crate::java::{in_place_of, row_of};
use crate::line::{first_word, word as word_in, words_of};
use crate::plan_word::{AT_COMMENT, has_comment_sign};
use instruction_table::shape_of;
use line_reader::asm_fault::AsmFaultKind;
use line_reader::directive::is_directive;
use line_reader::label::{before_last, is_label};
use line_reader::words::{before_comment, is_blank, length_before};
use refusals::table::row::row_entry;
use std::alloc::Global;

const AT_COMMA: &str = "no commas: put blanks between operands, as in `paaa r0 p`";

const AT_THREAD: &str =
    "a line declares one thread, by its name and the label where it begins: `.thread ann main`";

const AT_COLON: &str = "a label has a colon only in its own line: `.thread ann main`, `main: halt`";

const AT_EQUALS: &str = "no `=`: as in `.phaser p 2` and `ldi r0 5`";

/// Returns whether one of these words contains this byte.
fn any_contains(words: &[&[u8]], byte: u8) -> bool {
    words.iter().any(|word| word.contains(&byte))
}

/// Returns whether a word begins a comment of other languages, and isn't an operand such as `#0`.
fn begins_other_comment(word: &[u8]) -> bool {
    has_comment_sign(word) && !matches!(word, [b'#', b'0'..=b'9', ..])
}

/// Returns whether a word has digits and `-` alone, and isn't empty.
fn is_like_number(word: &[u8]) -> bool {
    !word.is_empty()
        && word
            .iter()
            .all(|byte| byte.is_ascii_digit() || *byte == b'-')
}

/// Returns whether a row or a directive begins with this word.
fn is_word_of_the_language(word: &[u8]) -> bool {
    shape_of(word).is_some() || is_directive(word)
}

/// Returns whether a line of a text has this word, but not as its first. So it may be a label that lacks its colon.
fn is_operand(text: &[u8], word: &[u8]) -> bool {
    text.split(|byte| *byte == b'\n').any(|line| {
        word_in(line, 0) != Some(word)
            && before_comment(line)
                .split(|byte| is_blank(*byte))
                .any(|operand| operand == word)
    })
}

/// Returns whether a line of a text has this directive with this name.
fn declares(text: &[u8], directive: &[u8], name: &[u8]) -> bool {
    text.split(|byte| *byte == b'\n').any(|line| word_in(line, 0) == Some(directive)
        && word_in(line, 1) == Some(name))
}

/// Returns whether a line of a text begins with the label of this name.
fn has_label(text: &[u8], name: &[u8]) -> bool {
    text.split(|byte| *byte == b'\n').any(|line| match word_in(line, 0) {
        Some(label) => is_label(label) && before_last(label) == name,
        None => false,
    })
}

/// Returns the word after the word `=`: `5` of `r0 = 5`. None if a line has none.
fn word_assigned<'a>(words: &[&'a [u8]]) -> Option<&'a [u8]> {
    words
        .iter()
        .skip_while(|word| **word != b"=".as_slice())
        .nth(1)
        .copied()
}

/// Returns the row that a line of Java means: of the method whose result it assigns (`r = p.arrive()`), or that the word calls;
/// or the row that the word writes as a call (`parr(r0)`). None if it means no row.
pub fn row_meant(alloc: Global, line: &[u8], word: &[u8]) -> Option<&'static str> {
    if let Some(assigned) = word_assigned(words_of(alloc, line).ok()?.as_slice()) {
        return row_of(assigned);
    }
    let called = &word[..length_before(b'(', word)];
    match shape_of(called) {
        Some(shape) if called.len() < word.len() => row_entry(shape.opcode).map(|row| row.word),
        _ => row_of(word),
    }
}

/// Returns what the language has in place of a line that makes or changes a thing, as `p = new Phaser(2)`. None for others.
fn in_place_of_made(words: &[&[u8]]) -> Option<&'static str> {
    words
        .iter()
        .skip_while(|word| {
            **word != b"new".as_slice() && !matches!(word.last(), Some(b'=' | b'+' | b'-'))
        })
        .filter(|word| **word != b"new".as_slice())
        .filter_map(|word| in_place_of(*word))
        .next()
}

/// Returns advice for a line written as in Java: with a word that has no row (`while`, `x++`), or with an assignment
/// (`r0 = r0 + 1`). None for other lines. None, too, if it assigns the result of a method that has a row (`r0 = p.arrive()`):
/// then `hint_at_word` shows the form of that row.
fn helps_at_java_line(words: &[&[u8]], word: &[u8]) -> Option<&'static str> {
    let helps = in_place_of_made(words).or(in_place_of(word));
    match word_assigned(words) {
        Some(value) if row_of(value).is_some() => None,
        Some(_) if helps.is_none() && any_contains(words, b'+') => {
            Some("`ldi r1 1` puts 1 into r1, and then `add r0 r0 r1` adds it to r0")
        }
        Some(_) if helps.is_none() => {
            Some("the instruction is first, then the register of its result, as in `ldi r0 5`")
        }
        _ => helps,
    }
}

/// Returns advice for `word` of a line, which is unknown where a row or directive should be. None if no advice is known.
fn helps_at_word(alloc: Global, text: &[u8], words: &[&[u8]], word: &[u8]) -> Option<&'static str> {
    let behind = match words {
        [first, second, ..] if *first == word => *second,
        _ => b"".as_slice(),
    };
    let behind_colon = word.get(length_before(b':', word).saturating_add(1)..);
    helps! {
        word == b".run".as_slice() && behind.is_empty() =>
            "this file also has a schedule: `run FILE` plays it, `show FILE` shows it; `debug` and `live` need the part above `.run`",
        word == b".run".as_slice() => "`.run` is alone in its line, and the schedule is below it",
        word == b"run".as_slice() && words.len() == 1 => "the line between a program and its schedule is `.run`, with a dot",
        word.eq_ignore_ascii_case(b".run") => "the line between a program and its schedule is `.run`, in small letters",
        has_comment_sign(word) => AT_COMMENT,
        word.ends_with(b".") && !is_word_of_the_language(behind) => "this looks like a plan: the program comes first",
        is_schedule(alloc, word) => "a schedule follows a line `.run`, below the program",
        is_label(word) => "a line has one label: put the other on a line of its own",
        is_word_of_the_language(behind_colon.unwrap_or(&[])) => "put a blank behind the colon, as in `main: paaa r0 p`",
        words.len() == 1 && is_operand(text, word) => "a label needs a colon, as in `main:`",
        behind.starts_with(b":") => "no blank before the colon of a label, as in `main: paaa r0 p`",
        is_word_of_the_language(behind) => "a label needs a colon, as in `main: paaa r0 p`",
        else helps_at_java_line(words, word)
    }
}

/// Returns advice for a word with a comma at its end or a quotation mark, else None. `first` is its line's row or directive.
fn helps_at_sign(first: &[u8], word: &[u8]) -> Option<&'static str> {
    helps! {
        word.ends_with(b",") && first == b".thread".as_slice() => AT_THREAD,
        word.ends_with(b",") => AT_COMMA,
        word.contains(&b'"') => "there are no texts: a program puts out numbers, as in `out r0`",
        else None
    }
}

/// Returns whether a line of a text has an instruction.
fn has_row(text: &[u8]) -> bool {
    text.split(|byte| *byte == b'\n')
        .any(|line| shape_of(first_word(line)).is_some())
}

/// Returns advice if one of these words has a `=`, and None if none has.
fn helps_at_equals(words: &[&[u8]]) -> Option<&'static str> {
    any_contains(words, b'=').then_some(AT_EQUALS)
}

/// Returns advice for too few or too many operands of the row or directive `first`. None if its form says enough.
fn helps_at_count(first: &[u8], words: &[&[u8]]) -> Option<&'static str> {
    helps! {
        first == b".thread".as_slice() && any_contains(words, b':') => AT_COLON,
        first == b".thread".as_slice() => AT_THREAD,
        first == b".cell".as_slice() => "a cell has only a name, and begins at 0: `.cell total`",
        words.iter().any(|word| begins_other_comment(*word)) => AT_COMMENT,
        any_contains(words, b',') => AT_COMMA,
        words.iter().filter(|word| shape_of(**word).is_some()).count() > 1 =>
            "one instruction a line: put the second on a line of its own",
        else helps_at_equals(words)
    }
}

/// Returns whether a word is written nearly as a register: `r8`, `R0`, `r12`.
fn is_like_register(word: &[u8]) -> bool {
    match word {
        [b'r' | b'R', digits @ ..] => !digits.is_empty()
            && digits.iter().all(|byte| byte.is_ascii_digit()),
        _ => false,
    }
}

/// Returns whether `word` comes directly after the word `before` in a line.
fn is_behind(words: &[&[u8]], before: &[u8], word: &[u8]) -> bool {
    words.windows(2).any(
        |pair| matches!(pair, [first, second] if *first == before && *second == word),
    )
}

/// Returns which range is allowed for a number that is out of range. `first` is the row's or directive's word of its line.
fn helps_at_range(first: &[u8], words: &[&[u8]], word: &[u8]) -> &'static str {
    if is_behind(words, b"parent", word) {
        "a parent is a phaser above, #0 to #63"
    } else if word.starts_with(b"#") {
        "behind # there is a number from 0 to 65535"
    } else if first == b"ldi".as_slice() {
        "`ldi` takes -2147483648 to 2147483647"
    } else if is_behind(words, b"phase", word) {
        "a phase is 0 to 2147483647"
    } else if is_behind(words, b"until", word) {
        "`until` takes a phase, 0 to 2147483647"
    } else if first == b".barrier".as_slice() {
        "PARTIES is 1 to 65535"
    } else {
        "PARTIES is 0 to 65535"
    }
}

/// Returns advice for a word that is no register: it is a cell or a number, or the line has a `=`. None for other words.
fn helps_at_register(text: &[u8], words: &[&[u8]], word: &[u8]) -> Option<&'static str> {
    helps! {
        declares(text, b".cell", word) => "`lds r0 c` reads the cell c into r0, and `sts r0 c` writes r0 to it",
        any_contains(words, b'=') => AT_EQUALS,
        is_like_number(word) => "put the number into a register first, as in `ldi r1 1`",
        is_like_register(word) => "the registers are r0 to r7: a small r and one digit",
        else None
    }
}

/// Returns advice for a word that can't be a name: a brace, a label with its colon or a number. None if no rule fits.
fn helps_at_no_name(words: &[&[u8]], word: &[u8]) -> Option<&'static str> {
    let is_in_place_of_name = match words {
        [first, name, ..] => is_directive(*first) && *name == word,
        _ => false,
    };
    helps! {
        word == b"{".as_slice() => "no braces: `try failed` names the label of the handler, and `endtry` ends it",
        word.ends_with(b":") && words.iter().skip(1).any(|operand| *operand == word) => AT_COLON,
        is_like_number(word) && is_in_place_of_name => "a declaration begins with its name, as in `.phaser p 2`",
        is_in_place_of_name => "a name has letters, digits and `_`, and begins with no digit, as in `.phaser p 2`",
        is_like_number(word) => "a declaration begins with its name; an operand is a name, or # and a number: #1",
        else None
    }
}

/// Returns advice for a fault of this kind at `word`; `first` is the row or directive of its line. None if none is known.
fn helps_at_kind(
    text: &[u8],
    kind: AsmFaultKind,
    first: &[u8],
    words: &[&[u8]],
    word: &[u8],
) -> Option<&'static str> {
    match kind {
        AsmFaultKind::OperandCount => helps_at_count(first, words),
        AsmFaultKind::BadRegister if first == b"mov".as_slice() && is_like_number(word) => Some(
            "`mov` copies a register: `ldi r0 5` puts a number into one",
        ),
        AsmFaultKind::BadRegister => helps_at_register(text, words, word),
        AsmFaultKind::OutOfRange => Some(helps_at_range(first, words, word)),
        AsmFaultKind::BadNumber if matches!(word, [b'0'..=b'9' | b'#' | b'+', ..]) => Some(
            "decimal digits alone, with a `-` before them if the number is below 0: `ldi r0 -16`",
        ),
        AsmFaultKind::BadNumber if first.starts_with(b".") && !any_contains(words, b'=') => Some(
            "a number is written in digits, as in `.phaser p 2`",
        ),
        AsmFaultKind::BadOption if has_comment_sign(word) => Some(AT_COMMENT),
        AsmFaultKind::BadNumber | AsmFaultKind::BadOption => helps_at_equals(words),
        AsmFaultKind::BadName => helps_at_no_name(words, word),
        AsmFaultKind::UnknownName if !has_row(text) => Some(
            "the program has no rows: an instruction is one, as in `main: halt`",
        ),
        AsmFaultKind::NameTwice
            if is_label(word) && declares(text, b".thread", before_last(word))
                || first == b".thread".as_slice() && has_label(text, word) => Some(
            "a thread's name is before its label, as in `.thread ann main` and `main: halt`",
        ),
        _ => None,
    }
}

/// Returns advice for the wrong `word` in line `number` of `text`. None if the entry of the fault says enough.
pub fn helps_at(
    alloc: Global,
    text: &[u8],
    kind: AsmFaultKind,
    number: u64,
    line: &[u8],
    word: &[u8],
) -> Option<&'static str> {
    let words = words_of(alloc, line).ok()?;
    let words = words.as_slice();
    let first = first_word(line);
    match kind {
        AsmFaultKind::UnknownWord | AsmFaultKind::LongLine if is_schedule(alloc, text) => Some(
            "this looks like a schedule: the program comes first",
        ),
        AsmFaultKind::UnknownWord => helps_at_word(alloc, text, words, word),
        AsmFaultKind::BadByte if number == 1 => helps_at_encoding(text),
        _ => helps_at_sign(first, word).or(helps_at_kind(text, kind, first, words, word)),
    }
}
