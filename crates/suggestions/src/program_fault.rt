//! What helps at a fault of a program's text: the nearest name, the form of a row, or what a line may have been meant as.

use crate::file_kind::is_trace;
use crate::form::form_of;
use crate::hint::{Hint, help, help_by_names, near};
use crate::line::{first_word, word_at};
use crate::meant::{helps_at, row_meant};
use crate::names::{called, first_line, names_in, nearest_option, nearest_word};
use crate::nearest::nearest_of;
use assembler::PlacedFault;
use assembler::placed::UnknownName;
use assembler::word_place::line_at;
use instruction_table::OperandKind;
use line_reader::asm_fault::AsmFaultKind;
use line_reader::label::{before_last, is_label};
use row_code::is_image_file;
use std::alloc::Global;

const AT_TRACE: &str =
    "this is a trace, and the program comes first; `vuthgal choices TRACE | vuthgal run FILE -` plays its choices";

const AT_IMAGE: &str =
    "this is an image already: SRC is a text, and `vuthgal list FILE` writes one";

/// Returns advice for a name that nothing of the wanted kind has: the nearest name, all names, or how to declare one.
fn hint_at_name(alloc: Global, text: &[u8], wanted: OperandKind, word: &[u8]) -> Hint {
    let names = names_in(alloc, text, Some(wanted))?;
    match nearest_of(alloc, names.as_slice(), word)?.meant {
        Some(name) if name == word => help(
            alloc,
            b"this name is below the line `.run`, where the program has ended",
        ),
        Some(name) => near(alloc, name),
        None if names.is_empty() => {
            let (wanted, line) = called(wanted);
            let helps = format!(in alloc; "{wanted} is needed, and there is none: `{line}`")?;
            help(alloc, helps.as_bytes())
        }
        None => help_by_names(alloc, b"the names are ", names.as_slice()),
    }
}

/// Returns advice for an unknown name. If a thing of another kind has this name, the advice says so.
fn hint_at_unknown(alloc: Global, text: &[u8], unknown: UnknownName, word: &[u8]) -> Hint {
    let UnknownName { wanted, given } = unknown;
    let Some(given) = given else {
        return hint_at_name(alloc, text, wanted, word);
    };
    let (given, wanted) = (called(given).0, called(wanted).0);
    let helps = format!(in alloc; "this is {given}, and {wanted} is needed")?;
    help(alloc, helps.as_bytes())
}

/// Returns advice for a name that an earlier line gave: the number of that line. The word has a colon if it is a label.
fn hint_at_second(alloc: Global, text: &[u8], word: &[u8]) -> Hint {
    let name = if is_label(word) {
        before_last(word)
    } else {
        word
    };
    let Some(line) = first_line(text, name) else {
        return Ok(None);
    };
    let helps = format!(in alloc; "line {line} has this name: give one of them another")?;
    help(alloc, helps.as_bytes())
}

/// Returns advice for a word that begins no row or directive: the form of the row that it means, or the nearest word.
fn hint_at_word(alloc: Global, line: &[u8], word: &[u8]) -> Hint {
    if let Some(row) = row_meant(alloc, line, word) {
        return form_of(alloc, row.as_bytes());
    }
    match nearest_word(alloc, word)?.meant {
        Some(name) => near(alloc, name),
        None => Ok(None),
    }
}

/// Returns advice for a word that is no option of this directive: the nearest option, or the directive's form.
fn hint_at_option(alloc: Global, directive: &[u8], word: &[u8]) -> Hint {
    match nearest_option(alloc, str::from_utf8(directive).unwrap_or(""), word)? {
        Some(option) => near(alloc, option),
        None => form_of(alloc, directive),
    }
}

/// Returns advice for the word that makes a fault of a text, if nothing more specific is known. None if the entry says enough.
fn hint_at(alloc: Global, text: &[u8], placed: PlacedFault, line: &[u8], word: &[u8]) -> Hint {
    if let Some(unknown) = placed.unknown {
        return hint_at_unknown(alloc, text, unknown, word);
    }
    let first = first_word(line);
    match placed.fault.kind {
        AsmFaultKind::UnknownWord => hint_at_word(alloc, line, word),
        AsmFaultKind::NameTwice => hint_at_second(alloc, text, word),
        AsmFaultKind::BadOption => hint_at_option(alloc, first, word),
        AsmFaultKind::OperandCount
        | AsmFaultKind::BadRegister
        | AsmFaultKind::BadNumber
        | AsmFaultKind::OutOfRange => form_of(alloc, first),
        AsmFaultKind::BadName if !is_label(word) => form_of(alloc, first),
        _ => Ok(None),
    }
}

/// Returns the line of advice for a fault of a program. `bytes` is its file, and `text` the part of it above a line `.run`.
pub fn hint_in_program(alloc: Global, bytes: &[u8], text: &[u8], placed: PlacedFault) -> Hint {
    let PlacedFault { fault, at, .. } = placed;
    let line = line_at(bytes, fault.line).unwrap_or(&[]);
    let word = at.map_or(b"".as_slice(), |at| word_at(line, at));
    if is_trace(bytes) {
        help(alloc, AT_TRACE.as_bytes())
    } else if is_image_file(bytes) {
        help(alloc, AT_IMAGE.as_bytes())
    } else {
        match helps_at(alloc, text, fault.kind, fault.line, line, word) {
            Some(helps) => help(alloc, helps.as_bytes()),
            None => hint_at(alloc, text, placed, line, word),
        }
    }
}
