//! The commands `asm`, `list` and `explain`, which play nothing.

use crate::input::{self, Stream};
use crate::run::fail;
use byte_ports::{BlockPort, ReadPort, Sink, WritePort};
use command_line::ports::printable;
use commands::list_rows;
use fault_reports::files::{self, STANDARD_OUTPUT};
use fault_reports::program::{ProgramFile, fail_to_read};
use fault_reports::report::{Report, Reported};
use headline::shown;
use refusals::entries::tables;
use refusals::explain::explain as push_entry;
use std::alloc::{AllocError, Global};
use std::fs::{File, OpenOptions};
use std::io;
use std::os::unix::fs::MetadataExt;
use suggestions::sought::{push_near_questions, words_sought};
use workbench::done::{Done, as_asked};
use workbench::ending::{flushed, passed_on};
use workbench::fault::Fault;

/// The exit status if `explain` doesn't know the words.
const NO_LINE: u8 = 2;

/// Returns whether two open files are the same regular file, by whatever names: writing one would destroy the other.
fn are_one(source: &File, image: &File) -> io::Result<bool> {
    let (source, image) = (source.metadata()?, image.metadata()?);
    Ok(image.is_file() && source.dev() == image.dev() && source.ino() == image.ino())
}

/// Makes a file empty if it is a regular one. A pipe or a terminal keeps nothing.
fn make_empty(file: &File) -> io::Result<()> {
    if file.metadata()?.is_file() {
        file.set_len(0)?;
    }
    Ok(())
}

/// Opens a file to write to it. If it doesn't exist, it is made. It is then made empty, unless it is the file that is read
/// from: that is reported.
fn create(report: &Report<'_>, name: &str, source: &File) -> Result<File, Reported> {
    let failed = |error: io::Error| files::fail_to_create(report, name, &error);
    let file = OpenOptions::new()
        .write(true)
        .create(true)
        .open(report.rt, name)
        .map_err(failed)?;
    if are_one(source, &file).map_err(failed)? {
        return Err(files::fail_for_one_file(report, name));
    }
    make_empty(&file).map_err(failed)?;
    Ok(file)
}

/// Writes the image of a text to a file, and closes it.
fn write_image(report: &Report<'_>, text: &[u8], file: File) -> Result<(), Fault> {
    let Ok(mut output) = BlockPort::new(report.alloc(), WritePort::new(report.kept(file))) else {
        return Err(Fault::Memory);
    };
    passed_on(
        workbench::asm::asm(report.alloc(), text, &mut output),
        &mut output,
    )
}

/// Writes the image of the text in one file to another. Both are opened first. The image's file is closed before a failure is
/// reported: it may have the file descriptor of standard error, if that was closed.
pub fn asm(report: &Report<'_>, source: &str, image: &str) -> Result<Done, Reported> {
    let input = input::open(report, source)?;
    let out = create(report, image, &input)?;
    let text = input::contents(report, source, Stream::File(report.kept(input)))?;
    let file = ProgramFile::whole(source, text.as_slice());
    match write_image(report, file.bytes, out) {
        Ok(()) => Ok(Done::AsAsked),
        Err(Fault::Write) => Err(files::fail(report, source, image, Fault::Write)),
        Err(fault) => Err(fail_to_read(report, file, fault)),
    }
}

/// Writes the canonical text of the program in a file, or its rows.
pub fn list(report: &Report<'_>, name: &str, has_rows: bool) -> Result<Done, Reported> {
    let bytes = input::contents(report, name, input::stream(report, name)?)?;
    let file = ProgramFile::whole(name, bytes.as_slice());
    let program = input::program(report, file)?;
    let stdout = report.kept(report.rt.stdout());
    let mut output = WritePort::new(printable::output(report.rt, stdout));
    let answer = if has_rows {
        list_rows(report.alloc(), &program, &mut output)
    } else {
        shown::list(report.alloc(), &program.image, &mut output)
    };
    as_asked(flushed(answer, &mut output)).map_err(|fault| fail(report, file, name, fault))
}

/// Returns the words of these texts. An argument in quotes is one text, but may have several words.
fn words_of<'a>(alloc: Global, texts: &[&'a str]) -> Result<Vec<&'a str>, AllocError> {
    let mut words = Vec::new(alloc);
    for text in texts {
        for word in text.split_ascii_whitespace() {
            words.push(word)?;
        }
    }
    Ok(words)
}

/// Writes what words mean, or else what was meant by them. Returns false, and writes nothing, if neither is known.
fn push_explained<W: Sink>(alloc: Global, texts: &[&str], output: &mut W) -> Result<bool, Fault> {
    let words = words_of(alloc, texts).map_err(|_| Fault::Memory)?;
    if push_entry(&tables(), words.as_slice(), output).map_err(|_| Fault::Write)? {
        return Ok(true);
    }
    let sought = words_sought(alloc, words.as_slice()).map_err(|_| Fault::Memory)?;
    if sought.is_empty() {
        return Ok(false);
    }
    push_entry(&tables(), sought.as_slice(), output).map_err(|_| Fault::Write)
}

/// Reports that `explain` doesn't know the words of these texts, and what can be asked. A failed write isn't reported.
fn fail_without_line(report: &Report<'_>, texts: &[&str]) -> Reported {
    let mut errors = WritePort::new(printable::errors(report.rt));
    let words = words_of(report.alloc(), texts).unwrap_or(Vec::new(report.alloc()));
    let _ = push_near_questions(report.alloc(), &mut errors, words.as_slice());
    Reported { status: NO_LINE }
}

/// Writes what the words of a line mean.
pub fn explain(report: &Report<'_>, texts: &[&str]) -> Result<Done, Reported> {
    let mut output = WritePort::new(report.kept(report.rt.stdout()));
    let answer = push_explained(report.alloc(), texts, &mut output);
    match flushed(answer, &mut output) {
        Ok(true) => Ok(Done::AsAsked),
        Ok(false) => Err(fail_without_line(report, texts)),
        Err(fault) => Err(files::fail(report, "", STANDARD_OUTPUT, fault)),
    }
}
