//! What the program reads: the file that an argument names, or standard input. What is read whole is read once.

ghost use Rattle.std.specs.Prelude.{IfOk};
ghost use Rattle.assembler.specs.Meaning.{StandsFor};
ghost use Rattle.workbench.specs.ProgramFile.{IsNamedProgram};

use crate::notes;
use byte_ports::{BlockPort, ReadPort, WritePort};
use command_line::ports::input::InputOf;
use command_line::ports::reasoned::Reasoned;
use fault_reports::files::{self, STANDARD_INPUT};
use fault_reports::program::{ProgramFile, fail_to_read};
use fault_reports::report::{Report, Reported};
use std::fs::{self, File};
use std::io::{Stdin, Stdout};
use workbench::Program;
use workbench::fault::Fault;
use workbench::input::read_all;
use workbench::program::{program_in, program_of_text};

/// A stream that the program reads.
pub type Stream<'a> = InputOf<'a, Reasoned<'a, File>, Reasoned<'a, Stdin>>;

/// Standard output, which is written in blocks.
pub type OutputBlocks<'a> = BlockPort<WritePort<Reasoned<'a, Stdout>>>;

/// Returns standard output, for what is written in blocks.
pub fn block_port<'a>(report: &'a Report<'_>) -> Result<OutputBlocks<'a>, Reported> {
    let output = WritePort::new(report.kept(report.rt.stdout()));
    BlockPort::new(report.alloc(), output).map_err(|_| report.fault(Fault::Memory))
}

/// Opens the file of this name to read it, or reports why it can't be opened.
pub fn open(report: &Report<'_>, name: &str) -> Result<File, Reported> {
    fs::open(report.rt, name).map_err(|error| files::fail_to_open(report, name, &error))
}

/// Opens the file of this name to be read as a stream.
pub fn stream<'a>(report: &'a Report<'_>, name: &str) -> Result<Stream<'a>, Reported> {
    Ok(Stream::File(report.kept(open(report, name)?)))
}

/// Returns standard input as a stream. The system's reason is kept if a read fails.
pub fn standard<'a>(report: &'a Report<'_>) -> Stream<'a> {
    Stream::Standard(report.kept(report.rt.stdin()))
}

/// Opens the file `word`, or standard input for `-`: then a person is shown `waiting`, which may be empty. Returns the stream
/// with the name that reports show.
pub fn open_named<'a, 'b>(
    report: &'a Report<'_>,
    word: &'b str,
    waiting: &[u8],
) -> Result<(&'b str, Stream<'a>), Reported> {
    if word != "-" {
        return Ok((word, stream(report, word)?));
    }
    notes::push_waiting(report, waiting);
    Ok((STANDARD_INPUT, standard(report)))
}

/// Returns all that a stream of this name holds.
pub fn contents(report: &Report<'_>, name: &str, stream: Stream<'_>) -> Result<Vec<u8>, Reported> {
    let failed = |fault| files::fail(report, name, "", fault);
    read_all(report.alloc(), &mut ReadPort::new(stream)).map_err(failed)
}

/// Returns the program of a file, which is a text or an image, or reports why it has none.
pub fn program<'a>(report: &Report<'_>, file: ProgramFile<'a>) -> Result<Program<'a>, Reported>
    ensures { IfOk result (λ program. IsNamedProgram program.bytes.now program.image program.names) }
{
    program_in(report.alloc(), file.text).map_err(|fault| fail_to_read(report, file, fault))
}

/// Returns the program of standard input, which is read as a text even if it begins as an image does.
pub fn text<'a>(report: &Report<'_>, file: ProgramFile<'a>) -> Result<Program<'a>, Reported>
    ensures { IfOk result (λ program. StandsFor program.bytes.now program.image) }
{
    program_of_text(report.alloc(), file.text).map_err(|fault| fail_to_read(report, file, fault))
}
