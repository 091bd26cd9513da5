// Why a command gave up, its line for standard error, and its exit status.
ghost use Rattle.std.specs.Prelude.{◌≡◌, ◌++◌, IsTrue, OnErr, OnOk, codes};
ghost use Rattle.std.specs.Io.KnownBytes.{Appends};
ghost use Rattle.workbench.specs.Outcome.{fault_of_run};
ghost use Rattle.workbench.specs.Fault.{counted, counted_line, line_of, number_of, place_of, refusal_line, refusal_status, status_of, too_long, word_of};

use assembler::PlacedFault;
use byte_ports::{Failed, Sink};
use itoa::Buffer;
use loader::{LoadFault, Place};
use row_code::ImageFault;
use schedule_reader::ScheduleFault;
use std::alloc::AllocError;
use trace_text::RunFault;

/// Which picture of a run is asked for.
#[derive(Clone, Copy, PartialEq, Eq)]
pub enum PictureKind {
    /// `show`
    Page,
    /// `draw`
    Drawing,
}

impl PictureKind {
    /// Returns the line for a schedule with more choices than such a picture has room for.
    fn too_long(self) -> &'static [u8]
        ensures { result.now ≡ too_long self }
    {
        match self {
            PictureKind::Page => b"refused show 1000000\n",
            PictureKind::Drawing => b"refused draw 2000\n",
        }
    }
}

/// Why a command gave up.
#[derive(Clone, Copy)]
pub enum Fault {
    /// The program's text has this fault, or there was no memory for it.
    Asm(PlacedFault),
    /// The image has this fault, or there was no memory for it.
    Image(ImageFault),
    /// The program isn't loaded, for this fault.
    Load(LoadFault),
    /// The schedule has this fault.
    Schedule(ScheduleFault),
    /// The schedule has more choices than a picture has room for.
    TooLong(PictureKind),
    /// The trace of the run has more bytes than a page has room for.
    LongTrace,
    /// Out of memory.
    Memory,
    /// A thread couldn't be started.
    Spawn,
    /// The input failed, or is too long.
    Read,
    /// The output failed.
    Write,
}

impl From<AllocError> for Fault {
    ghost use Rattle.std.specs.Prelude.{◌≡◌};
    ghost use Rattle.workbench.specs.declared.fault.Fault.TheVariants.{Memory};

    ghost from_gives = { λ _ fault. fault ≡ Memory };

    /// Makes a lack of memory a command's fault.
    fn from(_error: AllocError) -> Fault {
        Fault::Memory
    }
}

impl Fault {
    /// Returns a run's fault as a command's fault.
    pub fn of_run(fault: RunFault) -> Fault
        ensures { result ≡ fault_of_run fault }
    {
        match fault {
            RunFault::Load(fault) => Fault::Load(fault),
            RunFault::Schedule(fault) => Fault::Schedule(fault),
            RunFault::Memory => Fault::Memory,
            RunFault::Read => Fault::Read,
            RunFault::Write => Fault::Write,
        }
    }
}

/// Returns the exit status of a fault in an input, by the number of its kind: 3, or 4 for out of memory, which has no number.
fn refusal_status(number: Option<u8>) -> u8
    ensures { result ≡ refusal_status number }
{
    match number {
        Some(_) => 3,
        None => 4,
    }
}

/// Writes a word, and directly after it a number in decimal, as ` row 7`.
pub(crate) fn push_with_count<E: Sink>(
    errors: &mut E,
    word: &[u8],
    count: u64,
) -> Result<(), Failed>
    ensures bytes { OnOk result (Appends (E.written errors.old) (E.written errors.new)
        (counted word.now count)) }
    ensures failed { OnErr result (IsTrue (E.has_failed errors.new)) }
{
    errors.push(word)?;
    errors.push(Buffer::new().format(count).as_bytes())
}

/// Writes a word, and directly after it a number in decimal and an LF.
pub fn push_counted_line<E: Sink>(errors: &mut E, word: &[u8], count: u64) -> Result<(), Failed>
    ensures bytes { OnOk result (Appends (E.written errors.old) (E.written errors.new)
        (counted_line word.now count)) }
    ensures failed { OnErr result (IsTrue (E.has_failed errors.new)) }
{
    push_with_count(errors, word, count)?;
    errors.push(b"\n")
}

/// Writes the number of a phaser that can't be declared, and the number of the reason, as ` 0 2`.
fn push_declare_place<E: Sink>(errors: &mut E, phaser: u8, why: u8) -> Result<(), Failed>
    ensures bytes { OnOk result (Appends (E.written errors.old) (E.written errors.new)
        (counted (codes " ") phaser ++ counted (codes " ") why)) }
    ensures failed { OnErr result (IsTrue (E.has_failed errors.new)) }
{
    push_with_count(errors, b" ", u64::from(phaser))?;
    push_with_count(errors, b" ", u64::from(why))
}

impl Fault {
    /// Returns the number of the kind of a fault in a text, an image, a program or a schedule. `None`: it is out of memory, or
    /// another fault.
    fn number(self) -> Option<u8>
        ensures { result ≡ number_of self }
    {
        match self {
            Fault::Asm(fault) => fault.fault.kind.number(),
            Fault::Image(fault) => fault.number(),
            Fault::Load(fault) => fault.number(),
            Fault::Schedule(fault) => fault.number(),
            _ => None,
        }
    }

    /// Writes what precedes the number in a refusal's line, as `refused load `, or `refused asm 3 ` with the line of the text.
    fn push_word<E: Sink>(self, errors: &mut E) -> Result<(), Failed>
        ensures bytes { OnOk result (Appends (E.written errors.old) (E.written errors.new) (word_of self)) }
        ensures failed { OnErr result (IsTrue (E.has_failed errors.new)) }
    {
        match self {
            Fault::Asm(fault) => {
                push_with_count(errors, b"refused asm ", fault.fault.line)?;
                errors.push(b" ")
            }
            Fault::Image(_) => errors.push(b"refused image "),
            Fault::Load(_) => errors.push(b"refused load "),
            Fault::Schedule(_) => errors.push(b"refused schedule "),
            _ => errors.push(b""),
        }
    }

    /// Writes what follows the number in a refusal's line: the fault's place, as ` row 7`, or nothing if it has none.
    fn push_place<E: Sink>(self, errors: &mut E) -> Result<(), Failed>
        ensures bytes { OnOk result (Appends (E.written errors.old) (E.written errors.new) (place_of self)) }
        ensures failed { OnErr result (IsTrue (E.has_failed errors.new)) }
    {
        match self {
            Fault::Image(ImageFault::Field(at)) => push_with_count(errors, b" ", at as u64),
            Fault::Image(ImageFault::Row(n)) => push_with_count(errors, b" ", u64::from(n)),
            Fault::Load(LoadFault::Target(Place::Row(n))) => {
                push_with_count(errors, b" row ", u64::from(n))
            }
            Fault::Load(LoadFault::Target(Place::Thread(n))) => {
                push_with_count(errors, b" thread ", u64::from(n))
            }
            Fault::Load(LoadFault::Target(Place::Phaser(n))) => {
                push_with_count(errors, b" phaser ", u64::from(n))
            }
            Fault::Load(LoadFault::Target(Place::Barrier(n))) => {
                push_with_count(errors, b" barrier ", u64::from(n))
            }
            Fault::Load(
                LoadFault::NoSuchPhaser(row)
                | LoadFault::NoSuchBarrier(row)
                | LoadFault::NoSuchThread(row)
                | LoadFault::NoSuchCell(row),
            ) => push_with_count(errors, b" ", u64::from(row)),
            Fault::Load(LoadFault::Declare(phaser, why)) => {
                push_declare_place(errors, phaser, why.number())
            }
            Fault::Load(LoadFault::BarrierParties(n)) => {
                push_with_count(errors, b" ", u64::from(n))
            }
            Fault::Schedule(
                ScheduleFault::Byte(at) | ScheduleFault::Number(at) | ScheduleFault::Repeat(at),
            ) => push_with_count(errors, b" ", at),
            _ => errors.push(b""),
        }
    }

    /// Writes a refusal's line: its words, number and place. A fault without a number is out of memory: the line is `memory`.
    fn push_refusal<E: Sink>(self, errors: &mut E) -> Result<(), Failed>
        ensures bytes { OnOk result (Appends (E.written errors.old) (E.written errors.new)
            (refusal_line (word_of self) (number_of self) (place_of self))) }
        ensures failed { OnErr result (IsTrue (E.has_failed errors.new)) }
    {
        match self.number() {
            Some(number) => {
                self.push_word(errors)?;
                errors.push(Buffer::new().format(number).as_bytes())?;
                self.push_place(errors)?;
                errors.push(b"\n")
            }
            None => errors.push(b"memory\n"),
        }
    }

    /// Returns the exit status: 3 for a refusal, 4 if out of memory or threads, 5 if a port failed.
    pub fn status(self) -> u8
        ensures { result ≡ status_of self }
    {
        match self {
            Fault::TooLong(_) | Fault::LongTrace => 3,
            Fault::Memory | Fault::Spawn => 4,
            Fault::Read | Fault::Write => 5,
            _ => refusal_status(self.number()),
        }
    }

    /// Writes the fault's line for standard error, as `refused asm 3 2` or `memory`, in pieces, so that it needs no memory.
    pub fn tell<E: Sink>(self, errors: &mut E) -> Result<(), Failed>
        ensures bytes { OnOk result (Appends (E.written errors.old) (E.written errors.new)
            (line_of self)) }
        ensures failed { OnErr result (IsTrue (E.has_failed errors.new)) }
    {
        match self {
            Fault::TooLong(kind) => errors.push(kind.too_long()),
            Fault::LongTrace => errors.push(b"refused show 16777216\n"),
            Fault::Memory => errors.push(b"memory\n"),
            Fault::Spawn => errors.push(b"spawn\n"),
            Fault::Read => errors.push(b"read\n"),
            Fault::Write => errors.push(b"write\n"),
            _ => self.push_refusal(errors),
        }
    }
}
