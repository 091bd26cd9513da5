// Puts a page together: its fixed parts, and between them the listing, the source, the schedule and the trace.
ghost use Rattle.std.specs.Prelude.{◌≡◌, ◌≢◌, ◌<◌, ◌≤◌, ◌⊎◌, ◌++◌, ℕ, List, All, length, flat_map, IfErr, IfOk, OnOk, Err, Some, None, false};
ghost use Rattle.std.specs.Borrow.{Bor};
ghost use Rattle.loader.specs.{declared.load_fault.LoadFault.LoadFault, Fault.first_fault, Program.IsProgramOf};
ghost use Rattle.pictures.specs.{Choices.HasMoreChoices, Choices.most_page_choices, Missing.IsMissingIn, Missing.missing_in};
ghost use Rattle.pictures.specs.Page.{HasLongTrace, IsPageIn, escaped, most_trace, page_text, parts_of};
ghost use Rattle.schedule_reader.specs.{declared.fault.ScheduleFault.ScheduleFault, Text.schedule_text};
ghost use Rattle.schedule_reader.specs.Schedule.{IsRun, choices_of, finished_schedule};
ghost use Rattle.thread_machine.specs.World.{first_world};
ghost use Rattle.trace_text.specs.{Start.IsRefused, Start.is_want_of_memory, Trace.trace_of};

use crate::choices::{MOST_PAGE_CHOICES, runs_in};
use crate::escape::add_escaped;
use crate::frame::Frame;
use crate::missing::{Shown, missing_of};
use byte_ports::CountingSink;
use line_reader::disassemble;
use loader::{LoadFault, Loaded, load};
use row_code::Image;
use schedule_reader::{Run, ScheduleFault, write_schedule};
use std::alloc::{AllocError, Global};
use thread_machine::Choice;
use trace_text::run_loaded;

/// The most bytes of a page's trace.
const MOST_TRACE: usize = 16_777_216;

/// Why no picture is made.
#[derive(Clone, Copy, PartialEq, Eq)]
pub enum PageFault {
    /// The image can't be loaded. The fault is never `Memory`.
    Load(LoadFault),
    /// The schedule has a fault, which is never `Memory`.
    Schedule(ScheduleFault),
    /// The schedule has more than 2,000 choices for a drawing, or more than 1,000,000 for a page.
    Choices,
    /// The trace of a page would have more than 16,777,216 bytes.
    Trace,
    /// Out of memory.
    Memory,
}

impl From<AllocError> for PageFault {
    ghost use Rattle.std.specs.Prelude.{◌≡◌};
    ghost use Rattle.pictures.specs.declared.page.PageFault.TheVariants.{Memory};

    ghost from_gives = { λ _ fault. fault ≡ Memory };

    /// Turns missing memory into `PageFault::Memory`, so that `?` can pass it on.
    fn from(_error: AllocError) -> PageFault {
        PageFault::Memory
    }
}

/// Loads an image's program, or returns why it can't be loaded: `Load`, or `Memory` if there was too little.
fn loaded(alloc: Global, image: Image) -> Result<Loaded, PageFault>
    ensures program { IfOk result (λ program. IsProgramOf image program) }
    ensures none { OnOk result (first_fault image ≡ None) }
    ensures load { (fault : LoadFault) → result ≡ Err (PageFault.Load fault)
        → IsRefused fault image × (is_want_of_memory fault ≡ false) }
    ensures refused { (fault : LoadFault) → IsRefused fault image
        → (result ≡ Err (PageFault.Load fault)) ⊎ (result ≡ Err PageFault.Memory) }
    ensures others { ((fault : ScheduleFault) → result ≢ Err (PageFault.Schedule fault))
        × (result ≢ Err PageFault.Choices) × (result ≢ Err PageFault.Trace) }
{
    match load(alloc, image) {
        Ok(program) => Ok(program),
        Err(LoadFault::Memory) => Err(PageFault::Memory),
        Err(fault) => Err(PageFault::Load(fault)),
    }
}

/// A trace, and the choice of a thread that doesn't exist, with its number from 1, if this choice ended the run.
#[derive(Drop)]
struct Traced {
    text: CountingSink,
    missing: Option<(u64, Choice)>,
}

/// Plays these runs on a program, and counts all bytes of their trace, but keeps only the first 16,777,216. Fails only if out
/// of memory: the output never fails.
fn trace_of_runs(alloc: Global, program: Loaded, runs: &[Run]) -> Result<Traced, AllocError>
    ensures text { IfOk result (λ traced. traced.text.written ≡ trace_of (first_world program 1000000000) (choices_of runs.now)) }
    ensures missing { IfOk result (λ traced. traced.missing
        ≡ missing_in (first_world program 1000000000) (choices_of runs.now)) }
{
    let mut text = CountingSink::new(alloc, MOST_TRACE);
    let end = match run_loaded(alloc, program, runs, &mut text) {
        Ok(end) => end,
        Err(_) => return Err(AllocError),
    };
    let missing = missing_of(&end);
    Ok(Traced { text, missing })
}

/// Returns a trace if all of it was kept. Else returns `Trace` if it is too long for a page, or `Memory`.
fn whole(text: &CountingSink) -> Result<&[u8], PageFault>
    ensures whole { IfOk result (λ trace. (trace.now ≡ text.now.written) × (length text.now.written ≤ most_trace)) }
    ensures long { result ≡ Err PageFault.Trace → most_trace < length text.now.written }
    ensures others { IfErr result (λ fault. (fault ≡ PageFault.Trace) ⊎ (fault ≡ PageFault.Memory)) }
{
    if text.count() > MOST_TRACE {
        return Err(PageFault::Trace);
    }
    if !text.has_kept(MOST_TRACE) {
        return Err(PageFault::Memory);
    }
    Ok(text.kept())
}

/// Appends a fixed part (`before`), and after it a text, which is escaped.
fn add_text(page: &mut Vec<u8>, before: &[u8], text: &[u8]) -> Result<(), AllocError>
    ensures { OnOk result (page.new.items ≡ page.old.items ++ (before.now ++ escaped text.now)) }
{
    page.extend_from_slice(before)?;
    add_escaped(page, text)
}

/// Appends the pieces of the fixed part after the last text.
fn add_tail(page: &mut Vec<u8>, tail: &[&[u8]]) -> Result<(), AllocError>
    ensures { OnOk result (page.new.items ≡ page.old.items ++ flat_map (λ (piece : Bor (List ℕ)). piece.now) tail.now) }
{
    for piece in tail {
        page.extend_from_slice(piece)?;
    }
    Ok(())
}

/// Returns a page: the parts of `frame`, and between them these four texts.
#[tactic(auto, using(std::proofs::Common::append_assoc))]
fn page_in(
    alloc: Global,
    frame: Frame,
    listing: &[u8],
    source: &[u8],
    schedule: &[u8],
    trace: &[u8],
) -> Result<Vec<u8>, AllocError>
    ensures { IfOk result (λ page. page.items ≡ page_text (parts_of frame.entry)
        listing.now source.now schedule.now trace.now) }
{
    let mut page = Vec::new(alloc);
    add_text(&mut page, frame.head, listing)?;
    add_text(&mut page, frame.before_source, source)?;
    add_text(&mut page, frame.before_schedule, schedule)?;
    add_text(&mut page, frame.before_trace, trace)?;
    add_tail(&mut page, &frame.tail)?;
    Ok(page)
}

/// Returns the page of a program under these runs, with this listing and source, or the fault `Trace` or `Memory`.
fn show_runs(
    alloc: Global,
    frame: Frame,
    listing: &[u8],
    source: &[u8],
    program: Loaded,
    runs: &[Run],
) -> Result<Shown, PageFault>
    requires { All IsRun runs.now }
    ensures page { IfOk result (λ shown. (length (trace_of (first_world program 1000000000) (choices_of runs.now)) ≤ most_trace)
        × (shown.bytes.items ≡ page_text (parts_of frame.entry) listing.now source.now (schedule_text runs.now)
        (trace_of (first_world program 1000000000) (choices_of runs.now)))) }
    ensures missing { IfOk result (λ shown. shown.missing
        ≡ missing_in (first_world program 1000000000) (choices_of runs.now)) }
    ensures long { result ≡ Err PageFault.Trace
        → most_trace < length (trace_of (first_world program 1000000000) (choices_of runs.now)) }
    ensures others { IfErr result (λ fault. (fault ≡ PageFault.Trace) ⊎ (fault ≡ PageFault.Memory)) }
{
    let schedule = write_schedule(alloc, runs)?;
    let Traced { text, missing } = trace_of_runs(alloc, program, runs)?;
    let trace = whole(&text)?;
    let bytes = page_in(alloc, frame, listing, source, schedule.as_bytes(), trace)?;
    Ok(Shown { bytes, missing })
}

/// Returns the page of a program with its source, which may be empty, its schedule and its trace; or what is wrong with them.
/// Beside the page it returns the choice that ended the run because its thread doesn't exist, if one did (`missing`). By the
/// contract, each fault is returned only if it is there, and an image with a load fault never has a page.
pub fn page(
    alloc: Global,
    frame: Frame,
    image: Image,
    source: &[u8],
    schedule: &[u8],
) -> Result<Shown, PageFault>
    requires { length schedule.now < 9223372036854775807 }
    ensures page { IfOk result (λ shown. IsPageIn (parts_of frame.entry) image source.now schedule.now shown.bytes.items) }
    ensures missing { IfOk result (λ shown. IsMissingIn image schedule.now shown.missing) }
    ensures load { (fault : LoadFault) → result ≡ Err (PageFault.Load fault)
        → IsRefused fault image × (is_want_of_memory fault ≡ false) }
    ensures schedule { (fault : ScheduleFault) → result ≡ Err (PageFault.Schedule fault)
        → ((finished_schedule schedule.now).fault ≡ Some fault) × (fault ≢ ScheduleFault.Memory) }
    ensures many { result ≡ Err PageFault.Choices → HasMoreChoices most_page_choices schedule.now }
    ensures long { result ≡ Err PageFault.Trace → HasLongTrace image schedule.now }
    ensures refused { (fault : LoadFault) → IsRefused fault image
        → (result ≡ Err (PageFault.Load fault)) ⊎ (result ≡ Err PageFault.Memory) }
{
    let Ok(listing) = disassemble(alloc, &image) else {
        return Err(PageFault::Memory);
    };
    let program = match loaded(alloc, image) {
        Ok(program) => program,
        Err(fault) => return Err(fault),
    };
    let runs = runs_in(alloc, schedule, MOST_PAGE_CHOICES)?;
    show_runs(
        alloc,
        frame,
        listing.as_slice(),
        source,
        program,
        runs.as_slice(),
    )
}
