//! The commands that play a program: under a schedule, by commands, or on real threads. Each says what it has done for every
//! result. It also says, in terms of one page, what is shown if everything went well, for each file whose program it is.
ghost use Rattle.std.specs.Prelude.{◌≡◌, ◌≢◌, ◌↔◌, ◌⊎◌, ◌<◌, ◌≤◌, ℕ, IsTrue, List, [], Ok, OnOk, Option, Some, None};
ghost use Rattle.assembler.specs.Meaning.{StandsFor};
ghost use Rattle.loader.specs.{Fault.first_fault, declared.load_fault.LoadFault.LoadFault};
ghost use Rattle.line_reader.specs.Listing.{canonical};
ghost use Rattle.row_code.specs.{Image.IsImage, declared.image.Image.Image};
ghost use Rattle.thread_machine.specs.{World.IsFirstOf, World.World, declared.choice.Choice.Choice};
ghost use Rattle.trace_compare.specs.Compare.{choices_of_trace, verdict_of};
ghost use Rattle.trace_compare.specs.declared.comparison.Verdict.TheVariants as verdict;
ghost use Rattle.schedule_reader.specs.Schedule.{choices_of};
ghost use Rattle.trace_text.specs.{Outcome.ComesOfChoices, Outcome.ComesTo, Trace.trace_of};
ghost use Rattle.headline.specs.EndToEnd.{HasDebuggedFile, HasDebuggedFileAt, HasFoundTheSame, HasShownChoices, HasShownFile, HasShownLive, HasShownText, SessionsGiveTheRows};
ghost use Rattle.headline.specs.Headline.{Accepted, start};
ghost use Rattle.workbench.specs.{Compare.WritesVerdict, Debug.Debugs, Debug.DebugsAt, Debug.GivesFew, List.Lists};
ghost use Rattle.workbench.specs.{Input.GivesAll, Input.GivesTooMuch, Live.IsRecorded, Live.Lives, ProgramFile.IsProgramFile};
ghost use Rattle.workbench.specs.RunLine.{program_part, schedule_part};
ghost use Rattle.workbench.specs.declared.done.Done.TheVariants as done;

use assembler::meaning::{canonical_means_image, one_image};
use byte_ports::{Sink, Source};
use row_code::Image;
use schedule_reader::Run;
use std::alloc::Global;
use std::sync::Wait;
use std::thread::Threads;
use thread_runner::Gate;
use trace_compare::Verdict;
use trace_text::{RunEnd, RunFault, run_to_end};
use workbench::companion::Companion;
use workbench::done::Done;
use workbench::fault::Fault;

/// Plays an image's program under a schedule, writes the trace, and returns how the run has ended.
pub fn run<S: Source, K: Sink>(
    alloc: Global,
    image: Image,
    schedule: &mut S,
    output: &mut K,
) -> Result<RunEnd, RunFault>
    ensures outcome { ComesTo image result (S.left schedule.old) (S.left schedule.new) (S.has_failed schedule.new)
        (K.written output.old) (K.written output.new) (K.has_failed output.new) }

    // The image is that of a file, and the schedule stands elsewhere.
    ensures file { OnOk result ((file : List ℕ) → IsProgramFile file image → HasShownFile file
        (S.left schedule.old) (S.left schedule.new) (K.written output.old) (K.written output.new)) }

    // A text holds both.
    ensures text { OnOk result ((text : List ℕ) → StandsFor (program_part text) image
        → S.left schedule.old ≡ Some (schedule_part text) → HasShownText text (K.written output.old) (K.written output.new)) }
{
    run_to_end(alloc, image, schedule, output)
}

/// Plays the choices of these runs on an image's program, writes the trace, and returns how the run has ended.
#[tactic(auto, using(crate::proofs::Showing::choices_shown))]
pub fn run_choices<K: Sink>(
    alloc: Global,
    image: Image,
    runs: &[Run],
    output: &mut K,
) -> Result<RunEnd, RunFault>
    ensures outcome { ComesOfChoices image (choices_of runs.now) result
        (K.written output.old) (K.written output.new) (K.has_failed output.new) }
    ensures shown { OnOk result ((file : List ℕ) → IsProgramFile file image
        → HasShownChoices file (choices_of runs.now) (K.written output.old) (K.written output.new)) }
{
    trace_text::run_choices(alloc, image, runs, output)
}

/// Carries out the commands of a session on an image's program, and writes the replies.
#[tactic(auto, using(crate::proofs::Showing::file_debugged))]
pub fn debug<C: Companion, K: Sink>(
    alloc: Global,
    image: Image,
    commands: &mut C,
    output: &mut K,
) -> Result<(), Fault>
    ensures outcome { Debugs None image result (C.left commands.old) (C.left commands.new) (C.has_failed commands.new)
        (K.written output.old) (K.written output.new) (K.has_failed output.new) }
    ensures shown { OnOk result ((file : List ℕ) → IsProgramFile file image → HasDebuggedFile None file
        (C.left commands.old) (C.left commands.new) (K.written output.old) (K.written output.new)) }
    ensures few { GivesFew (C.left commands.old) (C.left commands.new) }
{
    workbench::debug::debug(alloc, image, commands, output)
}

/// Plays runs of choices as the command `g` does, then carries out the commands of a session, and writes all replies.
#[tactic(auto, using(crate::proofs::Showing::file_debugged))]
pub fn debug_behind<C: Companion, K: Sink>(
    alloc: Global,
    image: Image,
    runs: &[Run],
    commands: &mut C,
    output: &mut K,
) -> Result<(), Fault>
    ensures outcome { Debugs (Some runs.now) image result
        (C.left commands.old) (C.left commands.new) (C.has_failed commands.new)
        (K.written output.old) (K.written output.new) (K.has_failed output.new) }
    ensures shown { OnOk result ((file : List ℕ) → IsProgramFile file image → HasDebuggedFile (Some runs.now) file
        (C.left commands.old) (C.left commands.new) (K.written output.old) (K.written output.new)) }
    ensures few { GivesFew (C.left commands.old) (C.left commands.new) }
{
    workbench::debug::debug_behind(alloc, image, runs, commands, output)
}

/// Plays a trace's choices as the command `g` does, then carries out a session's commands. If it isn't a trace, it writes at
/// which line, carries out none, and returns `Unlike`.
pub fn debug_at<T: Source, C: Companion, K: Sink>(
    alloc: Global,
    image: Image,
    trace: &mut T,
    commands: &mut C,
    output: &mut K,
) -> Result<Done, Fault>
    ensures outcome { DebugsAt image result (T.left trace.old) (T.left trace.new) (T.has_failed trace.new)
        (C.left commands.old) (C.left commands.new) (C.has_failed commands.new)
        (K.written output.old) (K.written output.new) (K.has_failed output.new) }
    ensures shown { result ≡ Ok done.AsAsked → (file : List ℕ) → IsProgramFile file image
        → HasDebuggedFileAt file (T.left trace.old) (T.left trace.new)
        (C.left commands.old) (C.left commands.new) (K.written output.old) (K.written output.new) }
    ensures few { GivesFew (C.left commands.old) (C.left commands.new) }
{
    workbench::debug::debug_at(alloc, image, trace, commands, output)
}

/// Plays an image's program on real threads, writes the trace of the choices that they made, and returns how the run has ended.
#[tactic(auto, using(crate::proofs::Showing::live_shown))]
pub fn live<R: Threads + Wait + Sync, G: Gate + Sync, K: Sink>(
    threads: &R,
    alloc: Global,
    limit: u32,
    gate: &G,
    image: Image,
    output: &mut K,
) -> Result<RunEnd, Fault>
    requires { limit ≤ 1000000000 }
    ensures outcome { Lives limit image result (K.written output.old) (K.written output.new) (K.has_failed output.new) }
    ensures shown { OnOk result ((file : List ℕ) → IsProgramFile file image
        → HasShownLive limit file (K.written output.old) (K.written output.new)) }
{
    workbench::live::live(threads, alloc, limit, gate, image, output)
}

/// Plays a text that has both a program and, below a line `.run`, its schedule: reads it from `input`, and writes the trace of
/// the run to `output`. Returns the exit status: 0, 3 if the text is refused, 4 if it is out of memory, or 5 if `input` or
/// `output` failed, or `input` gave more than 16,777,216 bytes. If it isn't 0, `errors` gets one line: `workbench::both_cmd`
/// says which. The program reads the two parts by itself, and calls `run`.
pub fn both_cmd<S: Source, K: Sink, E: Sink>(
    alloc: Global,
    input: &mut S,
    output: &mut K,
    errors: &mut E,
) -> u8
    ensures statuses { (result ≡ 0) ⊎ ((3 ≤ result) × (result ≤ 5)) }
    ensures shown { result ≡ 0 → (text : List ℕ) × (GivesAll (S.left input.old) (S.left input.new) text
        × HasShownText text (K.written output.old) (K.written output.new)) }

    // No run of this text is ever shown.
    ensures refused { result ≡ 3 → (text : List ℕ) × (GivesAll (S.left input.old) (S.left input.new) text
        × ((before after : Option (List ℕ)) → HasShownText text before after → ⊥)) }
    ensures ports { result ≡ 5 → IsTrue (S.has_failed input.new)
        ⊎ (GivesTooMuch (S.left input.old) (S.left input.new) ⊎ IsTrue (K.has_failed output.new)) }
{
    workbench::both_cmd(alloc, input, output, errors)
}

/// Compares a trace with the run of an image's program, and writes the verdict.
pub fn compare<S: Source, K: Sink>(
    alloc: Global,
    image: Image,
    trace: &mut S,
    output: &mut K,
) -> Result<Verdict, Fault>
    ensures outcome { WritesVerdict image result (S.left trace.old) (S.left trace.new) (S.has_failed trace.new)
        (K.written output.old) (K.written output.new) (K.has_failed output.new) }
    ensures same { result ≡ Ok verdict.Same → (file : List ℕ) → IsProgramFile file image
        → HasFoundTheSame file (S.left trace.old) (S.left trace.new) }
{
    workbench::compare::compared(alloc, image, trace, output)
}

/// Writes the canonical text of an image.
pub fn list<K: Sink>(alloc: Global, image: &Image, output: &mut K) -> Result<(), Fault>
    ensures { Lists image.now result (K.written output.old) (K.written output.new) (K.has_failed output.new) }
{
    workbench::list::list(alloc, image, output)
}

/// A law: a trace has the verdict `Same` exactly if it is that of the choices that its lines name, from the first state.
#[tactic(auto, using(crate::proofs::Sames::same_alone))]
pub fn the_same_is_that_trace_alone()
    ensures { (image : Image) (first : World) (trace : List ℕ) → IsFirstOf image 1000000000 first
        → (verdict_of first trace ≡ verdict.Same) ↔ (trace ≡ trace_of (start image) (choices_of_trace trace)) }
{}

/// A law: if the loader refuses a text's program, no run of it is ever shown. An example is a thread without a row.
pub fn what_is_refused_is_never_shown()
    ensures { (text : List ℕ) (image : Image) (why : LoadFault) (before after : Option (List ℕ))
        → StandsFor (program_part text) image → first_fault image ≡ Some why
        → HasShownText text before after → ⊥ }
{}

/// A law: at each line of a session, the machine is in the state after the choices that were played and not taken back.
#[tactic(auto, using(crate::proofs::Sessions::give_the_rows))]
pub fn sessions_give_the_rows()
    ensures { SessionsGiveTheRows }
{}

/// A law: a live run of an accepted program makes at least one choice, unless its limit of steps is 0. So a trace without
/// choices is never the trace of such a run.
pub fn a_live_run_chooses()
    ensures { (limit : ℕ) (image : Image) (choices : List Choice)
        → 0 < limit → Accepted image → IsRecorded image limit choices → choices ≢ [] }
{}

/// A law: the image of a text or a file is within the limits of images. It is accepted if the loader finds no fault.
pub fn what_is_read_is_within_limits()
    ensures text { (text : List ℕ) (image : Image) → StandsFor text image → IsImage image }
    ensures file { (file : List ℕ) (image : Image) → IsProgramFile file image → IsImage image }
{}

/// A law, by two that it calls: the canonical text of an image within the limits is that image's. No text has two.
pub fn a_canonical_text_is_read_back()
    ensures represents { (image : Image) → IsImage image → StandsFor (canonical image) image }
    ensures one { (text : List ℕ) (a b : Image) → StandsFor text a → StandsFor text b → a ≡ b }
{
    canonical_means_image();
    one_image();
}
