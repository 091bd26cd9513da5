// The choices of a schedule, of which a drawing shows at most 2,000, and a page plays at most 1,000,000.
ghost use Rattle.std.specs.Prelude.{◌≡◌, ◌≢◌, ◌≤◌, ◌<◌, ◌+◌, ◌++◌, ◌↔◌, All, IsTrue, length, replicate, Some, None, Err, IfErr, IfOk, OnOk};
ghost use Rattle.pictures.specs.Choices.{AreChoicesOf, AreRunsOf, HasMoreChoices, most_choices};
ghost use Rattle.pictures.specs.declared.page.PageFault.{PageFault};
ghost use Rattle.schedule_reader.specs.declared.fault.ScheduleFault.{ScheduleFault};
ghost use Rattle.schedule_reader.specs.Schedule.{IsRun, choices_of, finished_schedule};
ghost use Rattle.loader.specs.declared.load_fault.LoadFault.{LoadFault};

use crate::page::PageFault;
use loader::LoadFault;
use schedule_reader::{Run, ScheduleFault, read_schedule};
use std::alloc::{AllocError, Global};
use thread_machine::Choice;

/// The most choices that a drawing shows.
pub const MOST_CHOICES: u64 = 2000;

/// The most choices that a page plays.
pub const MOST_PAGE_CHOICES: u64 = 1_000_000;

/// Returns whether these runs have more than `most` choices.
fn have_more(runs: &[Run], most: u64) -> bool
    ensures { IsTrue result ↔ (most < length (choices_of runs.now)) }
{
    let mut left = most;
    for run in runs {
        if u64::from(run.times) > left {
            return true;
        }
        left -= u64::from(run.times);
    }
    false
}

/// Returns the runs of a schedule, or its fault, or `Choices` if there are more than `most`. A run is a choice and how often it
/// is made. By the contract, each fault is returned only if it is there, and no other faults are returned.
pub(crate) fn runs_in(alloc: Global, schedule: &[u8], most: u64) -> Result<Vec<Run>, PageFault>
    requires { length schedule.now < 9223372036854775807 }
    ensures runs { IfOk result (λ runs. AreRunsOf schedule.now runs.items) }
    ensures spelled { IfOk result (λ runs. All IsRun runs.items) }
    ensures few { IfOk result (λ runs. length (choices_of runs.items) ≤ most) }
    ensures schedule { (fault : ScheduleFault) → result ≡ Err (PageFault.Schedule fault)
        → ((finished_schedule schedule.now).fault ≡ Some fault) × (fault ≢ ScheduleFault.Memory) }
    ensures many { result ≡ Err PageFault.Choices → HasMoreChoices most schedule.now }
    ensures others { ((fault : LoadFault) → result ≢ Err (PageFault.Load fault)) × (result ≢ Err PageFault.Trace) }
{
    let runs = match read_schedule(alloc, schedule) {
        Ok(runs) => runs,
        Err(ScheduleFault::Memory) => return Err(PageFault::Memory),
        Err(fault) => return Err(PageFault::Schedule(fault)),
    };
    if have_more(runs.as_slice(), most) {
        return Err(PageFault::Choices);
    }
    Ok(runs)
}

/// Appends a run's choice, as often as the run has it.
fn add_run(choices: &mut Vec<Choice>, run: Run) -> Result<(), AllocError>
    requires { length choices.old.items + run.times ≤ most_choices }
    ensures { OnOk result (choices.new.items ≡ choices.old.items ++ replicate run.times run.choice) }
{
    choices.resize(choices.len() + run.times as usize, run.choice)
}

/// Returns the choices of these runs, one by one, each as often as its run has it.
fn choices_of(alloc: Global, runs: &[Run]) -> Result<Vec<Choice>, AllocError>
    requires { length (choices_of runs.now) ≤ most_choices }
    ensures { IfOk result (λ choices. choices.items ≡ choices_of runs.now) }
{
    let mut choices = Vec::new(alloc);
    for run in runs {
        add_run(&mut choices, *run)?;
    }
    Ok(choices)
}

/// Returns the choices of a schedule's text, one by one, or the schedule's fault, or `Choices` if they are more than 2,000. By
/// the contract, each fault is returned only if it is there, and no other faults are returned.
pub fn choices_in(alloc: Global, schedule: &[u8]) -> Result<Vec<Choice>, PageFault>
    requires { length schedule.now < 9223372036854775807 }
    ensures choices { IfOk result (λ choices. AreChoicesOf schedule.now choices.items) }
    ensures few { IfOk result (λ choices. length choices.items ≤ most_choices) }
    ensures schedule { (fault : ScheduleFault) → result ≡ Err (PageFault.Schedule fault)
        → ((finished_schedule schedule.now).fault ≡ Some fault) × (fault ≢ ScheduleFault.Memory) }
    ensures many { result ≡ Err PageFault.Choices → HasMoreChoices most_choices schedule.now }
    ensures others { ((fault : LoadFault) → result ≢ Err (PageFault.Load fault)) × (result ≢ Err PageFault.Trace) }
{
    let runs = runs_in(alloc, schedule, MOST_CHOICES)?;
    let choices = choices_of(alloc, runs.as_slice())?;
    Ok(choices)
}
