//! How a command ends.
ghost use Rattle.std.specs.Prelude.{◌≡◌, Err, IfErr, Ok, OnOk};
ghost use Rattle.workbench.specs.declared.done.Done.TheVariants as done;
ghost use Rattle.workbench.specs.Done.{IsSettled, IsSettledBy, as_asked, done_status};

use crate::fault::Fault;
use byte_ports::Sink;

/// The result of a command without a fault.
#[derive(Clone, Copy, PartialEq, Eq)]
pub enum Done {
    /// Everything is as the caller asked.
    AsAsked,
    /// A trace isn't the run's, or a run ended differently than expected.
    Unlike,
}

impl Done {
    /// Returns the exit status: 0, or 1 if a trace or an end isn't as expected.
    pub fn status(self) -> u8
        ensures { result ≡ done_status self }
    {
        match self {
            Done::AsAsked => 0,
            Done::Unlike => 1,
        }
    }
}

/// Returns `AsAsked` (exit status 0) in place of any result that is no fault. A fault stays the same.
pub fn as_asked<T: Drop>(answer: Result<T, Fault>) -> Result<Done, Fault>
    ensures done { OnOk answer (result ≡ Ok done.AsAsked) }
    ensures fault { IfErr answer (λ fault. result ≡ Err fault) }
{
    match answer {
        Ok(_) => Ok(Done::AsAsked),
        Err(fault) => Err(fault),
    }
}

/// Returns status 0 for any result that is no fault, or the fault's status. Writes the fault's line to `errors`, if that works.
pub fn settled_as_asked<T: Drop, E: Sink>(answer: Result<T, Fault>, errors: &mut E) -> u8
    ensures { IsSettledBy as_asked answer result (E.has_failed errors.new) (E.written errors.old) (E.written errors.new) }
{
    settled(as_asked(answer), errors)
}

/// Returns the exit status of a result. Writes a fault's line to `errors`, if that works (`let _`).
pub fn settled<E: Sink>(answer: Result<Done, Fault>, errors: &mut E) -> u8
    ensures { IsSettled answer result (E.has_failed errors.new) (E.written errors.old) (E.written errors.new) }
{
    match answer {
        Ok(done) => done.status(),
        Err(fault) => {
            let _ = fault.tell(errors);
            fault.status()
        }
    }
}
