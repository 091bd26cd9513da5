//! Why a plan has no schedule, and how that is reported.
ghost use Rattle.std.specs.Prelude.{◌≡◌, IsTrue, OnErr, OnOk};
ghost use Rattle.std.specs.Io.KnownBytes.{Appends};
ghost use Rattle.commands.specs.Unplanned.{plan_line, unplanned_line, unplanned_status};
ghost use Rattle.commands.specs.declared.unplanned.Unplanned.TheVariants as why;

use byte_ports::{Failed, Sink};
use itoa::Buffer;
use plans::fault::PlanFault;
use workbench::fault::{Fault, push_counted_line};

/// Why no schedule of a plan is written.
#[derive(Clone, Copy)]
pub enum Unplanned {
    /// The plan has this fault.
    Plan(PlanFault),
    /// Anything else.
    Fault(Fault),
}

impl From<Fault> for Unplanned {
    ghost from_gives = { λ fault unplanned. unplanned ≡ why.Fault fault };

    /// Makes a command's fault the reason why no schedule is written.
    fn from(fault: Fault) -> Unplanned {
        Unplanned::Fault(fault)
    }
}

/// Writes `refused plan LINE NUMBER`, or `memory` if there is no number: only out of memory has none.
fn push_plan_line<E: Sink>(errors: &mut E, line: u64, number: Option<u8>) -> Result<(), Failed>
    ensures bytes { OnOk result (Appends (E.written errors.old) (E.written errors.new)
        (plan_line line number)) }
    ensures failed { OnErr result (IsTrue (E.has_failed errors.new)) }
{
    match number {
        Some(number) => {
            errors.push(b"refused plan ")?;
            errors.push(Buffer::new().format(line).as_bytes())?;
            push_counted_line(errors, b" ", u64::from(number))
        }
        None => errors.push(b"memory\n"),
    }
}

impl Unplanned {
    /// Returns the exit status: 3 for a plan's fault, 4 if out of memory, or the other fault's own.
    pub fn status(self) -> u8
        ensures { result ≡ unplanned_status self }
    {
        match self {
            Unplanned::Plan(fault) => match fault.kind.number() {
                Some(_) => 3,
                None => 4,
            },
            Unplanned::Fault(fault) => fault.status(),
        }
    }

    /// Writes the line of this fault for standard error, as `refused plan 2 4`, in pieces, so that it needs no memory.
    pub fn tell<E: Sink>(self, errors: &mut E) -> Result<(), Failed>
        ensures bytes { OnOk result (Appends (E.written errors.old) (E.written errors.new)
            (unplanned_line self)) }
        ensures failed { OnErr result (IsTrue (E.has_failed errors.new)) }
    {
        match self {
            Unplanned::Plan(fault) => push_plan_line(errors, fault.line, fault.kind.number()),
            Unplanned::Fault(fault) => fault.tell(errors),
        }
    }
}
