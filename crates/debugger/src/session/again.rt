// Goes back to any choice that was played: by what is kept, or by playing the choices before it again.
ghost use Rattle.std.specs.Prelude.{◌≡◌, ◌↔◌, ◌-◌, ◌<◌, [], List, IfErr, IfOk, IsErr, None, OnErr, OnOk, length, take};
ghost use Rattle.schedule_reader.specs.Schedule.{choices_of};
ghost use Rattle.thread_machine.specs.{Execution.execution, World.World, World.world_of, declared.choice.Choice.Choice};
ghost use Rattle.debugger.specs.{Moves.backs, Session.IsHistory};

use crate::marks::Marks;
use crate::session::Debugger;
use crate::stop::{NoHistory, Stop};
use schedule_reader::Run;
use std::alloc::AllocError;
use thread_machine::{Machine, StepFault};

impl Debugger {
    /// Takes back the last `count` choices. The breakpoints stay. If fewer are kept, it takes back none.
    pub fn back_by(&mut self, count: u64) -> Result<(), NoHistory>
        ensures session { OnOk result (self.new ≡ backs count self.old) }
        ensures none { IsErr result ↔ (length self.old.past < count) }
        ensures history { OnOk result ((first : World) (choices : List Choice) → IsHistory first choices self.old
            → IsHistory first (take (length choices - count) choices) self.new) }
        ensures err { OnErr result (self.new ≡ self.old) }
    {
        if (self.undos.len() as u64) < count {
            return Err(NoHistory);
        }
        for _done in 0..count {
            match self.back() {
                Ok(()) => {}
                Err(_) => unreachable!(),
            }
        }
        Ok(())
    }

    /// Returns a debugger of this machine that has played the first `count` choices of `runs`. It has the breakpoints of
    /// `self`, and can take back as many choices. If no choice is refused, this fails only if out of memory.
    pub fn again(&self, machine: Machine, runs: &[Run], count: u64) -> Result<Debugger, StepFault>
        ensures history { IfOk result (λ again.
            IsHistory (world_of machine) (take count (choices_of runs.now)) again) }
        ensures breaks { IfOk result (λ again. again.breaks ≡ self.now.breaks) }
        ensures kept { IfOk result (λ again. again.kept ≡ self.now.kept) }
        ensures memory { (execution (world_of machine) (take count (choices_of runs.now))).refusal ≡ None
            → IfErr result (λ fault. fault ≡ StepFault.Memory) }
    {
        let Ok(mut again) = self.unmarked(machine) else {
            return Err(StepFault::Memory);
        };
        let Ok(marks) = self.marks.copy(self.alloc) else {
            return Err(StepFault::Memory);
        };
        match again.go_first(runs, count) {
            Stop::End(_) => {
                again.marks = marks;
                Ok(again)
            }
            Stop::Fault(_, fault) => Err(fault),
            Stop::Break(_) => unreachable!(),
        }
    }

    /// Returns a debugger of this machine, with the room of `self` and no rows for breakpoints, so that none stops `again`.
    fn unmarked(&self, machine: Machine) -> Result<Debugger, AllocError>
        ensures { IfOk result (λ unmarked. unmarked ≡ record { machine = machine; past = []; kept = self.now.kept; breaks = [] }) }
    {
        Ok(Debugger {
            played: machine,
            undos: self.undos.emptied(self.alloc)?,
            marks: Marks::new(self.alloc, 0)?,
            alloc: self.alloc,
        })
    }
}
