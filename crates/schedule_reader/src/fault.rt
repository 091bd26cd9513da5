ghost use Rattle.std.specs.Prelude.{◌≡◌};
ghost use Rattle.schedule_reader.specs.FaultNumber.{schedule_number};

/// What is wrong with a schedule. An offset counts the stream's bytes from 0.
#[derive(Clone, Copy, PartialEq, Eq)]
pub enum ScheduleFault {
    /// The byte at this offset isn't allowed there, or a token ends there that isn't complete.
    Byte(u64),
    /// The thread's number, which begins at this offset, has a third digit or is above 63.
    Number(u64),
    /// The count, which begins at this offset, has an eleventh digit, is above 1,000,000,000 or is 0.
    Repeat(u64),
    /// Out of memory.
    Memory,
}

impl ScheduleFault {
    /// Returns the number that the fault is reported with. `None`: the fault is `Memory`, which has none.
    pub fn number(self) -> Option<u8>
        ensures { result ≡ schedule_number self }
    {
        match self {
            ScheduleFault::Byte(_) => Some(1),
            ScheduleFault::Number(_) => Some(2),
            ScheduleFault::Repeat(_) => Some(3),
            ScheduleFault::Memory => None,
        }
    }
}
