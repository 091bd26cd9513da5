ghost use Rattle.std.specs.Prelude.{◌≡◌, ◌<◌, ◌↔◌, IsSome, IfSome};
ghost use Rattle.instruction_table.specs.Register.{number_of};

/// One of a thread's eight registers.
#[derive(Clone, Copy, PartialEq, Eq)]
pub enum Reg {
    R0,
    R1,
    R2,
    R3,
    R4,
    R5,
    R6,
    R7,
}

impl Reg {
    /// Returns the register's number, which follows the `r` in a program's text.
    pub fn number(self) -> u8
        ensures number { result ≡ number_of self }
        ensures small { result < 8 }
    {
        match self {
            Reg::R0 => 0,
            Reg::R1 => 1,
            Reg::R2 => 2,
            Reg::R3 => 3,
            Reg::R4 => 4,
            Reg::R5 => 5,
            Reg::R6 => 6,
            Reg::R7 => 7,
        }
    }

    /// Returns the register with this number. `None`: the number is above 7.
    pub fn numbered(number: u8) -> Option<Reg>
        ensures known { IsSome result ↔ (number < 8) }
        ensures number { IfSome result (λ reg. number_of reg ≡ number) }
    {
        match number {
            0 => Some(Reg::R0),
            1 => Some(Reg::R1),
            2 => Some(Reg::R2),
            3 => Some(Reg::R3),
            4 => Some(Reg::R4),
            5 => Some(Reg::R5),
            6 => Some(Reg::R6),
            7 => Some(Reg::R7),
            _ => None,
        }
    }
}
