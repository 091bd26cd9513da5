ghost use Rattle.std.specs.Prelude.{◌≡◌, length};
ghost use Rattle.instruction_table.specs.Registers.{all_zero, value_in, with_value};

use crate::register::Reg;
use std::marker::Model;

/// A thread's eight registers, each a number like Java's `int`. Contracts see a list of eight numbers, with that of R0 first.
#[derive(Clone, Copy)]
pub struct Regs {
    values: [i32; 8],
}

impl Model for Regs {
    ghost use Rattle.std.specs.Prelude.{ℤ, List};

    ghost Value = { List ℤ };

    ghost view = { λ regs. regs.values };

    ghost inverse = { λ list. record { values = list } };
}

impl Regs {
    /// Returns eight registers, each with 0.
    pub fn new() -> Regs
        ensures { result ≡ all_zero }
    {
        Regs { values: [0; 8] }
    }

    /// Returns the number in a register.
    pub fn get(&self, reg: Reg) -> i32
        ensures value { result ≡ value_in self.now reg }
        ensures eight { length self.now ≡ 8 }
    {
        self.values[usize::from(reg.number())]
    }

    /// Puts a number into a register, and leaves the seven others.
    pub fn set(&mut self, reg: Reg, value: i32)
        ensures { self.new ≡ with_value self.old reg value }
    {
        let place = usize::from(reg.number());
        self.values[place] = value;
    }
}

/// What a row that uses only registers leaves: the registers, and the number of the next row.
#[derive(Clone, Copy)]
pub struct Local {
    pub registers: Regs,
    pub pc: u16,
}
