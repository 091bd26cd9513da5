ghost use Rattle.std.specs.Prelude.{◌≡◌, IfOk, false, option_map};
ghost use Rattle.line_reader.specs.Seen.{name_seen, statement_seen};
ghost use Rattle.assembler.specs.KeptLine.{is_row, line_kept, number_kept, statement_kept};
ghost use Rattle.assembler.specs.Statements.{is_code, kind_named, name_in};

use instruction_table::OperandKind;
use line_reader::kept_row::KeptRow;
use line_reader::statement::Statement;
use line_reader::symbolic_barrier::SymbolicBarrier;
use line_reader::symbolic_phaser::SymbolicPhaser;
use line_reader::symbolic_thread::SymbolicThread;
use std::alloc::{AllocError, Global};

/// A line that says something, with its number from 1, as it is stored until its names are looked up. It takes 64 bytes,
/// because a text may have 65,535 rows. The parts of phasers and barriers, which are few, are in a `Box`.
#[derive(Drop)]
pub enum KeptLine<'a> {
    Phaser(u64, Box<SymbolicPhaser<&'a [u8]>>),
    Barrier(u64, Box<SymbolicBarrier<&'a [u8]>>),
    Thread(u64, SymbolicThread<&'a [u8]>),
    Cell(u64, &'a [u8]),
    Label(u64, &'a [u8]),
    Row(u64, KeptRow<'a>),
    LabelledRow(u64, &'a [u8], KeptRow<'a>),
}

impl<'a> KeptLine<'a> {
    /// Makes line `number` of the directive `said`, which is neither a label nor a row. Fails if it is out of memory.
    pub fn of_directive(
        alloc: Global,
        number: u64,
        said: Statement<&'a [u8]>,
    ) -> Result<KeptLine<'a>, AllocError>
        requires { is_code (statement_seen said) ≡ false }
        ensures { IfOk result (λ line. line_kept line
            ≡ record { number = number; statement = statement_seen said.entry }) }
    {
        match said {
            Statement::Phaser(phaser) => Ok(KeptLine::Phaser(number, Box::new(alloc, phaser)?)),
            Statement::Barrier(barrier) => Ok(KeptLine::Barrier(number, Box::new(alloc, barrier)?)),
            Statement::Thread(thread) => Ok(KeptLine::Thread(number, thread)),
            Statement::Cell(name) => Ok(KeptLine::Cell(number, name)),
            Statement::Label(_) | Statement::Row(_, _) => unreachable!(),
        }
    }

    /// Returns the number of the line in its text.
    pub fn number(&self) -> u64
        ensures { result ≡ number_kept self.now }
    {
        match self {
            KeptLine::Phaser(number, _) => *number,
            KeptLine::Barrier(number, _) => *number,
            KeptLine::Thread(number, _) => *number,
            KeptLine::Cell(number, _) | KeptLine::Label(number, _) => *number,
            KeptLine::Row(number, _) => *number,
            KeptLine::LabelledRow(number, _, _) => *number,
        }
    }

    /// Returns the name that the line declares, if it declares one.
    pub fn name(&self) -> Option<&'a [u8]>
        ensures { option_map name_seen result ≡ name_in (statement_kept self.now) }
    {
        match self {
            KeptLine::Phaser(_, phaser) => Some(phaser.name),
            KeptLine::Barrier(_, barrier) => Some(barrier.name),
            KeptLine::Thread(_, thread) => Some(thread.name),
            KeptLine::Cell(_, name) | KeptLine::Label(_, name) => Some(*name),
            KeptLine::LabelledRow(_, label, _) => Some(*label),
            KeptLine::Row(_, _) => None,
        }
    }

    /// Returns the kind of what this line declares. It is `Target`, the kind of a row, for a label and for a row.
    pub fn kind_named(&self) -> OperandKind
        ensures { result ≡ kind_named (statement_kept self.now) }
    {
        match self {
            KeptLine::Phaser(_, _) => OperandKind::Phaser,
            KeptLine::Barrier(_, _) => OperandKind::Barrier,
            KeptLine::Thread(_, _) => OperandKind::Thread,
            KeptLine::Cell(_, _) => OperandKind::Cell,
            _ => OperandKind::Target,
        }
    }

    /// Returns whether the line is a label or a row. No directive may follow such a line.
    pub fn is_code(&self) -> bool
        ensures { result ≡ is_code (statement_kept self.now) }
    {
        matches!(
            self,
            KeptLine::Label(_, _) | KeptLine::Row(_, _) | KeptLine::LabelledRow(_, _, _)
        )
    }

    /// Returns whether the line has a row, with or without a label.
    pub fn is_row(&self) -> bool
        ensures { result ≡ is_row (statement_kept self.now) }
    {
        matches!(self, KeptLine::Row(_, _) | KeptLine::LabelledRow(_, _, _))
    }
}
