ghost use Rattle.std.specs.Prelude.{◌≡◌, ◌++◌, [], IfOk, true, Ok, is_some};
ghost use Rattle.std.specs.List.{AllByRecursion, cons_option};
ghost use Rattle.row_code.specs.{declared.image.Image.Image, Image.IsImage, Phasers.IsPhaser};
ghost use Rattle.assembler.specs.Meaning.{are_known, barriers_in, image_of, phasers_in, rows_in, threads_in};
ghost use Rattle.assembler.specs.KeptLine.{statement_kept};

use super::lookups::{barrier_of, phaser_of, row_of, thread_of};
use crate::draft::Draft;
use crate::kept_line::KeptLine;
use instruction_table::Row;
use row_code::{
    Barriers, DeclaredBarrier, DeclaredPhaser, DeclaredThread, Image, Phasers, Rows, Threads,
};
use std::alloc::{AllocError, Global};
use std::marker::Model;

/// What the lines so far add to an image. It need not be within the limits of an image.
#[derive(Drop)]
pub struct Parts {
    phasers: Vec<DeclaredPhaser>,
    barriers: Vec<DeclaredBarrier>,
    threads: Vec<DeclaredThread>,
    rows: Vec<Row>,
}

impl Model for Parts {
    ghost Value = { Image };

    ghost view = { λ p. record {
      phasers = p.phasers.items;
      barriers = p.barriers.items;
      threads = p.threads.items;
      rows = p.rows.items;
    } };
}

/// Appends what was found, and returns true. If it is `None`, a name was unknown: this appends nothing and returns false.
fn push_found<T: Drop>(list: &mut Vec<T>, found: Option<T>) -> Result<bool, AllocError>
    ensures found { IfOk result (λ known. known ≡ is_some found) }
    ensures list { IfOk result (λ _. list.new.items ≡ list.old.items ++ cons_option found []) }
{
    match found {
        Some(part) => {
            list.push(part)?;
            Ok(true)
        }
        None => Ok(false),
    }
}

impl Parts {
    /// Makes the four lists of an image without lines: they are empty.
    pub fn new(alloc: Global) -> Parts
        ensures { result ≡ image_of [] }
    {
        Parts {
            phasers: Vec::new(alloc),
            barriers: Vec::new(alloc),
            threads: Vec::new(alloc),
            rows: Vec::new(alloc),
        }
    }

    /// Appends a line's object or row to its list, and returns true. Returns false if it has an unknown name. Cells and labels
    /// add nothing.
    pub fn add<'a>(&mut self, draft: &Draft<'a>, line: &KeptLine<'a>) -> Result<bool, AllocError>
        requires { AllByRecursion IsPhaser (phasers_in draft.now (statement_kept line.now)) }
        ensures known { IfOk result (λ known. known
            ≡ are_known draft.now (statement_kept line.now)) }
        ensures phasers { result ≡ Ok true → self.new.phasers
            ≡ self.old.phasers ++ phasers_in draft.now (statement_kept line.now) }
        ensures barriers { result ≡ Ok true → self.new.barriers
            ≡ self.old.barriers ++ barriers_in draft.now (statement_kept line.now) }
        ensures threads { result ≡ Ok true → self.new.threads
            ≡ self.old.threads ++ threads_in draft.now (statement_kept line.now) }
        ensures rows { result ≡ Ok true → self.new.rows
            ≡ self.old.rows ++ rows_in draft.now (statement_kept line.now) }
    {
        match line {
            KeptLine::Phaser(_, phaser) => push_found(&mut self.phasers, phaser_of(draft, phaser)),
            KeptLine::Barrier(_, barrier) => push_found(
                &mut self.barriers,
                barrier_of(draft, barrier),
            ),
            KeptLine::Thread(_, thread) => push_found(&mut self.threads, thread_of(draft, thread)),
            KeptLine::Row(_, row) => push_found(&mut self.rows, row_of(draft, row)),
            KeptLine::LabelledRow(_, _, row) => push_found(&mut self.rows, row_of(draft, row)),
            KeptLine::Cell(_, _) | KeptLine::Label(_, _) => Ok(true),
        }
    }

    /// Returns the lists as an image. They fulfil its limits, so no `unwrap` fails.
    pub fn into_image(self) -> Image
        requires { IsImage self }
        ensures { result ≡ self }
    {
        Image {
            phasers: Phasers::new(self.phasers).unwrap(),
            barriers: Barriers::new(self.barriers).unwrap(),
            threads: Threads::new(self.threads).unwrap(),
            rows: Rows::new(self.rows).unwrap(),
        }
    }
}
