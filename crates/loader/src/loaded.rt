ghost use Rattle.std.specs.Prelude.{◌≡◌, IfOk};
ghost use Rattle.loader.specs.Program.{IsProgram};

use cyclic_barrier::Barrier;
use instruction_table::Row;
use row_code::DeclaredThread;
use std::alloc::{AllocError, Global};
use std::marker::Model;
use tier_tree::Forest;

mod loading;

pub use loading::load;

/// A program that passed all checks, with its phasers and barriers as they are before its first step. `load` makes it, and
/// nothing changes it.
#[derive(Drop)]
pub struct Loaded {
    rows: Vec<Row>,
    threads: Vec<DeclaredThread>,
    phasers: Forest,
    routines: Vec<u16>,
    barriers: Vec<Barrier>,
    actions: Vec<u16>,
}

impl Model for Loaded {
    ghost use Rattle.loader.specs.Program.{Program};

    ghost Value = { Program };

    ghost use Rattle.loader.specs.Fields.{program_of, IsProgramIn};

    ghost view = { program_of };

    ghost invariant = { IsProgramIn };
}

impl Loaded {
    /// Returns the rows, by number.
    pub fn rows(&self) -> &[Row]
        ensures { result.now ≡ self.now.rows }
    {
        self.rows.as_slice()
    }

    /// Returns the threads, by number, each with the row that it begins at.
    pub fn threads(&self) -> &[DeclaredThread]
        ensures { result.now ≡ self.now.threads }
    {
        self.threads.as_slice()
    }

    /// Returns the phasers as they are before anybody has arrived.
    pub fn phasers(&self) -> &Forest
        ensures { result.now ≡ self.now.phasers }
    {
        &self.phasers
    }

    /// Returns the first row of each phaser's routine, or 0 if it has none. A child's routine never runs.
    pub fn routines(&self) -> &[u16]
        ensures { result.now ≡ self.now.routines }
    {
        self.routines.as_slice()
    }

    /// Returns the barriers as they are at the beginning.
    pub fn barriers(&self) -> &[Barrier]
        ensures { result.now ≡ self.now.barriers }
    {
        self.barriers.as_slice()
    }

    /// Returns the first row of each barrier's action, or 0 if it has none.
    pub fn actions(&self) -> &[u16]
        ensures { result.now ≡ self.now.actions }
    {
        self.actions.as_slice()
    }

    /// Returns a copy of the phasers, and of the row that each one's routine begins at.
    fn copied_phasers(&self, alloc: Global) -> Result<(Forest, Vec<u16>), AllocError>
        ensures phasers { IfOk result (λ both. both.0 ≡ self.now.phasers) }
        ensures routines { IfOk result (λ both. both.1.items ≡ self.now.routines) }
    {
        let phasers = self.phasers.copy(alloc)?;
        Ok((phasers, Vec::from_slice(alloc, self.routines.as_slice())?))
    }

    /// Returns a copy of the barriers, and of the row that each one's action begins at.
    fn copied_barriers(&self, alloc: Global) -> Result<(Vec<Barrier>, Vec<u16>), AllocError>
        ensures barriers { IfOk result (λ both. both.0.items ≡ self.now.barriers) }
        ensures actions { IfOk result (λ both. both.1.items ≡ self.now.actions) }
    {
        let barriers = Vec::from_slice(alloc, self.barriers.as_slice())?;
        Ok((barriers, Vec::from_slice(alloc, self.actions.as_slice())?))
    }

    /// Returns a copy of the program.
    pub fn copy(&self, alloc: Global) -> Result<Loaded, AllocError>
        ensures { IfOk result (λ copy. copy ≡ self.now) }
    {
        let rows = Vec::from_slice(alloc, self.rows.as_slice())?;
        let threads = Vec::from_slice(alloc, self.threads.as_slice())?;
        let (phasers, routines) = self.copied_phasers(alloc)?;
        let (barriers, actions) = self.copied_barriers(alloc)?;
        Ok(Loaded {
            rows,
            threads,
            phasers,
            routines,
            barriers,
            actions,
        })
    }

    /// A law: every loaded program fulfils `IsProgram`. The read brings the invariant of `Loaded` into the proof.
    pub fn each_program_is_whole(&self)
        ensures { IsProgram self.now }
    {
        let _ = &self.rows;
    }
}
