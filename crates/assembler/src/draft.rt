//! What is known after some lines: the lines, the names, and the counts of rows and objects.
ghost use Rattle.std.specs.Prelude.{◌≡◌, ◌+◌, ◌<◌, ◌||◌, ◌++◌, ◌∷◌, [], IfErr, IfOk, IfSome, List, Option, None, Some, false, is_some, map, option_copied, option_map};
ghost use Rattle.instruction_table.specs.declared.shape.OperandKind.{OperandKind};
ghost use Rattle.line_reader.specs.{declared.statement.Line.Line, Symbols.Name, declared.symbolic_row.SymbolicRow.SymbolicRow};
ghost use Rattle.line_reader.specs.Seen.{Borrowed, name_seen, reference_seen, statement_seen};
ghost use Rattle.assembler.specs.Draft.{IsKept, counted, named_with, number_there, places, symbol_there};
ghost use Rattle.assembler.specs.{Meaning.referent, Symbols.symbol_by, Symbols.symbols_of};
ghost use Rattle.assembler.specs.Statements.{Follows, adds, has_code, has_room, is_code, is_given, kind_named, most, name_in, number_named};
ghost use Rattle.assembler.specs.KeptLine.{line_kept, statement_kept};
ghost use Rattle.line_reader.specs.declared.statement.Statement.TheVariants as statement;

use crate::kept_line::KeptLine;
use crate::name_hash::{NameHash, NameKey};
use indexmap::IndexMap;
use instruction_table::OperandKind;
use line_reader::reference::Reference;
use line_reader::statement::Statement;
use std::alloc::{AllocError, Global};
use std::marker::Model;

/// What a name refers to: the row or the object of this kind and number.
#[derive(Clone, Copy)]
pub struct Place {
    pub kind: OperandKind,
    pub number: u16,
}

/// How many rows, and how many objects of each kind, there are.
#[derive(Clone, Copy)]
pub struct Counts {
    pub rows: u16,
    pub phasers: u16,
    pub barriers: u16,
    pub threads: u16,
    pub cells: u16,
}

/// The lines read so far that say something, with each name that they give.
#[derive(Drop)]
pub struct Draft<'a> {
    alloc: Global,
    lines: Vec<KeptLine<'a>>,
    names: IndexMap<NameKey<'a>, Place, NameHash>,
    counts: Counts,
    has_code: bool,
}

impl<'a> Model for Draft<'a> {
    ghost Value = { List (Line Name) };

    ghost view = { λ d. map line_kept d.lines.items };

    ghost invariant = { λ d. IsKept (map line_kept d.lines.items)
        (places d.names) (map symbol_there d.names.entries) d.counts d.has_code };
}

/// Returns the name that a statement declares. A row without a label declares none.
pub fn name_in<'a>(statement: &Statement<&'a [u8]>) -> Option<&'a [u8]>
    ensures { option_map name_seen result ≡ name_in (statement_seen statement.now) }
{
    match statement {
        Statement::Phaser(phaser) => Some(phaser.name),
        Statement::Barrier(barrier) => Some(barrier.name),
        Statement::Thread(thread) => Some(thread.name),
        Statement::Cell(name) | Statement::Label(name) => Some(*name),
        Statement::Row(label, _) => *label,
    }
}

/// Returns the kind of what this statement declares. It is `Target`, the kind of a row, for a label and for a row.
pub fn kind_named(statement: &Statement<&[u8]>) -> OperandKind
    ensures { result ≡ kind_named (statement_seen statement.now) }
{
    match statement {
        Statement::Phaser(_) => OperandKind::Phaser,
        Statement::Barrier(_) => OperandKind::Barrier,
        Statement::Thread(_) => OperandKind::Thread,
        Statement::Cell(_) => OperandKind::Cell,
        Statement::Label(_) | Statement::Row(_, _) => OperandKind::Target,
    }
}

/// Returns how many rows (65535), cells (32), or objects of any other kind (64) a program may have.
fn most(kind: OperandKind) -> u16
    ensures { result ≡ most kind }
{
    match kind {
        OperandKind::Target => 65535,
        OperandKind::Cell => 32,
        _ => 64,
    }
}

/// Returns how many rows or objects of a kind there are: 0 for a register or a number, which are neither.
fn counted(counts: &Counts, kind: OperandKind) -> u16
    ensures { result ≡ counted counts.now kind }
{
    match kind {
        OperandKind::Target => counts.rows,
        OperandKind::Phaser => counts.phasers,
        OperandKind::Barrier => counts.barriers,
        OperandKind::Thread => counts.threads,
        OperandKind::Cell => counts.cells,
        OperandKind::Register | OperandKind::Number => 0,
    }
}

/// Returns the counts after one more line. A label alone adds nothing.
fn counted_with(counts: Counts, line: &KeptLine<'_>) -> Counts
    requires { let said = statement_kept line.now in
        counted counts (kind_named said) + adds (kind_named said) said < 65536 }
    ensures { (k : OperandKind) →
        counted result k ≡ counted counts k + adds k (statement_kept line.now) }
{
    match line {
        KeptLine::Phaser(_, _) => Counts {
            phasers: counts.phasers + 1,
            ..counts
        },
        KeptLine::Barrier(_, _) => Counts {
            barriers: counts.barriers + 1,
            ..counts
        },
        KeptLine::Thread(_, _) => Counts {
            threads: counts.threads + 1,
            ..counts
        },
        KeptLine::Cell(_, _) => Counts {
            cells: counts.cells + 1,
            ..counts
        },
        KeptLine::Label(_, _) => counts,
        KeptLine::Row(_, _) | KeptLine::LabelledRow(_, _, _) => Counts {
            rows: counts.rows + 1,
            ..counts
        },
    }
}

/// Returns whether a label or a row was read, with `line` counted: in an earlier line (`has_code`), or in `line`.
fn code_with(has_code: bool, line: &KeptLine<'_>) -> bool
    ensures { result ≡ (has_code || is_code (statement_kept line.now)) }
{
    has_code || line.is_code()
}

/// Returns what the name in `line` refers to: the next row or object of its kind. Its number is the present count of that kind.
fn place_behind(counts: &Counts, line: &KeptLine<'_>) -> Place
    ensures { let kind = kind_named (statement_kept line.now) in
        result ≡ record { kind = kind; number = counted counts.now kind } }
{
    let kind = line.kind_named();
    Place {
        kind,
        number: counted(counts, kind),
    }
}

/// Adds a name, if there is one, with what it refers to. Fails if it is out of memory, and then adds nothing.
#[inline(always)]
fn add_name<'a>(
    names: &mut IndexMap<NameKey<'a>, Place, NameHash>,
    name: Option<&'a [u8]>,
    place: Place,
) -> Result<(), AllocError>
    requires { IfSome name (λ name. places names.old name ≡ None) }
    ensures added { IfOk result (λ _. (q : Borrowed) → places names.new q
        ≡ named_with (option_map name_seen name.entry) place (places names.old) q) }
    ensures last { IfOk result (λ _. map symbol_there names.new.entries ≡ map symbol_there names.old.entries
        ++ symbol_by place.kind (option_map name_seen name.entry) (Some place.number)) }
    ensures kept { IfErr result (λ _. names.new.entries ≡ names.old.entries) }
{
    if let Some(name) = name {
        names.insert(NameKey { bytes: name }, place)?;
    }
    Ok(())
}

/// Returns the number of the row or the object at a place. `None`: no place is given, or it is of another kind.
#[inline(always)]
pub fn number_there(kind: OperandKind, place: Option<Place>) -> Option<u16>
    ensures { result ≡ number_there kind place }
{
    match place {
        Some(place) => {
            if kind == place.kind {
                Some(place.number)
            } else {
                None
            }
        }
        None => None,
    }
}

impl<'a> Draft<'a> {
    /// Makes a draft without lines. `hash` is what hashes the names of its text.
    pub fn new(alloc: Global, hash: NameHash) -> Draft<'a>
        ensures { result ≡ [] }
    {
        Draft {
            alloc,
            lines: Vec::new(alloc),
            names: IndexMap::with_hasher(alloc, hash),
            counts: Counts {
                rows: 0,
                phasers: 0,
                barriers: 0,
                threads: 0,
                cells: 0,
            },
            has_code: false,
        }
    }

    /// Returns the lines so far that say something.
    pub fn lines(&self) -> &[KeptLine<'a>]
        ensures { map line_kept result.now ≡ self.now }
    {
        &self.lines
    }

    /// Returns the names in order of declaration, each with what it names.
    pub fn into_names(self) -> IndexMap<NameKey<'a>, Place, NameHash>
        ensures { map symbol_there result.entries ≡ (symbols_of self.entry).names }
    {
        self.names
    }

    /// Returns whether a label or a row was read. No directive may follow one.
    pub fn has_code(&self) -> bool
        ensures { result ≡ has_code self.now }
    {
        self.has_code
    }

    /// Returns whether a line so far gives this name.
    pub fn is_given(&self, name: &[u8]) -> bool
        ensures { result ≡ is_given name.now self.now }
    {
        self.names.get(&NameKey { bytes: name }).is_some()
    }

    /// Returns what a name refers to, or `None` if no line so far gives it.
    pub fn place_named(&self, name: &[u8]) -> Option<Place>
        ensures given { is_some result ≡ is_given name.now self.now }
        ensures number { (kind : OperandKind) →
            number_there kind result ≡ number_named kind name.now self.now }
    {
        self.names.get(&NameKey { bytes: name }).copied()
    }

    /// Returns whether there is room for the row or the object that a statement adds. A label adds none.
    pub fn has_room(&self, statement: &Statement<&'a [u8]>) -> bool
        ensures { result ≡ has_room self.now (statement_seen statement.now) }
    {
        match statement {
            Statement::Label(_) => true,
            _ => {
                let kind = kind_named(statement);
                counted(&self.counts, kind) < most(kind)
            }
        }
    }

    /// Returns whether there is room for one more row.
    pub fn has_room_for_row(&self) -> bool
        ensures { (label : Option Name) → (row : SymbolicRow Name) →
            result ≡ has_room self.now (statement.Row label row) }
    {
        self.counts.rows < most(OperandKind::Target)
    }

    /// Returns the number of the row or the object of this kind with this name. `None`: no line so far declares one.
    pub fn number_named(&self, kind: OperandKind, name: &[u8]) -> Option<u16>
        ensures { result ≡ number_named kind name.now self.now }
    {
        number_there(kind, self.place_named(name))
    }

    /// Returns the number in a reference, unchecked, or the number of what it names. `None`: nothing of this kind has the name.
    pub fn referent(&self, kind: OperandKind, reference: &Reference<&'a [u8]>) -> Option<u16>
        ensures { result ≡ referent self.now kind (reference_seen reference.now) }
    {
        match reference {
            Reference::Numbered(number) => Some(*number),
            Reference::Named(name) => self.number_named(kind, *name),
        }
    }

    /// Appends line `number`, the directive `said`. The caller has checked that it may follow. Fails if it is out of memory.
    pub fn push_directive(
        &mut self,
        number: u64,
        said: Statement<&'a [u8]>,
    ) -> Result<(), AllocError>
        requires follows { Follows self.old (statement_seen said) }
        requires directive { is_code (statement_seen said) ≡ false }
        ensures { IfOk result (λ _. self.new ≡ self.old
            ++ (record { number = number; statement = statement_seen said.entry } ∷ [])) }
    {
        let line = KeptLine::of_directive(self.alloc, number, said)?;
        self.push(line)
    }

    /// Appends a line that may follow the lines so far. Fails if it is out of memory, and then appends nothing.
    #[inline(always)]
    pub fn push(&mut self, line: KeptLine<'a>) -> Result<(), AllocError>
        requires { Follows self.old (statement_kept line) }
        ensures { IfOk result (λ _. self.new ≡ self.old ++ (line_kept line.entry ∷ [])) }
    {
        let name = line.name();
        let place = place_behind(&self.counts, &line);
        let counts = counted_with(self.counts, &line);
        let has_code = code_with(self.has_code, &line);
        self.lines.push(line)?;
        // A line and its name are stored together or not at all: out of memory for the name takes the line back.
        if let Err(refused) = add_name(&mut self.names, name, place) {
            self.lines.pop();
            return Err(refused);
        }
        self.counts = counts;
        self.has_code = has_code;
        Ok(())
    }
}
