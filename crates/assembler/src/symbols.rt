ghost use Rattle.std.specs.Prelude.{◌≡◌, [], find, length, map, option_map, slice_get, IfOk};
ghost use Rattle.std.specs.List.{flat_map};
ghost use Rattle.line_reader.specs.Seen.{name_seen};
ghost use Rattle.assembler.specs.{Draft.symbol_there, KeptLine.line_kept};
ghost use Rattle.assembler.specs.Symbols.{SymbolTable, is_symbol_of, name_of, row_line, symbol_seen, symbols_of};

use crate::draft::{Draft, Place};
use crate::kept_line::KeptLine;
use crate::name_hash::{NameHash, NameKey};
use indexmap::IndexMap;
use instruction_table::OperandKind;
use std::alloc::{AllocError, Global};
use std::marker::Model;

/// A name of a program's text, and the kind and number of what it refers to. A label refers to a row.
#[derive(Clone, Copy)]
pub struct Symbol<N> {
    pub kind: OperandKind,
    pub number: u16,
    pub name: N,
}

/// The names of a program's text in the order of declaration, and the line of each row.
#[derive(Drop)]
pub struct Symbols<'a> {
    names: IndexMap<NameKey<'a>, Place, NameHash>,
    rows: Vec<u64>,
}

impl<'a> Model for Symbols<'a> {
    ghost Value = { SymbolTable };

    ghost view = { λ symbols. record {
      names = map symbol_there symbols.names.entries;
      rows = symbols.rows.items;
    } };
}

/// Returns for each row among these lines the number of its line.
fn row_lines(alloc: Global, lines: &[KeptLine<'_>]) -> Result<Vec<u64>, AllocError>
    ensures { IfOk result (λ rows. rows.items ≡ flat_map row_line (map line_kept lines.now)) }
{
    let mut rows = Vec::new(alloc);
    for line in lines {
        if line.is_row() {
            rows.push(line.number())?;
        }
    }
    Ok(rows)
}

/// Returns the names that the lines of a draft give, and the lines of its rows.
pub(crate) fn symbols_of<'a>(alloc: Global, draft: Draft<'a>) -> Result<Symbols<'a>, AllocError>
    ensures { IfOk result (λ symbols. symbols ≡ symbols_of draft.entry) }
{
    let rows = row_lines(alloc, draft.lines())?;
    let names = draft.into_names();
    Ok(Symbols { names, rows })
}

/// Returns whether a symbol is a name of the row or the object of this kind and number.
fn is_symbol_of(kind: OperandKind, number: u32, symbol: &Symbol<&[u8]>) -> bool
    ensures { result ≡ is_symbol_of kind number (symbol_seen symbol.now) }
{
    symbol.kind == kind && u32::from(symbol.number) == number
}

impl<'a> Symbols<'a> {
    /// Makes a table without names and lines, for a program that is given as an image, and so has no text.
    pub fn none(alloc: Global) -> Symbols<'a>
        ensures { result ≡ record { names = []; rows = [] } }
    {
        Symbols {
            names: IndexMap::with_hasher(alloc, NameHash::new(b"")),
            rows: Vec::new(alloc),
        }
    }

    /// Returns how many names the text declares.
    pub fn len(&self) -> usize
        ensures { result ≡ length self.now.names }
    {
        self.names.len()
    }

    /// Returns the name at this place in the order of declaration, from 0. `None`: there are fewer names.
    pub fn get(&self, index: usize) -> Option<Symbol<&'a [u8]>>
        ensures { option_map symbol_seen result ≡ slice_get self.now.names index }
    {
        let (name, place) = self.names.get_index(index)?;
        Some(Symbol {
            kind: place.kind,
            number: place.number,
            name: name.bytes,
        })
    }

    /// Returns for each row the number of its line, from 1.
    pub fn rows(&self) -> &[u64]
        ensures { result.now ≡ self.now.rows }
    {
        self.rows.as_slice()
    }

    /// Returns the name of the row or the object of this kind and number: for a row, its first label. `None`: it has no name.
    pub fn name_of(&self, kind: OperandKind, number: u32) -> Option<&'a [u8]>
        ensures { option_map name_seen result ≡ name_of kind number self.now }
    {
        for index in 0..self.len() {
            if let Some(symbol) = self.get(index) {
                if is_symbol_of(kind, number, &symbol) {
                    return Some(symbol.name);
                }
            }
        }
        None
    }
}
