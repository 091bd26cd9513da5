//! The names of the program: which thing has which name.

use assembler::Symbols;
use byte_ports::{Failed, Sink};
use itoa::Buffer;
use refusals::entry::push_pieces;
use suggestions::names::letter_of;

/// Shows which name each thread, phaser, barrier and cell of the state has, in a line.
pub fn push_names<E: Sink>(notes: &mut E, symbols: &Symbols<'_>) -> Result<(), Failed> {
    let mut is_first = true;
    for index in 0..symbols.len() {
        if let Some(symbol) = symbols.get(index) {
            if let Some(letter) = letter_of(symbol.kind) {
                let before = if is_first { "  " } else { ", " };
                push_pieces(notes, &[before.as_bytes(), letter.as_bytes()])?;
                notes.push(Buffer::new().format(symbol.number).as_bytes())?;
                notes.push(b" ")?;
                notes.push(symbol.name)?;
                is_first = false;
            }
        }
    }
    if is_first { Ok(()) } else { notes.push(b"\n") }
}
