use crate::sheet::Sheet;
use assembler::Symbols;
use std::alloc::Global;

/// What the functions that draw need: the allocator, the layout, and the names of the program.
#[derive(Clone, Copy)]
pub struct Pen<'a, 'b> {
    pub alloc: Global,
    pub sheet: Sheet,
    pub symbols: &'a Symbols<'b>,
}
