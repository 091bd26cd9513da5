/// How many there are of each kind of object that a row may name. There are always 32 cells.
#[derive(Clone, Copy)]
pub struct Counts {
    pub rows: usize,
    pub threads: usize,
    pub phasers: usize,
    pub barriers: usize,
}
