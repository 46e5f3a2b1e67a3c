//! Cells.

/// How many words a cell has.
pub const WIDTH: usize = 4;

/// What a store keeps: some words, whatever they stand for.
#[derive(Clone, Copy, Default, PartialEq, Eq, Hash, Debug)]
pub struct Cell {
    pub words: [u32; WIDTH],
}
