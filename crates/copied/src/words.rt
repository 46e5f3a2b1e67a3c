//! Cells in a memory of words, which the store was given, so that cells are found by their index.
ghost use Rattle.std.specs.Prelude.{◌≡◌, ◌+◌, ◌*◌, ◌≤◌, ◌++◌, length, take, drop};
ghost use Rattle.std.specs.List.{copy_within};
ghost use Rattle.cell.specs.Filled.{width};
ghost use Rattle.copied.specs.Cells.{cell_at};

use cell::cell::{Cell, WIDTH};

/// The cell at an index.
pub fn read_cell(memory: &[u32], index: usize) -> Cell
    requires { width * (index + 1) ≤ length memory.now }
    ensures { result ≡ cell_at memory.now index }
{
    let at = WIDTH * index;
    let mut words = [0; WIDTH];
    words.copy_from_slice(&memory[at..at + WIDTH]);
    Cell { words }
}

/// Writes the cell at an index.
pub fn write_cell(memory: &mut [u32], index: usize, cell: Cell)
    requires { width * (index + 1) ≤ length memory.old }
    ensures { memory.new ≡ take (width * index) memory.old ++ cell.words ++ drop (width * (index + 1)) memory.old }
{
    let at = WIDTH * index;
    memory[at..at + WIDTH].copy_from_slice(&cell.words);
}

/// Copies so many cells from one index on to another index on.
pub fn copy_cells(memory: &mut [u32], from: usize, to: usize, count: usize)
    requires source { width * (from + count) ≤ length memory.old }
    requires target { width * (to + count) ≤ length memory.old }
    ensures { memory.new ≡ copy_within memory.old (width * from) (width * (from + count)) (width * to) }
{
    let start = WIDTH * from;
    let end = WIDTH * (from + count);
    memory.copy_within(start..end, WIDTH * to);
}
