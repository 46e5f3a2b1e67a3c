//! Cells made from their first words.

ghost use Rattle.std.specs.Prelude.{◌≡◌, ◌≤◌, length};
ghost use Rattle.cell.specs.Filled.{filled, width};

use crate::cell::{Cell, WIDTH};

impl Cell {
    /// A cell that begins with some words and has zeros after them.
    pub(crate) fn filled(first: &[u32]) -> Cell
        requires { length first.now ≤ width }
        ensures { result ≡ filled first.now }
    {
        let mut words = [0; WIDTH];
        words[..first.len()].copy_from_slice(first);
        Cell { words }
    }
}
