//! What can be kept in a cell.

ghost use Rattle.std.specs.Prelude.{◌≡◌, ℕ, List};
ghost use Rattle.cell.specs.Filled.{filled};
ghost use Rattle.cell.specs.declared.cell.Cell.{Cell};

use crate::cell::Cell;

/// A kind of element: written to a cell, it is read back as itself.
pub trait Element: Copy {
    /// The least depth limit of a store that serves for this kind.
    const LEAST_DEPTH: u32;

    ghost LEAST_DEPTH: { ℕ };

    /// The words that an element is written as; zeros fill the cell.
    ghost written: { Self → List ℕ };

    /// The element that a cell is read as.
    ghost read: { Cell → Self };

    /// Writes an element to a cell.
    fn to_cell(self) -> Cell
        ensures words { result ≡ filled (written self) }
        ensures faithful { read result ≡ self };

    /// Reads an element from a cell; one that no element is written as is read as some element.
    fn from_cell(cell: Cell) -> Self
        ensures { result ≡ read cell };
}
