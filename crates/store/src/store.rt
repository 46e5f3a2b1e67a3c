//! The interface of a store.
ghost use Rattle.std.specs.Prelude.{◌≡◌, ℕ, List, length};
ghost use Rattle.store.specs.Meaning.{Meaning, pushed, popped, saved, restored, taken, released, cell_in, saved_length, saved_cell_in};
ghost use Rattle.cell.specs.declared.cell.Cell.{Cell};

use crate::refusal::Refusal;
use cell::cell::Cell;
use cell::name::Name;

/// What every store is: `specs/Meaning.antt` says what it means and what each call answers and leaves.
/// A refused call leaves the meaning as it was.
pub trait Store {
    /// What the memory that a store was given is made of.
    type Slot;

    /// What a store means: its current list, its held pairs, and four numbers that never change.
    ghost meaning: { Self → Meaning Cell };

    /// How many slots a store needs, and those past them, which it never touches.
    ghost fixed: { Self → ℕ × List Self.Slot };

    /// Adds a cell on top.
    fn push(&mut self, cell: Cell) -> Result<(), Refusal>
        ensures call { (result, meaning self.new) ≡ pushed (meaning self.old) cell }
        ensures memory { fixed self.new ≡ fixed self.old };

    /// Removes and answers the top cell.
    fn pop(&mut self) -> Result<Cell, Refusal>
        ensures call { (result, meaning self.new) ≡ popped (meaning self.old) }
        ensures memory { fixed self.new ≡ fixed self.old };

    /// Keeps the current list under a name.
    fn save(&mut self, name: Name) -> Result<(), Refusal>
        ensures call { (result, meaning self.new) ≡ saved (meaning self.old) name.0 }
        ensures memory { fixed self.new ≡ fixed self.old };

    /// Makes the list saved under a name current.
    fn restore(&mut self, name: Name) -> Result<(), Refusal>
        ensures call { (result, meaning self.new) ≡ restored (meaning self.old) name.0 }
        ensures memory { fixed self.new ≡ fixed self.old };

    /// As restore, and lets the name go.
    fn take(&mut self, name: Name) -> Result<(), Refusal>
        ensures call { (result, meaning self.new) ≡ taken (meaning self.old) name.0 }
        ensures memory { fixed self.new ≡ fixed self.old };

    /// Lets a name go.
    fn release(&mut self, name: Name) -> Result<(), Refusal>
        ensures call { (result, meaning self.new) ≡ released (meaning self.old) name.0 }
        ensures memory { fixed self.new ≡ fixed self.old };

    /// Answers the cell at an index of the current list; the bottom has index 0.
    fn cell_at(&self, index: u32) -> Result<Cell, Refusal>
        ensures { result ≡ cell_in (meaning self.now).current index };

    /// Answers the length of the list that is saved under a name.
    fn saved_len(&self, name: Name) -> Result<u32, Refusal>
        ensures { result ≡ saved_length (meaning self.now) name.0 };

    /// Answers the cell at an index of the list that is saved under a name.
    fn saved_cell(&self, name: Name, index: u32) -> Result<Cell, Refusal>
        ensures { result ≡ saved_cell_in (meaning self.now) name.0 index };

    /// Answers how many names are held.
    fn held(&self) -> u32
        ensures { result ≡ length (meaning self.now).held };

    /// Answers how many names may be held.
    fn held_limit(&self) -> u32
        ensures { result ≡ (meaning self.now).held_limit };

    /// Answers the length of the current list.
    fn len(&self) -> u32
        ensures { result ≡ length (meaning self.now).current };

    /// Answers how long the current list may be.
    fn depth_limit(&self) -> u32
        ensures { result ≡ (meaning self.now).depth_limit };

    /// Answers how many layers there are below this store.
    fn height(&self) -> u32
        ensures { result ≡ (meaning self.now).height };

    /// Answers the height of the store whose depth limit this is.
    fn limit_level(&self) -> u32
        ensures { result ≡ (meaning self.now).limit_level };
}
