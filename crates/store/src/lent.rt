//! A store that is lent.

use crate::refusal::Refusal;
use crate::store::Store;
use cell::cell::Cell;
use cell::name::Name;

/// A store behind a `&mut`, which is one too, so that a list of elements can be made of a store that is only lent.
/// Not an impl for `&mut S` itself: calls on `self` in the impl of a store would mean that one.
#[derive(Drop)]
pub struct Lent<'a, S>(pub &'a mut S);

impl<S: Store> Store for Lent<'_, S> {
    type Slot = S::Slot;

    ghost meaning = { λ s. S.meaning s.0.now };

    ghost fixed = { λ s. S.fixed s.0.now };

    fn push(&mut self, cell: Cell) -> Result<(), Refusal> {
        self.0.push(cell)
    }

    fn pop(&mut self) -> Result<Cell, Refusal> {
        self.0.pop()
    }

    fn save(&mut self, name: Name) -> Result<(), Refusal> {
        self.0.save(name)
    }

    fn restore(&mut self, name: Name) -> Result<(), Refusal> {
        self.0.restore(name)
    }

    fn take(&mut self, name: Name) -> Result<(), Refusal> {
        self.0.take(name)
    }

    fn release(&mut self, name: Name) -> Result<(), Refusal> {
        self.0.release(name)
    }

    fn cell_at(&self, index: u32) -> Result<Cell, Refusal> {
        self.0.cell_at(index)
    }

    fn saved_len(&self, name: Name) -> Result<u32, Refusal> {
        self.0.saved_len(name)
    }

    fn saved_cell(&self, name: Name, index: u32) -> Result<Cell, Refusal> {
        self.0.saved_cell(name, index)
    }

    fn held(&self) -> u32 {
        self.0.held()
    }

    fn held_limit(&self) -> u32 {
        self.0.held_limit()
    }

    fn len(&self) -> u32 {
        self.0.len()
    }

    fn depth_limit(&self) -> u32 {
        self.0.depth_limit()
    }

    fn height(&self) -> u32 {
        self.0.height()
    }

    fn limit_level(&self) -> u32 {
        self.0.limit_level()
    }
}
