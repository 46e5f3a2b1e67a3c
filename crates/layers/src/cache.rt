//! A layer that keeps the top cells itself.

ghost use Rattle.std.specs.Prelude.{◌≡◌, ◌-◌, ◌^◌, ◌≤◌, false, [], length, is_ok};
ghost use Rattle.store.specs.Meaning.{saved};
ghost use Rattle.layers.specs.Layers.{topped, lowered, raised, room_left};

use arrayvec::ArrayVec;
use cell::cell::Cell;
use cell::name::Name;
use store::refusal::Refusal;
use store::store::Store;

/// How many cells a cache keeps at most.
pub const CAPACITY: usize = 8;

/// A store that keeps up to eight cells itself, on top of those of the store below.
/// There is always room below for them, and the length of the two together is a word.
#[derive(Drop)]
pub struct Cache<S: Store> {
    below: S,
    cells: ArrayVec<Cell, CAPACITY>,
    ghost within: { length cells.items ≤ 8 },
    ghost room: { length cells.items ≤ room_left (S.Store.meaning below) },
    ghost counted: { length cells.items ≤ 2 ^ 32 - 1 - length (S.Store.meaning below).current },
}

impl<S: Store> Cache<S> {
    /// A cache over a store, with no cell of its own yet.
    pub fn new(below: S) -> Self
        ensures below { result.below ≡ below }
        ensures empty { result.cells.items ≡ [] }
        ensures meaning { ⟦<Cache<S> as Store>⟧.meaning result ≡ raised (S.Store.meaning below) }
        ensures memory { ⟦<Cache<S> as Store>⟧.fixed result ≡ S.Store.fixed below }
    {
        Cache {
            below,
            cells: ArrayVec::new(),
        }
    }

    /// Moves the cache's cells down, and gives back the store below.
    pub fn into_below(mut self) -> S
        ensures call { S.Store.meaning result ≡ lowered self.cells.items (S.Store.meaning self.below) }
        ensures memory { S.Store.fixed result ≡ S.Store.fixed self.below }
    {
        self.move_down();
        self.below
    }

    /// Moves the cache's cells to the store below, the lowest first.
    fn move_down(&mut self)
        ensures emptied { self.new.cells.items ≡ [] }
        ensures moved { S.Store.meaning self.new.below ≡ lowered self.old.cells.items (S.Store.meaning self.old.below) }
        ensures memory { S.Store.fixed self.new.below ≡ S.Store.fixed self.old.below }
    {
        push_all(&mut self.below, &self.cells);
        self.cells.clear();
    }
}

/// Pushes some cells that there is room for, the lowest first.
fn push_all<S: Store>(store: &mut S, cells: &[Cell])
    requires { length cells.now ≤ room_left (S.Store.meaning store.old) }
    ensures call { S.Store.meaning store.new ≡ lowered cells.now (S.Store.meaning store.old) }
    ensures memory { S.Store.fixed store.new ≡ S.Store.fixed store.old }
{
    for &cell in cells {
        store.push(cell).unwrap();
    }
}

impl<S: Store> Store for Cache<S> {
    type Slot = S::Slot;

    ghost meaning = { λ q. topped q.cells.items (S.Store.meaning q.below) };

    ghost fixed = { λ q. S.Store.fixed q.below };

    fn push(&mut self, cell: Cell) -> Result<(), Refusal> {
        if self.len() >= self.depth_limit() {
            return Err(Refusal::Full(self.limit_level()));
        }
        if self.cells.is_full() {
            self.move_down();
        }
        self.cells.push(cell);
        Ok(())
    }

    fn pop(&mut self) -> Result<Cell, Refusal> {
        // With no cell of its own, the store below answers.
        match self.cells.pop() {
            Some(cell) => Ok(cell),
            None => self.below.pop(),
        }
    }

    /// A refused save leaves the cache and the store below exactly as they were.
    fn save(&mut self, name: Name) -> Result<(), Refusal>
        ensures call { (result, topped self.new.cells.items (S.Store.meaning self.new.below)) ≡ saved (topped self.old.cells.items (S.Store.meaning self.old.below)) name.0 }
        ensures memory { S.Store.fixed self.new.below ≡ S.Store.fixed self.old.below }
        ensures refused { is_ok result ≡ false → self.new ≡ self.old }
    {
        // So it is first seen to that the store below will accept.
        if name == Name(0) || self.below.saved_len(name).is_ok() {
            return Err(Refusal::NameTaken);
        }
        if self.below.held() >= self.below.held_limit() {
            return Err(Refusal::HeldFull);
        }
        self.move_down();
        self.below.save(name)
    }

    fn restore(&mut self, name: Name) -> Result<(), Refusal> {
        self.below.restore(name)?;
        self.cells.clear();
        Ok(())
    }

    fn take(&mut self, name: Name) -> Result<(), Refusal> {
        self.below.take(name)?;
        self.cells.clear();
        Ok(())
    }

    fn release(&mut self, name: Name) -> Result<(), Refusal> {
        self.below.release(name)
    }

    fn cell_at(&self, index: u32) -> Result<Cell, Refusal> {
        match index.checked_sub(self.below.len()) {
            Some(own) => self
                .cells
                .get(own as usize)
                .copied()
                .ok_or(Refusal::NoIndex),
            None => self.below.cell_at(index),
        }
    }

    fn saved_len(&self, name: Name) -> Result<u32, Refusal> {
        self.below.saved_len(name)
    }

    fn saved_cell(&self, name: Name, index: u32) -> Result<Cell, Refusal> {
        self.below.saved_cell(name, index)
    }

    fn held(&self) -> u32 {
        self.below.held()
    }

    fn held_limit(&self) -> u32 {
        self.below.held_limit()
    }

    fn len(&self) -> u32 {
        self.below.len() + self.cells.len() as u32
    }

    fn depth_limit(&self) -> u32 {
        self.below.depth_limit()
    }

    fn height(&self) -> u32 {
        self.below.height().saturating_add(1)
    }

    fn limit_level(&self) -> u32 {
        self.below.limit_level()
    }
}
