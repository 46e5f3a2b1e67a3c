//! A layer that lowers the depth limit.

ghost use Rattle.std.specs.Prelude.{◌≡◌};
ghost use Rattle.layers.specs.Layers.{limited};

use cell::cell::Cell;
use cell::name::Name;
use store::refusal::Refusal;
use store::store::Store;

/// A store whose depth limit is at most a number of its own; all else is as below.
#[derive(Drop)]
pub struct Quota<S> {
    below: S,
    quota: u32,
}

impl<S: Store> Quota<S> {
    /// A quota over a store.
    pub fn new(below: S, quota: u32) -> Self
        ensures parts { (result.below ≡ below) × (result.quota ≡ quota) }
        ensures meaning { ⟦<Quota<S> as Store>⟧.meaning result ≡ limited quota (S.Store.meaning below) }
        ensures memory { ⟦<Quota<S> as Store>⟧.fixed result ≡ S.Store.fixed below }
    {
        Quota { below, quota }
    }

    /// Gives back the store below.
    pub fn into_below(self) -> S
        ensures { result ≡ self.below }
    {
        self.below
    }
}

// Calls are handed down one by one, as in the cache: an impl for every layer at once would want a trait with a hook for each call.
impl<S: Store> Store for Quota<S> {
    type Slot = S::Slot;

    ghost meaning = { λ q. limited q.quota (S.Store.meaning q.below) };

    ghost fixed = { λ q. S.Store.fixed q.below };

    fn push(&mut self, cell: Cell) -> Result<(), Refusal> {
        // Below the quota, the store below refuses by itself what its own limit forbids.
        if self.below.len() >= self.quota {
            return Err(Refusal::Full(self.limit_level()));
        }
        self.below.push(cell)
    }

    fn pop(&mut self) -> Result<Cell, Refusal> {
        self.below.pop()
    }

    fn save(&mut self, name: Name) -> Result<(), Refusal> {
        self.below.save(name)
    }

    fn restore(&mut self, name: Name) -> Result<(), Refusal> {
        self.below.restore(name)
    }

    fn take(&mut self, name: Name) -> Result<(), Refusal> {
        self.below.take(name)
    }

    fn release(&mut self, name: Name) -> Result<(), Refusal> {
        self.below.release(name)
    }

    fn cell_at(&self, index: u32) -> Result<Cell, Refusal> {
        self.below.cell_at(index)
    }

    fn saved_len(&self, name: Name) -> Result<u32, Refusal> {
        self.below.saved_len(name)
    }

    fn saved_cell(&self, name: Name, index: u32) -> Result<Cell, Refusal> {
        self.below.saved_cell(name, index)
    }

    fn held(&self) -> u32 {
        self.below.held()
    }

    fn held_limit(&self) -> u32 {
        self.below.held_limit()
    }

    fn len(&self) -> u32 {
        self.below.len()
    }

    fn depth_limit(&self) -> u32 {
        self.quota.min(self.below.depth_limit())
    }

    fn height(&self) -> u32 {
        self.below.height().saturating_add(1)
    }

    fn limit_level(&self) -> u32 {
        if self.quota < self.below.depth_limit() {
            self.height()
        } else {
            self.below.limit_level()
        }
    }
}
