//! The calls on a linked store.
ghost use Rattle.std.specs.Prelude.{◌≡◌, true, drop, length};
ghost use Rattle.store.specs.Meaning.{cell_in};
ghost use Rattle.bottom.specs.Limits.{accepted, cells_needed, split_at};
ghost use Rattle.bottom.specs.Meant.{opened};
ghost use Rattle.linked.specs.Chains.{ends, cells};
ghost use Rattle.linked.specs.Meant.{meant, fixed_of};

use crate::chain::{Chain, END};
use crate::linked::Linked;
use crate::node::Node;
use crate::pool::Pool;
use bottom::limits;
use bottom::row::Row;
use bottom::table::Table;
use cell::cell::Cell;
use cell::name::Name;
use store::refusal::Refusal;
use store::store::Store;

impl Linked {
    /// A store over a memory of nodes. Both its limits are 0 unless they are in range and the memory suffices.
    pub fn new(memory: Vec<Node>, depth: u32, held: u32) -> Linked
        ensures meaning { meant result ≡ opened (accepted (length memory.items) (cells_needed depth held) depth held) depth held }
        ensures memory { fixed_of result ≡ split_at (accepted (length memory.items) (cells_needed depth held) depth held) (cells_needed depth held) memory.items }
    {
        let (depth, held) = limits::granted(memory.len(), depth, held);
        let size = limits::cells_needed(depth, held);
        Linked {
            pool: Pool::new(memory, size),
            table: Table::new(held),
            depth,
            current: Chain { top: END, len: 0 },
        }
    }

    /// Ends the store, and hands the memory back. Beyond the need it is as it was given.
    pub fn into_memory(self) -> Vec<Node>
        ensures memory { result ≡ self.pool.nodes }
        ensures beyond { fixed_of self ≡ ((fixed_of self).0, drop (fixed_of self).0 result.items) }
    {
        let Linked {
            pool: Pool { nodes, free: _ },
            table: _,
            depth: _,
            current: _,
        } = self;
        nodes
    }

    /// The cell at an index of a list.
    fn cell_of(&self, list: Chain, index: u32) -> Result<Cell, Refusal>
        requires { ends self.now.pool.nodes.items (cells_needed self.now.depth self.now.table.limit) list.top list.len ≡ true }
        ensures { result ≡ cell_in (cells self.now.pool.nodes.items list.top list.len) index }
    {
        if index >= list.len {
            return Err(Refusal::NoIndex);
        }
        let mut at = list.top;
        // Along the links, since no slice has the cells of a list; counted down, as the links go.
        for _ in (index + 1..list.len).rev() {
            at = self.pool.nodes[at as usize].link;
        }
        Ok(self.pool.nodes[at as usize].cell)
    }
}

impl Store for Linked {
    type Slot = Node;

    ghost meaning = { meant };

    ghost fixed = { fixed_of };

    fn push(&mut self, cell: Cell) -> Result<(), Refusal> {
        if self.current.len >= self.depth {
            return Err(Refusal::Full(0));
        }
        self.current = self.pool.push(self.current, cell);
        Ok(())
    }

    fn pop(&mut self) -> Result<Cell, Refusal> {
        if self.current.len == 0 {
            return Err(Refusal::Empty);
        }
        let node = self.pool.nodes[self.current.top as usize];
        self.pool.drop_top(self.current);
        self.current = Chain {
            top: node.link,
            len: self.current.len - 1,
        };
        Ok(node.cell)
    }

    fn save(&mut self, name: Name) -> Result<(), Refusal> {
        self.table.add(Row {
            name,
            at: self.current.top,
            len: self.current.len,
        })?;
        self.pool.share(self.current);
        Ok(())
    }

    fn restore(&mut self, name: Name) -> Result<(), Refusal> {
        let row = self.table.get(name)?;
        let list = Chain::from(row);
        self.pool.share(list);
        self.pool.let_go(self.current);
        self.current = list;
        Ok(())
    }

    fn take(&mut self, name: Name) -> Result<(), Refusal> {
        let row = self.table.remove(name)?;
        self.pool.let_go(self.current);
        self.current = Chain::from(row);
        Ok(())
    }

    fn release(&mut self, name: Name) -> Result<(), Refusal> {
        let row = self.table.remove(name)?;
        let list = Chain::from(row);
        self.pool.let_go(list);
        Ok(())
    }

    fn cell_at(&self, index: u32) -> Result<Cell, Refusal> {
        self.cell_of(self.current, index)
    }

    // What follows, but for a saved cell, is a line or two each, as in the other bottom store: a trait for it would have as many.
    fn saved_len(&self, name: Name) -> Result<u32, Refusal> {
        let row = self.table.get(name)?;
        Ok(row.len)
    }

    fn saved_cell(&self, name: Name, index: u32) -> Result<Cell, Refusal> {
        let row = self.table.get(name)?;
        let list = Chain::from(row);
        self.cell_of(list, index)
    }

    fn held(&self) -> u32 {
        self.table.held()
    }

    fn held_limit(&self) -> u32 {
        self.table.limit()
    }

    fn len(&self) -> u32 {
        self.current.len
    }

    fn depth_limit(&self) -> u32 {
        self.depth
    }

    fn height(&self) -> u32 {
        0
    }

    fn limit_level(&self) -> u32 {
        0
    }
}
