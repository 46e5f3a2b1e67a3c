//! The calls on a copied stack.
ghost use Rattle.std.specs.Prelude.{◌≡◌, ◌*◌, ◌<◌, ◌≤◌, ◌++◌, if◌then◌else◌, drop, length, reverse, is_ok};
ghost use Rattle.std.specs.List.{range_with_len};
ghost use Rattle.store.specs.Meaning.{with_current, pushed, popped, saved, restored, taken, released};
ghost use Rattle.bottom.specs.Limits.{accepted, cells_needed, split_at};
ghost use Rattle.bottom.specs.Meant.{opened};
ghost use Rattle.cell.specs.Filled.{width};
ghost use Rattle.bottom.specs.Rows.{row_under};
ghost use Rattle.copied.specs.Meant.{meant, fixed_of, held_rows, free_places, place_of, one_given};
ghost use Rattle.copied.specs.Parts.{read_row};

use crate::copied::Copied;
use crate::words;
use bottom::row::Row;
use bottom::table::Table;
use bottom::{limits, places};
use cell::cell::{Cell, WIDTH};
use cell::name::Name;
use store::refusal::Refusal;
use store::store::Store;

impl Copied {
    /// A store over a memory of words. Both its limits are 0 unless they are in range and the memory suffices.
    pub fn new(memory: Vec<u32>, depth: u32, held: u32) -> Copied
        ensures meaning { meant result ≡ opened (accepted (length memory.items) (width * cells_needed depth held) depth held) depth held }
        ensures memory { fixed_of result ≡ split_at (accepted (length memory.items) (width * cells_needed depth held) depth held) (width * cells_needed depth held) memory.items }
        ensures places { free_places result ≡ reverse (range_with_len 0 (meant result).held_limit) }
    {
        let (depth, held) = limits::granted(memory.len() / WIDTH, depth, held);
        Copied {
            memory,
            table: Table::new(held),
            free: places::first(held),
            depth,
            len: 0,
        }
    }

    /// Ends the store, and hands the memory back. Beyond the need it is as it was given.
    pub fn into_memory(self) -> Vec<u32>
        ensures memory { result ≡ self.memory }
        ensures beyond { fixed_of self ≡ ((fixed_of self).0, drop (fixed_of self).0 result.items) }
    {
        let Copied {
            memory,
            table: _,
            free: _,
            depth: _,
            len: _,
        } = self;
        memory
    }

    /// Makes the list of a row current.
    fn load(&mut self, row: Row)
        requires { (row.len ≤ self.old.depth) × (row.at < self.old.table.limit) }
        ensures meaning { meant self.new ≡ with_current (meant self.old) (read_row self.old.memory.items self.old.depth row) }
        ensures memory { fixed_of self.new ≡ fixed_of self.old }
        ensures places { free_places self.new ≡ free_places self.old }
    {
        let start = limits::cells_needed(self.depth, row.at);
        words::copy_cells(self.memory.as_mut_slice(), start, 0, row.len as usize);
        self.len = row.len;
    }
}

impl Store for Copied {
    type Slot = u32;

    ghost meaning = { meant };

    ghost fixed = { fixed_of };

    fn push(&mut self, cell: Cell) -> Result<(), Refusal>
        ensures call { (result, meant self.new) ≡ pushed (meant self.old) cell }
        ensures memory { fixed_of self.new ≡ fixed_of self.old }
        ensures places { free_places self.new ≡ free_places self.old }
    {
        if self.len >= self.depth {
            return Err(Refusal::Full(0));
        }
        words::write_cell(self.memory.as_mut_slice(), self.len as usize, cell);
        self.len += 1;
        Ok(())
    }

    fn pop(&mut self) -> Result<Cell, Refusal>
        ensures call { (result, meant self.new) ≡ popped (meant self.old) }
        ensures memory { fixed_of self.new ≡ fixed_of self.old }
        ensures places { free_places self.new ≡ free_places self.old }
    {
        if self.len == 0 {
            return Err(Refusal::Empty);
        }
        self.len -= 1;
        Ok(words::read_cell(self.memory.as_slice(), self.len as usize))
    }

    /// The list is laid where a place is free, the last of these.
    fn save(&mut self, name: Name) -> Result<(), Refusal>
        ensures call { (result, meant self.new) ≡ saved (meant self.old) name.0 }
        ensures memory { fixed_of self.new ≡ fixed_of self.old }
        ensures places { free_places self.new ≡ (if is_ok result then one_given (free_places self.old) else free_places self.old) }
    {
        self.table.admit(name)?;
        let place = self.free.pop().ok_or(Refusal::HeldFull)?;
        self.table.push(Row {
            name,
            at: place,
            len: self.len,
        })?;
        let start = limits::cells_needed(self.depth, place);
        words::copy_cells(self.memory.as_mut_slice(), 0, start, self.len as usize);
        Ok(())
    }

    fn restore(&mut self, name: Name) -> Result<(), Refusal>
        ensures call { (result, meant self.new) ≡ restored (meant self.old) name.0 }
        ensures memory { fixed_of self.new ≡ fixed_of self.old }
        ensures places { free_places self.new ≡ free_places self.old }
    {
        let row = self.table.get(name)?;
        self.load(row);
        Ok(())
    }

    /// The place of the name that goes is the next to be given out.
    fn take(&mut self, name: Name) -> Result<(), Refusal>
        ensures call { (result, meant self.new) ≡ taken (meant self.old) name.0 }
        ensures memory { fixed_of self.new ≡ fixed_of self.old }
        ensures places { free_places self.new ≡ free_places self.old ++ place_of (row_under (held_rows self.old) name.0) }
    {
        let row = self.table.remove(name)?;
        self.free.push(row.at);
        self.load(row);
        Ok(())
    }

    /// The place of the name that goes is the next to be given out.
    fn release(&mut self, name: Name) -> Result<(), Refusal>
        ensures call { (result, meant self.new) ≡ released (meant self.old) name.0 }
        ensures memory { fixed_of self.new ≡ fixed_of self.old }
        ensures places { free_places self.new ≡ free_places self.old ++ place_of (row_under (held_rows self.old) name.0) }
    {
        let gone = self.table.remove(name)?;
        self.free.push(gone.at);
        Ok(())
    }

    fn cell_at(&self, index: u32) -> Result<Cell, Refusal> {
        if index >= self.len {
            return Err(Refusal::NoIndex);
        }
        Ok(words::read_cell(self.memory.as_slice(), index as usize))
    }

    // What follows, but for a saved cell, is a line or two each, as in the other bottom store: a trait for it would have as many.
    fn saved_len(&self, name: Name) -> Result<u32, Refusal> {
        let row = self.table.get(name)?;
        Ok(row.len)
    }

    fn saved_cell(&self, name: Name, index: u32) -> Result<Cell, Refusal> {
        let row = self.table.get(name)?;
        if index >= row.len {
            return Err(Refusal::NoIndex);
        }
        let start = limits::cells_needed(self.depth, row.at);
        Ok(words::read_cell(self.memory.as_slice(), start + index as usize))
    }

    fn held(&self) -> u32 {
        self.table.held()
    }

    fn held_limit(&self) -> u32 {
        self.table.limit()
    }

    fn len(&self) -> u32 {
        self.len
    }

    fn depth_limit(&self) -> u32 {
        self.depth
    }

    fn height(&self) -> u32 {
        0
    }

    fn limit_level(&self) -> u32 {
        0
    }
}
