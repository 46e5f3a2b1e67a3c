//! The calls on a table.
ghost use Rattle.std.specs.Prelude.{◌≡◌, ◌==◌, ◌<◌, min, [], ◌∷◌, ◌++◌, length};
ghost use Rattle.std.specs.List.{position};
ghost use Rattle.std.specs.Option.{ok_or};
ghost use Rattle.store.specs.declared.refusal.Refusal.TheVariants.{NotHeld};
ghost use Rattle.bottom.specs.Rows.{row_under, rows_without, admitted, appended, added};
ghost use Rattle.bottom.specs.Tables.{listed};

use crate::row::Row;
use crate::table::{ROWS, Table};
use arrayvec::ArrayVec;
use cell::name::Name;
use store::refusal::Refusal;

impl Table {
    /// A table without names, for so many of them as the limit says, but never more than it has room for.
    pub fn new(limit: u32) -> Table
        ensures listed { listed result ≡ [] }
        ensures limit { result.limit ≡ min limit 64 }
    {
        Table {
            rows: ArrayVec::new(),
            limit: limit.min(ROWS as u32),
        }
    }

    /// How many names are held.
    pub fn held(&self) -> u32
        ensures { result ≡ length (listed self.now) }
    {
        self.rows.len() as u32
    }

    /// How many names may be held.
    pub fn limit(&self) -> u32
        ensures { result ≡ self.now.limit }
    {
        self.limit
    }

    /// The row of a held name.
    pub fn get(&self, name: Name) -> Result<Row, Refusal>
        ensures { result ≡ ok_or (row_under (listed self.now) name.0) NotHeld }
    {
        let i = self.find(name).ok_or(Refusal::NotHeld)?;
        Ok(self.rows[i])
    }

    /// Refuses a name that is 0 or held already.
    pub fn admit(&self, name: Name) -> Result<(), Refusal>
        ensures { result ≡ admitted (listed self.now) name.0 }
    {
        if name == Name(0) || self.find(name).is_some() {
            return Err(Refusal::NameTaken);
        }
        Ok(())
    }

    /// Adds a row behind the others, whatever its name.
    pub fn push(&mut self, row: Row) -> Result<(), Refusal>
        ensures rows { (result, listed self.new) ≡ appended self.old.limit (listed self.old) row }
        ensures limit { self.new.limit ≡ self.old.limit }
    {
        if self.rows.len() >= self.limit as usize {
            return Err(Refusal::HeldFull);
        }
        self.rows.push(row);
        Ok(())
    }

    /// Adds a row behind the others, under a new name.
    pub fn add(&mut self, row: Row) -> Result<(), Refusal>
        ensures rows { (result, listed self.new) ≡ added self.old.limit (listed self.old) row }
        ensures limit { self.new.limit ≡ self.old.limit }
    {
        self.admit(row.name)?;
        self.push(row)
    }

    /// Removes the row of a name, and answers it.
    pub fn remove(&mut self, name: Name) -> Result<Row, Refusal>
        ensures row { result ≡ ok_or (row_under (listed self.old) name.0) NotHeld }
        ensures rows { listed self.new ≡ rows_without (listed self.old) name.0 }
        ensures limit { self.new.limit ≡ self.old.limit }
    {
        let i = self.find(name).ok_or(Refusal::NotHeld)?;
        Ok(self.rows.remove(i))
    }

    /// The index of the row of a held name.
    fn find(&self, name: Name) -> Option<usize>
        ensures { result ≡ position (λ r. r.name.0 == name.0) (listed self.now) }
    {
        self.rows.iter().position(|row| row.name == name)
    }
}
