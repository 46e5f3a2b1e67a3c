//! The table of held continuations.
ghost use Rattle.std.specs.Prelude.{◌≡◌, ◌≤◌, [], length, map, reverse};
ghost use Rattle.cell.specs.Elements.{frame_in};
ghost use Rattle.machine.specs.Apply.{marked_in};
ghost use Rattle.machine.specs.Named.{find as found, without, changed_all};
ghost use Rattle.machine.specs.Opening.{most_held};
ghost use Rattle.held.specs.Rows.{row_name, for_many, appended};

use crate::full::Full;
use crate::held_row::HeldRow;
use crate::marks::marked;
use arrayvec::ArrayVec;
use cell::name::Name;
use std::marker::Model;
use store::store::Store;

/// How many rows a table has room for: as many names as a run may hold, whatever its stores may.
pub const ROWS: usize = 64;

/// The rows of the held names, the oldest first. A table apart from that of a bottom store, which has a limit and refuses names.
#[derive(Drop)]
pub struct HeldTable {
    rows: ArrayVec<HeldRow, ROWS>,
}

impl Model for HeldTable {
    ghost use Rattle.std.specs.Prelude.{List};
    ghost use Rattle.held.specs.declared.held_row.HeldRow.{HeldRow};

    ghost Value = { List HeldRow };

    ghost view = { λ t. t.rows.items };
}

impl HeldTable {
    /// A table without names.
    pub fn new() -> HeldTable
        ensures { result ≡ [] }
    {
        HeldTable {
            rows: ArrayVec::new(),
        }
    }

    /// How many names are held.
    pub fn len(&self) -> usize
        ensures value { result ≡ length self.now }
        ensures within { result ≤ most_held }
    {
        self.rows.len()
    }

    /// The row of a name, if it is held.
    pub fn find(&self, name: Name) -> Option<HeldRow>
        ensures { result ≡ found row_name self.now name.0 }
    {
        self.rows.iter().find(|row| row.name == name).copied()
    }

    /// Adds a row behind the others.
    pub fn add(&mut self, row: HeldRow) -> Result<(), Full>
        ensures { (result, self.new) ≡ appended most_held self.old row }
    {
        self.rows.try_push(row).map_err(|_| Full)
    }

    /// Removes the row of a name, if it is held; the others keep their order.
    pub fn remove(&mut self, name: Name)
        ensures { self.new ≡ without row_name self.old name.0 }
    {
        if let Some(index) = self.rows.iter().position(|row| row.name == name) {
            self.rows.remove(index);
        }
    }

    /// Marks as many each row whose name has a Mark in the frames. These are asked only for a row that is still once.
    pub fn promote<F: Store>(&mut self, frames: &F)
        ensures { self.new ≡ changed_all row_name (marked_in (reverse (map frame_in (F.meaning frames.now).current))) for_many self.old }
    {
        promote_each(self.rows.as_mut_slice(), frames);
    }
}

/// The same of each row of a slice.
fn promote_each<F: Store>(rows: &mut [HeldRow], frames: &F)
    ensures { rows.new ≡ changed_all row_name (marked_in (reverse (map frame_in (F.meaning frames.now).current))) for_many rows.old }
{
    for row in rows.iter_mut() {
        if row.once && marked(frames, row.name) {
            row.once = false;
        }
    }
}
