//! The table of held names.
ghost use Rattle.std.specs.Prelude.{◌≤◌, length};

use crate::limits::MOST_HELD;
use crate::row::Row;
use arrayvec::ArrayVec;

pub mod methods;

/// How many rows a table has room for.
pub const ROWS: usize = MOST_HELD as usize;

/// The rows of the held names, the oldest first. It has no model, since that would show these two fields again.
#[derive(Drop)]
pub struct Table {
    rows: ArrayVec<Row, ROWS>,
    limit: u32,
    ghost some: { length rows.items ≤ limit },
    ghost few: { limit ≤ 64 },
}
