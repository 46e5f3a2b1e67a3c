//! The copied stack.
ghost use Rattle.std.specs.Prelude.{◌≡◌, ◌+◌, ◌*◌, ◌≤◌, true, length};
ghost use Rattle.bottom.specs.Limits.{cells_needed};
ghost use Rattle.bottom.specs.Rows.{every};
ghost use Rattle.bottom.specs.Tables.{listed};
ghost use Rattle.cell.specs.Filled.{width};
ghost use Rattle.copied.specs.Parts.{Apart, spare, row_fits, place_fits};

use arrayvec::ArrayVec;
use bottom::table::{ROWS, Table};

pub mod methods;

/// The memory is given, so a length stands beside it. The current list lies at its beginning, and behind it there is a part for each row that the table may have;
/// the parts of `free` are no row's.
#[derive(Drop)]
pub struct Copied {
    memory: Vec<u32>,
    table: Table,
    free: ArrayVec<u32, ROWS>,
    depth: u32,
    len: u32,
    ghost room: { width * cells_needed depth table.limit ≤ length memory.items },
    ghost flat: { depth ≤ 4096 },
    ghost fits: { len ≤ depth },
    ghost whole: { length (listed table) + length free.items ≡ table.limit },
    ghost apart: { Apart (listed table) (spare free.items) },
    ghost fitting: { every (row_fits depth table.limit) (listed table) ≡ true },
    ghost placed: { every (place_fits table.limit) (spare free.items) ≡ true },
}
