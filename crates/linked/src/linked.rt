//! The linked store.
ghost use Rattle.std.specs.Prelude.{◌≡◌, ◌≤◌, true, length};
ghost use Rattle.bottom.specs.Limits.{cells_needed};
ghost use Rattle.bottom.specs.Rows.{places, every};
ghost use Rattle.linked.specs.Chains.{Counted, Shallow, all_free, row_fits, lists};

use crate::chain::Chain;
use crate::pool::Pool;
use bottom::table::Table;

pub mod methods;

/// The lists lie in the nodes of the pool, and the table has the top and the length of each saved one.
#[derive(Drop)]
pub struct Linked {
    pool: Pool,
    table: Table,
    depth: u32,
    current: Chain,
    ghost room: { cells_needed depth table.limit ≤ length pool.nodes.items },
    ghost flat: { depth ≤ 4096 },
    ghost counted: { Counted pool.nodes.items (cells_needed depth table.limit) (places (lists current.top current.len table)) },
    ghost shallow: { Shallow pool.nodes.items (cells_needed depth table.limit) depth },
    ghost spare: { all_free pool.nodes.items (cells_needed depth table.limit) pool.free ≡ true },
    ghost fitting: { every (row_fits pool.nodes.items (cells_needed depth table.limit) depth) (lists current.top current.len table) ≡ true },
}
