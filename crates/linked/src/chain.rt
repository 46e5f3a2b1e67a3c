//! Lists of linked nodes.
ghost use Rattle.std.specs.Prelude.{◌≡◌};

use bottom::row::Row;

/// The link of a bottom node, and the top of an empty list; an `Option<u32>` for it would make each node larger.
pub const END: u32 = u32::MAX;

/// A list by its top node and its length.
#[derive(Clone, Copy, PartialEq, Eq, Debug)]
pub struct Chain {
    pub top: u32,
    pub len: u32,
}

impl From<Row> for Chain {
    ghost from_gives = { λ row list. list ≡ record { top = row.at; len = row.len } };

    fn from(row: Row) -> Chain {
        Chain {
            top: row.at,
            len: row.len,
        }
    }
}
