//! The places where a store lays the saved lists.
ghost use Rattle.std.specs.Prelude.{◌≡◌, min, reverse};
ghost use Rattle.std.specs.List.{range_with_len};

use crate::table::ROWS;
use arrayvec::ArrayVec;

/// So many places, each with a number of its own, but never more than a table has rows. The first is the last, so that it is given out first.
/// A `for`: of an array made by its index and cut off, the check did not find what is left.
pub fn first(count: u32) -> ArrayVec<u32, ROWS>
    ensures { result.items ≡ reverse (range_with_len 0 (min count 64)) }
{
    let mut places = ArrayVec::new();
    for place in (0..count.min(ROWS as u32)).rev() {
        places.push(place);
    }
    places
}
