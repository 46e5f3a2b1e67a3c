//! Winds as elements.

ghost use Rattle.cell.specs.Elements.{wind_words, wind_in};

use crate::address::Address;
use crate::cell::Cell;
use crate::element::Element;
use crate::wind::Wind;
use crate::wind_number::WindNumber;

impl Element for Wind {
    const LEAST_DEPTH: u32 = 4;

    ghost LEAST_DEPTH = { 4 };

    ghost written = { wind_words };

    ghost read = { wind_in };

    fn to_cell(self) -> Cell {
        Cell::filled(&[self.number.0, self.before.0, self.after.0])
    }

    fn from_cell(cell: Cell) -> Wind {
        let [number, before, after, ..] = cell.words;
        Wind {
            number: WindNumber(number),
            before: Address(before),
            after: Address(after),
        }
    }
}
