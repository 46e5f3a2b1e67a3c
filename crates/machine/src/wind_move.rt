//! Moves of the winds in force.

use cell::address::Address;
use cell::wind::Wind;

/// What a step does to the winds in force.
#[derive(Clone, Copy, PartialEq, Eq, Debug)]
pub enum WindMove {
    Stay,
    /// A wind of the next number, with its before and its after, is entered.
    Open(Address, Address),
    /// A saved wind is entered again, under its own number.
    Reenter(Wind),
    /// The top wind is left.
    Leave,
}
