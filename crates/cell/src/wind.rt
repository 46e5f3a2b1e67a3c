//! Dynamic-winds in force.

use crate::address::Address;
use crate::wind_number::WindNumber;

/// A dynamic-wind in force: its own number, and where its before and its after begin.
#[derive(Clone, Copy, PartialEq, Eq, Debug)]
pub struct Wind {
    pub number: WindNumber,
    pub before: Address,
    pub after: Address,
}
