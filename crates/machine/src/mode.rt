//! What a run is doing.

use cell::address::Address;
use cell::name::Name;
use cell::value::Value;

/// What the next step of a run acts on.
#[derive(Clone, Copy, PartialEq, Eq, Debug)]
pub enum Mode {
    /// The instruction at the address comes next.
    Going(Address),
    /// The top frame is returned to next.
    Returning,
    /// A throw to the continuation of the name, with a value, is under way.
    Throwing(Name, Value),
}
