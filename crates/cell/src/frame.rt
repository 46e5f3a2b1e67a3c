//! Frames.

use crate::address::Address;
use crate::name::Name;
use crate::value::Value;

/// What waits on the control stack.
#[derive(Clone, Copy, PartialEq, Eq, Debug)]
pub enum Frame {
    /// A value that the sheet pushed.
    Saved(Value),
    /// Where a call returns to.
    Back(Address),
    /// A one-shot continuation ends here: returning past it uses it up.
    Mark(Name),
    /// A dynamic-wind whose before is running: before, body, after.
    In(Address, Address, Address),
    /// A dynamic-wind whose body is running.
    Out,
    /// The body's value, while the after is running.
    Hold(Value),
    /// A throw goes on when the after of a wind that it leaves returns.
    Toss(Name, Value),
    /// A throw goes on when the before of a wind that it enters returns.
    Enter(Name, Value),
}
