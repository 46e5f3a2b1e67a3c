//! Values.

use crate::address::Address;
use crate::name::Name;

/// What a register or a global holds.
#[derive(Clone, Copy, Default, PartialEq, Eq, Debug)]
pub enum Value {
    #[default]
    Empty,
    Number(i32),
    Procedure(Address),
    Continuation(Name),
}
