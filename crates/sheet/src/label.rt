//! A label with its address.

use cell::address::Address;
use lexer::label_name::LabelName;

/// A label, and the address of the instruction that follows it.
#[derive(Clone, Copy, Debug, Default, PartialEq, Eq)]
pub struct Label {
    pub name: LabelName,
    pub address: Address,
}
