//! Addresses, names and wind numbers are three counts, each with a type of its own, so that none is taken for another.

/// The place of an instruction in the code; the first is 0.
#[derive(Clone, Copy, Default, PartialEq, Eq, Debug)]
pub struct Address(pub u32);
