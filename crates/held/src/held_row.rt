//! Rows of held continuations.

use cell::name::Name;

/// A held name; once, if it serves for one throw only. A flag, as in the captures of the machine's definition.
#[derive(Clone, Copy, Default, PartialEq, Eq, Debug)]
pub struct HeldRow {
    pub name: Name,
    pub once: bool,
}
