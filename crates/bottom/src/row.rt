//! Rows of held names.

use cell::name::Name;

/// A held name, the place where its saved list lies, and the length of that list.
#[derive(Clone, Copy, Default, PartialEq, Eq, Debug)]
pub struct Row {
    pub name: Name,
    pub at: u32,
    pub len: u32,
}
