//! An instruction with its line.

use crate::unresolved::Unresolved;

/// An instruction as it was read, with the line that it was read from.
#[derive(Clone, Copy, Debug, Default, PartialEq, Eq)]
pub struct Draft {
    pub unresolved: Unresolved,
    pub line: u32,
}
