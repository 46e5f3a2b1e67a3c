//! The nodes of a linked store.

use cell::cell::Cell;

/// A cell, the index of the node below it, and how many tops of lists and links of held nodes lead here.
#[derive(Clone, Copy, Default, PartialEq, Eq, Debug)]
pub struct Node {
    pub cell: Cell,
    pub link: u32,
    pub holders: u32,
}
