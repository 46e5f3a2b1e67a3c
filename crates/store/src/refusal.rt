//! Why a store refuses a call.

/// A refused call; `specs/Meaning.antt` gives each its number.
#[derive(Clone, Copy, PartialEq, Eq, Hash, Debug)]
pub enum Refusal {
    /// The current list is as long as the depth limit; with the level of the layer whose limit it is.
    Full(u32),
    /// The current list is empty.
    Empty,
    /// As many names are held as may be.
    HeldFull,
    /// The name is 0 or held already.
    NameTaken,
    /// The name is not held.
    NotHeld,
    /// The index is at or beyond the length.
    NoIndex,
}
