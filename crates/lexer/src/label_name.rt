//! The name of a label.

/// How many letters a name may have.
pub const MOST_LETTERS: usize = 12;

/// A name: its letters, filled up with zeros. It is an array, since `ArrayVec` is not `Copy` and `ArrayString` takes text, not bytes.
#[derive(Clone, Copy, Debug, Default, PartialEq, Eq)]
pub struct LabelName {
    pub letters: [u8; MOST_LETTERS],
}
