//! A line by its kind.

/// What a line is.
#[derive(Clone, Copy, Debug, PartialEq, Eq)]
pub enum Line<'a> {
    Blank,
    Comment,
    /// A label; what follows the colon.
    Label(&'a [u8]),
    /// An instruction; the whole line.
    Code(&'a [u8]),
}
