//! What a step with its line came to.

/// What a step that was not refused came to, its line printed.
#[derive(Clone, Copy, PartialEq, Eq, Debug)]
pub enum Turn {
    /// It was made; the next byte that is printed has this index in the buffer.
    Went(usize),
    /// Its line does not fit whole in what is left of the buffer, and it was not made.
    NoRoom,
    /// It was made, and ended the run well.
    Finished,
}
