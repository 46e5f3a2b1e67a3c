//! The names of continuations.

/// The name of a continuation; the first that a run makes is 1.
#[derive(Clone, Copy, Default, PartialEq, Eq, Debug)]
pub struct Name(pub u32);
