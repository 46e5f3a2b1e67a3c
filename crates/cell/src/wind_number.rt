//! The numbers of dynamic-winds.

/// The number of a dynamic-wind; the first that a run enters is 1.
#[derive(Clone, Copy, Default, PartialEq, Eq, Debug)]
pub struct WindNumber(pub u32);
