//! Moves of the held names.

use cell::name::Name;

/// What a step does to the held names. What is saved are the winds in force, and the frames after their move.
#[derive(Clone, Copy, PartialEq, Eq, Debug)]
pub enum NameMove {
    Keep,
    /// A new name is held for many throws, and so is from now on each held name that has a Mark in the frames.
    SaveMany,
    /// A new name is held for one throw; its Mark, the new top frame, is not saved.
    SaveOnce,
    /// The name is released as used.
    Use(Name),
    /// The name is released as forgotten.
    Forget(Name),
}
