//! What a `run` call did.

use crate::reason::Reason;

/// What an accepted `run` call did.
#[derive(Clone, Copy, PartialEq, Eq, Debug)]
pub struct Progress {
    /// Steps made.
    pub steps: u32,
    /// Bytes written, from the buffer's start.
    pub bytes: usize,
    pub reason: Reason,
}
