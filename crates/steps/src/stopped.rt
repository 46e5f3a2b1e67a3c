//! Where steps in a row stopped.

use machine::end::End;
use machine::progress::Progress;

/// What steps in a row did, and how they ended the run, if they did: a caller is told the first, and keeps the second to tell it later.
#[derive(Clone, Copy, PartialEq, Eq, Debug)]
pub struct Stopped {
    pub progress: Progress,
    pub end: Option<End>,
}
