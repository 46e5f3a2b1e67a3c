//! Acts.

use crate::frame_move::FrameMove;
use crate::mode::Mode;
use crate::name_move::NameMove;
use crate::wind_move::WindMove;
use crate::write::Write;

/// What a step does, decided before any of it is done.
/// A part that changes nothing is a variant, not `None`: a match on it stays one level deep.
#[derive(Clone, Copy, PartialEq, Eq, Debug)]
pub struct Act {
    pub write: Write,
    pub frames: FrameMove,
    pub winds: WindMove,
    pub names: NameMove,
    /// The mode after the step.
    pub mode: Mode,
    /// A number to print.
    pub line: Option<i32>,
}
