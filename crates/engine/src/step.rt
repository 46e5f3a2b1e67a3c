//! What a step came to.

use machine::mode::Mode;

/// What a step that was not refused came to.
#[derive(Clone, Copy, PartialEq, Eq, Debug)]
pub enum Step {
    /// It was made.
    Made,
    /// The line of a number has to be printed; the step is made then, and has this mode after it.
    Line(i32, Mode),
    /// The run ends well.
    Finished,
}
