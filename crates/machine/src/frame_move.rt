//! Moves of the frames.

use cell::frame::Frame;
use cell::name::Name;

/// What a step does to the frames.
#[derive(Clone, Copy, PartialEq, Eq, Debug)]
pub enum FrameMove {
    Keep,
    Push(Frame),
    /// The second comes on top.
    PushBoth(Frame, Frame),
    Pop,
    /// The top frame gives way to this one.
    Replace(Frame),
    /// The frames saved under the name become current.
    Restore(Name),
}
