//! How a run ends.

ghost use Rattle.std.specs.Prelude.{◌≡◌};
ghost use Rattle.machine.specs.Numbers.{end_number};

/// How a run ends.
#[derive(Clone, Copy, PartialEq, Eq, Debug)]
pub enum End {
    /// By `stop`, or by a return with no frame.
    Finished,
    /// A value of the wrong kind.
    WrongKind,
    /// A sum or difference that is no signed word.
    SumOutOfRange,
    /// The top frame is not one for what was asked.
    WrongFrame,
    /// The name is not held.
    NotHeld,
    /// The code has no instruction at the address.
    OffTheEnd,
    /// No room for a frame; the level of the frame store's limit.
    FrameLimit(u32),
    /// No room for a wind; the level of the wind store's limit.
    WindLimit(u32),
    /// No room for a held name.
    HeldLimit,
    /// The run was opened on stores that are not fit for it.
    UnfitStores,
    /// As many steps were made as a run may make.
    StepLimit,
}

impl End {
    /// The number that callers know it by.
    pub fn number(self) -> u32
        ensures { result ≡ end_number self }
    {
        match self {
            End::Finished => 0,
            End::WrongKind => 30,
            End::SumOutOfRange => 31,
            End::WrongFrame => 32,
            End::NotHeld => 33,
            End::OffTheEnd => 34,
            End::FrameLimit(_) => 40,
            End::WindLimit(_) => 41,
            End::HeldLimit => 42,
            End::UnfitStores => 43,
            End::StepLimit => 44,
        }
    }
}
