//! Why a `run` call stopped.

ghost use Rattle.std.specs.Prelude.{◌≡◌};
ghost use Rattle.machine.specs.Numbers.{reason_number};

/// Why a `run` call stopped.
#[derive(Clone, Copy, PartialEq, Eq, Debug)]
pub enum Reason {
    BudgetUsed,
    /// The next line does not fit whole in what is left of the buffer.
    BufferFull,
    Ended,
}

impl Reason {
    /// The number that callers know it by.
    pub fn number(self) -> u32
        ensures { result ≡ reason_number self }
    {
        match self {
            Reason::BudgetUsed => 0,
            Reason::BufferFull => 1,
            Reason::Ended => 2,
        }
    }
}
