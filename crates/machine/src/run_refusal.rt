//! Refusals of `run`.

ghost use Rattle.std.specs.Prelude.{◌≡◌};
ghost use Rattle.machine.specs.Numbers.{run_refusal_number};

use thiserror::Error;

/// Why a `run` call is refused.
#[derive(Clone, Copy, PartialEq, Eq, Debug, Error)]
pub enum RunRefusal {
    #[error("the run has ended")]
    HasEnded,
    #[error("the budget is out of range")]
    BudgetOutOfRange,
    #[error("the buffer is too short")]
    BufferTooShort,
}

impl RunRefusal {
    /// The number that callers know it by.
    pub fn number(self) -> u32
        ensures { result ≡ run_refusal_number self }
    {
        match self {
            RunRefusal::HasEnded => 20,
            RunRefusal::BudgetOutOfRange => 21,
            RunRefusal::BufferTooShort => 22,
        }
    }
}
