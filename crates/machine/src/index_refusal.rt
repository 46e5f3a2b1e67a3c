//! Refusals of `look` and `force`.

ghost use Rattle.std.specs.Prelude.{◌≡◌};
ghost use Rattle.machine.specs.Numbers.{index_refusal_number};

use thiserror::Error;

/// Why `look` or `force` is refused: for one reason only, in a type apart from the refusals of `run`.
#[derive(Clone, Copy, PartialEq, Eq, Debug, Error)]
pub enum IndexRefusal {
    #[error("there is nothing at the index")]
    Beyond,
}

impl IndexRefusal {
    /// The number that callers know it by.
    pub fn number(self) -> u32
        ensures { result ≡ index_refusal_number self }
    {
        match self {
            IndexRefusal::Beyond => 23,
        }
    }
}
