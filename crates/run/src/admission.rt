//! Which run calls are accepted.
ghost use Rattle.std.specs.Prelude.{◌≡◌};
ghost use Rattle.run.specs.Admission.{admitted};

use machine::run_refusal::RunRefusal;

/// The largest budget of a run call.
pub const MOST_BUDGET: u32 = 1_000_000;

/// The least buffer of a run call: the longest line has so many bytes.
pub const LEAST_BUFFER: usize = 12;

/// Accepts a run call with this budget and a buffer of this size, on a run that has not ended. The budget is looked at first.
pub(crate) fn admit(budget: u32, size: usize) -> Result<(), RunRefusal>
    ensures { result ≡ admitted budget size }
{
    if budget < 1 || budget > MOST_BUDGET {
        return Err(RunRefusal::BudgetOutOfRange);
    }
    if size < LEAST_BUFFER {
        return Err(RunRefusal::BufferTooShort);
    }
    Ok(())
}
