//! A store's refusal as an end of the run.

ghost use Rattle.std.specs.Prelude.{◌≡◌, ℕ};
ghost use Rattle.machine.specs.StoreEnds.{end_by};
ghost use Rattle.machine.specs.declared.end.End.{End};
ghost use Rattle.machine.specs.declared.end.End.TheVariants.{FrameLimit, WindLimit};

use crate::end::End;
use cell::element::Element;
use cell::frame::Frame;
use cell::wind::Wind;
use store::refusal::Refusal;
use store::refused::Refused;

/// A kind of element, by the end of a run that has no room for one more.
pub trait Limited: Element {
    /// That end, with the level of the limit.
    ghost limit: { ℕ → End };

    /// Answers that end.
    fn limit(level: u32) -> End
        ensures { result ≡ limit level };
}

impl Limited for Frame {
    ghost limit = { FrameLimit };

    fn limit(level: u32) -> End {
        End::FrameLimit(level)
    }
}

impl Limited for Wind {
    ghost limit = { WindLimit };

    fn limit(level: u32) -> End {
        End::WindLimit(level)
    }
}

/// A full store ends the run with its level; the other refusals have an end too, so that the conversion is total.
impl<E: Limited> From<Refused<E>> for End {
    ghost from_gives = { λ e y. y ≡ end_by E.limit e.why };

    fn from(refused: Refused<E>) -> End {
        match refused.why {
            Refusal::Full(level) => E::limit(level),
            Refusal::HeldFull | Refusal::NameTaken => End::HeldLimit,
            Refusal::NotHeld => End::NotHeld,
            Refusal::Empty | Refusal::NoIndex => End::WrongFrame,
        }
    }
}
