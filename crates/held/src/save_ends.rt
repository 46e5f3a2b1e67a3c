//! A refused save as an end of the run.
ghost use Rattle.std.specs.Prelude.{◌≡◌};
ghost use Rattle.machine.specs.declared.end.End.TheVariants.{HeldLimit};

use crate::save_refusal::SaveRefusal;
use machine::end::End;

/// Whichever store refused, the name has no room.
impl From<SaveRefusal> for End {
    ghost from_gives = { λ e y. y ≡ HeldLimit };

    fn from(_refusal: SaveRefusal) -> End {
        End::HeldLimit
    }
}
