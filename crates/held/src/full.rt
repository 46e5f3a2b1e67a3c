//! Why a table takes no more rows.
ghost use Rattle.std.specs.Prelude.{◌≡◌};
ghost use Rattle.machine.specs.declared.end.End.TheVariants.{HeldLimit};

use machine::end::End;

/// The table has as many rows as it may have.
#[derive(Clone, Copy, PartialEq, Eq, Debug)]
pub struct Full;

/// With no row left, the name has no room. As a refused save does, but that is another type, with what a store said in it.
impl From<Full> for End {
    ghost from_gives = { λ e y. y ≡ HeldLimit };

    fn from(_full: Full) -> End {
        End::HeldLimit
    }
}
