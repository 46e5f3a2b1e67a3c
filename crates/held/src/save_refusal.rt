//! Why a save in two stores is refused.
ghost use Rattle.std.specs.Prelude.{◌≡◌};
ghost use Rattle.held.specs.declared.save_refusal.SaveRefusal.TheVariants.{Frames, Winds};

use cell::frame::Frame;
use cell::wind::Wind;
use store::refused::Refused;

/// The refusal of the store that refused.
#[derive(Clone, Copy, PartialEq, Eq, Debug)]
pub enum SaveRefusal {
    Frames(Refused<Frame>),
    Winds(Refused<Wind>),
}

impl From<Refused<Frame>> for SaveRefusal {
    ghost from_gives = { λ e y. y ≡ Frames e };

    fn from(refused: Refused<Frame>) -> SaveRefusal {
        SaveRefusal::Frames(refused)
    }
}
