//! What a run counts.
ghost use Rattle.std.specs.Prelude.{◌≡◌};
ghost use Rattle.engine.specs.Parts.{counts_of, counted_up, up as counted_on};

use machine::name_move::NameMove;
use machine::wind_move::WindMove;

/// The counts of a run, each in a word.
#[derive(Clone, Copy, Default, PartialEq, Eq, Debug)]
pub struct Counters {
    pub steps: u32,
    /// Names.
    pub made: u32,
    pub used: u32,
    pub forgotten: u32,
    /// Wind numbers given.
    pub numbered: u32,
    /// Winds.
    pub entered: u32,
    pub left: u32,
}

/// A count that goes up by one.
pub(crate) fn up(count: u32) -> u32
    ensures { result ≡ counted_on count }
{
    // It never wraps: no count passes the steps, and a run makes at most 4,000,000,000 of them.
    count.wrapping_add(1)
}

impl Counters {
    /// Counts a step that made these moves.
    #[inline]
    pub(crate) fn count(&mut self, winds: WindMove, names: NameMove)
        ensures { counts_of self.new ≡ counted_up (counts_of self.old) winds names }
    {
        self.steps = up(self.steps);
        match winds {
            WindMove::Stay => {}
            WindMove::Open(_, _) => {
                self.numbered = up(self.numbered);
                self.entered = up(self.entered);
            }
            WindMove::Reenter(_) => self.entered = up(self.entered),
            WindMove::Leave => self.left = up(self.left),
        }
        match names {
            NameMove::Keep => {}
            NameMove::SaveMany | NameMove::SaveOnce => self.made = up(self.made),
            NameMove::Use(_) => self.used = up(self.used),
            NameMove::Forget(_) => self.forgotten = up(self.forgotten),
        }
    }
}
