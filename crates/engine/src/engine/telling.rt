//! What an engine tells of its run.
ghost use Rattle.std.specs.Prelude.{◌≡◌};
ghost use Rattle.engine.specs.Tallies.{last_tried, ending_of, tally_of};

use crate::engine::Engine;
use cell::address::Address;
use machine::end::End;
use machine::mode::Mode;
use machine::tally::{Ending, NameTally, Tally, WindTally};
use store::store::Store;

impl<F: Store, W: Store> Engine<F, W> {
    /// The last address that a step was Going at, counting one that was refused.
    fn last_tried(&self) -> Address
        ensures { result ≡ last_tried self.now }
    {
        match self.mode {
            Mode::Going(at) => at,
            Mode::Returning | Mode::Throwing(_, _) => self.tried,
        }
    }

    /// The tally of a run with this end, if it has ended.
    pub fn tally(&self, end: Option<End>) -> Tally
        ensures { result ≡ tally_of self.now end }
    {
        Tally {
            steps: self.counts.steps,
            names: NameTally {
                made: self.counts.made,
                used: self.counts.used,
                forgotten: self.counts.forgotten,
                held: self.held.len() as u32,
            },
            winds: WindTally {
                entered: self.counts.entered,
                left: self.counts.left,
                current: self.winds.len(),
            },
            ending: self.ending(end),
        }
    }

    /// How the run ended, if it has.
    fn ending(&self, end: Option<End>) -> Option<Ending>
        ensures { result ≡ ending_of self.now end }
    {
        Some(Ending {
            end: end?,
            address: self.last_tried(),
        })
    }
}
