//! What the next step looks at before anything is done.
ghost use Rattle.std.specs.Prelude.{◌≡◌, length};
ghost use Rattle.store.specs.Meaning.{saved_cell_in, top as uppermost};
ghost use Rattle.store.specs.Typed.{refused_as, refused_of};
ghost use Rattle.machine.specs.Named.{find as found};
ghost use Rattle.held.specs.Rows.{row_name};
ghost use Rattle.held.specs.Winds.{common_with};

use crate::engine::Engine;
use cell::frame::Frame;
use cell::name::Name;
use cell::wind::Wind;
use held::common::common;
use held::held_row::HeldRow;
use machine::mode::Mode;
use store::refused::Refused;
use store::store::Store;

impl<F: Store, W: Store> Engine<F, W> {
    /// The mode.
    pub fn mode(&self) -> Mode
        ensures { result ≡ self.now.mode }
    {
        self.mode
    }

    /// How many steps were made.
    pub fn steps(&self) -> u32
        ensures { result ≡ self.now.counts.steps }
    {
        self.counts.steps
    }

    /// The top frame, if there is any.
    pub fn top_frame(&self) -> Option<Frame>
        ensures { result ≡ uppermost self.now.frames.current }
    {
        self.frames.top()
    }

    /// The top wind, if there is any.
    pub fn top_wind(&self) -> Option<Wind>
        ensures { result ≡ uppermost self.now.winds.current }
    {
        self.winds.top()
    }

    /// How many winds are in force.
    pub fn winds(&self) -> u32
        ensures { result ≡ length self.now.winds.current }
    {
        self.winds.len()
    }

    /// How many of them, from the bottom, are also the first that were saved under a name.
    pub fn common_winds(&self, name: Name) -> Result<u32, Refused<Wind>>
        ensures { result ≡ refused_as refused_of (common_with self.now.winds name.0) }
    {
        common(self.winds.store(), name)
    }

    /// The wind at an index of those saved under a name.
    pub fn saved_wind(&self, name: Name, index: u32) -> Result<Wind, Refused<Wind>>
        ensures { result ≡ refused_as refused_of (saved_cell_in self.now.winds name.0 index) }
    {
        self.winds.saved_at(name, index)
    }

    /// The row of a name, if it is held.
    pub fn row(&self, name: Name) -> Option<HeldRow>
        ensures { result ≡ found row_name self.now.rows name.0 }
    {
        self.held.find(name)
    }
}
