//! The cells in an engine's two stores.
ghost use Rattle.std.specs.Prelude.{◌≡◌, map};
ghost use Rattle.machine.specs.Calls.{cell_at, frame_cell as frame_to_cell, wind_cell as wind_to_cell};

use crate::engine::Engine;
use cell::cell::Cell;
use machine::index_refusal::IndexRefusal;
use store::store::Store;

/// The cell at an index of a store; the bottom has index 0.
pub fn cell_at<S: Store>(store: &S, index: u32) -> Result<Cell, IndexRefusal>
    ensures { result ≡ cell_at (S.meaning store.now).current index }
{
    store.cell_at(index).ok().ok_or(IndexRefusal::Beyond)
}

impl<F: Store, W: Store> Engine<F, W> {
    // Both ask the store itself, which has the cell as it is: no frame or wind is read and written again.
    /// The cell at an index of the frame store.
    pub fn frame_cell(&self, index: u32) -> Result<Cell, IndexRefusal>
        ensures { result ≡ cell_at (map frame_to_cell self.now.frames.current) index }
    {
        cell_at(self.frames.store(), index)
    }

    /// The cell at an index of the wind store.
    pub fn wind_cell(&self, index: u32) -> Result<Cell, IndexRefusal>
        ensures { result ≡ cell_at (map wind_to_cell self.now.winds.current) index }
    {
        cell_at(self.winds.store(), index)
    }
}
