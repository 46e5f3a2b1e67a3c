//! Half-saves.
use cell::name::Name;

pub mod saving;

/// A save in the frame store that the wind store has yet to make too.
/// It is no `Drop`: only a save in the wind store, or a release of the first save, spends it.
#[must_use]
pub struct HalfSave {
    name: Name,
}
