//! Which names have a Mark in the frames.
ghost use Rattle.std.specs.Prelude.{◌≡◌, map, reverse};
ghost use Rattle.cell.specs.Elements.{frame_in};
ghost use Rattle.machine.specs.Apply.{marked_in};
ghost use Rattle.std.specs.List.{slice_get};
ghost use Rattle.held.specs.Marks.{marks_at as mark_of};

use cell::frame::Frame;
use cell::name::Name;
use store::store::Store;
use store::typed;

/// Whether the frames have a Mark of a name. A machine's frames stand top first, and a store's list bottom first.
pub fn marked<F: Store>(frames: &F, name: Name) -> bool
    ensures { result ≡ marked_in (reverse (map frame_in (F.meaning frames.now).current)) name.0 }
{
    (0..frames.len()).any(|index| marks_at(frames, index, name))
}

/// Whether the frame at an index is a Mark of a name. No guard in the match: with one, every frame that is looked at is decoded whole.
fn marks_at<F: Store>(frames: &F, index: u32, name: Name) -> bool
    ensures { result ≡ mark_of (slice_get (map frame_in (F.meaning frames.now).current) index) name.0 }
{
    match typed::at::<F, Frame>(frames, index) {
        Ok(Frame::Mark(marked)) => marked == name,
        _ => false,
    }
}
