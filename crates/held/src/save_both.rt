//! A save in both stores of a run.
ghost use Rattle.std.specs.Prelude.{◌≡◌};
ghost use Rattle.cell.specs.Elements.{frame_in, frame_words, wind_in, wind_words};
ghost use Rattle.store.specs.Typed.{read_as, Written};
ghost use Rattle.held.specs.Saves.{saved_both};

use crate::half_save::saving::{give_up, save_frames, save_winds};
use crate::save_refusal::SaveRefusal;
use crate::wind_save_refused::WindSaveRefused;
use cell::name::Name;
use store::store::Store;

/// Saves in both stores under a name, or in none: where the wind store refuses, the first save is released.
pub fn save_both<F: Store, W: Store>(
    frames: &mut F,
    winds: &mut W,
    name: Name,
) -> Result<(), SaveRefusal>
    ensures call { (result, (read_as frame_in (F.meaning frames.new), read_as wind_in (W.meaning winds.new))) ≡ saved_both (read_as frame_in (F.meaning frames.old)) (read_as wind_in (W.meaning winds.old)) name.0 }
    ensures frames_written { Written frame_in frame_words (F.meaning frames.old) → Written frame_in frame_words (F.meaning frames.new) }
    ensures winds_written { Written wind_in wind_words (W.meaning winds.old) → Written wind_in wind_words (W.meaning winds.new) }
    ensures frames_memory { F.fixed frames.new ≡ F.fixed frames.old }
    ensures winds_memory { W.fixed winds.new ≡ W.fixed winds.old }
{
    let half = save_frames(frames, name)?;
    let Err(WindSaveRefused { owed, refusal }) = save_winds(half, winds) else {
        return Ok(());
    };
    give_up(owed, frames);
    Err(SaveRefusal::Winds(refusal))
}
