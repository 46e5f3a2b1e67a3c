//! A half-save made, matched in the wind store, and given up. What each leaves of its store is two clauses, as at `Typed`.
ghost use Rattle.std.specs.Prelude.{◌≡◌};
ghost use Rattle.cell.specs.Elements.{frame_in, frame_words, wind_in, wind_words};
ghost use Rattle.store.specs.Meaning.{saved, released};
ghost use Rattle.store.specs.Typed.{read_as, outcome_as, refused_of, Written};
ghost use Rattle.held.specs.Saves.{owing, handing_back};

use crate::half_save::HalfSave;
use crate::wind_save_refused::WindSaveRefused;
use cell::frame::Frame;
use cell::name::Name;
use cell::wind::Wind;
use store::refused::Refused;
use store::store::Store;
use store::typed;

/// Saves in the frame store; the save in the wind store is owed then.
pub fn save_frames<F: Store>(frames: &mut F, name: Name) -> Result<HalfSave, Refused<Frame>>
    ensures call { (result, read_as frame_in (F.meaning frames.new)) ≡ owing name (outcome_as refused_of (saved (read_as frame_in (F.meaning frames.old)) name.0)) }
    ensures written { Written frame_in frame_words (F.meaning frames.old) → Written frame_in frame_words (F.meaning frames.new) }
    ensures memory { F.fixed frames.new ≡ F.fixed frames.old }
{
    typed::save::<F, Frame>(frames, name)?;
    Ok(HalfSave { name })
}

/// Saves in the wind store too, or hands the half-save back.
pub fn save_winds<W: Store>(half: HalfSave, winds: &mut W) -> Result<(), WindSaveRefused>
    ensures call { (result, read_as wind_in (W.meaning winds.new)) ≡ handing_back half (outcome_as refused_of (saved (read_as wind_in (W.meaning winds.old)) half.name.0)) }
    ensures written { Written wind_in wind_words (W.meaning winds.old) → Written wind_in wind_words (W.meaning winds.new) }
    ensures memory { W.fixed winds.new ≡ W.fixed winds.old }
{
    let HalfSave { name } = half;
    typed::save::<W, Wind>(winds, name).map_err(|refusal| WindSaveRefused {
        owed: HalfSave { name },
        refusal,
    })
}

/// Releases the first save. A store that does not hold the name is left as it was.
pub fn give_up<F: Store>(half: HalfSave, frames: &mut F)
    ensures call { read_as frame_in (F.meaning frames.new) ≡ (released (read_as frame_in (F.meaning frames.old)) half.name.0).1 }
    ensures written { Written frame_in frame_words (F.meaning frames.old) → Written frame_in frame_words (F.meaning frames.new) }
    ensures memory { F.fixed frames.new ≡ F.fixed frames.old }
{
    let HalfSave { name } = half;
    let _ = typed::release::<F, Frame>(frames, name);
}
