//! What the winds in force and a name's saved winds have in common.
ghost use Rattle.std.specs.Prelude.{◌≡◌};
ghost use Rattle.cell.specs.Elements.{wind_in};
ghost use Rattle.store.specs.Typed.{read_as, refused_as, refused_of};
ghost use Rattle.held.specs.Winds.{common_with};

use cell::name::Name;
use cell::wind::Wind;
use store::refused::Refused;
use store::store::Store;
use store::typed;

/// The length of the longest common beginning, from the bottom and by wind number, of the winds in force and a name's saved winds.
pub fn common<W: Store>(winds: &W, name: Name) -> Result<u32, Refused<Wind>>
    ensures { result ≡ refused_as refused_of (common_with (read_as wind_in (W.meaning winds.now)) name.0) }
{
    let shorter = winds.len().min(typed::saved_len::<W, Wind>(winds, name)?);
    let mut index = 0;
    // By index, since a store answers so.
    let common = loop {
        if index >= shorter {
            break index;
        }
        let here = typed::at::<W, Wind>(winds, index)?;
        let there = typed::saved_at::<W, Wind>(winds, name, index)?;
        if here.number != there.number {
            break index;
        }
        index += 1;
    };
    Ok(common)
}
