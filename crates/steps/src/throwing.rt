//! A step of a throw.
ghost use Rattle.std.specs.Prelude.{◌≡◌};
ghost use Rattle.engine.specs.Acting.{carried};
ghost use Rattle.steps.specs.Planning.{throwing};

use crate::needs::{row, top_wind};
use cell::frame::Frame;
use cell::name::Name;
use cell::value::Value;
use engine::engine::Engine;
use engine::step::Step;
use machine::end::End;
use machine::mode::Mode;
use store::store::Store;

/// A throw leaves the top wind, or enters the next one that was saved, or comes to its end.
pub(crate) fn throw<F: Store, W: Store>(
    engine: &mut Engine<F, W>,
    name: Name,
    value: Value,
) -> Result<Step, End>
    ensures { (result, engine.new) ≡ carried (throwing name value engine.old) engine.old }
{
    let row = row(engine, name)?;
    let shared = engine.common_winds(name)?;
    if shared < engine.winds() {
        let wind = top_wind(engine)?;
        return engine.throw_out(Frame::Toss(name, value), wind.after);
    }
    if let Ok(wind) = engine.saved_wind(name, shared) {
        return engine.push(Frame::Enter(name, value), Mode::Going(wind.before));
    }
    if row.once {
        return engine.land_using(name, value);
    }
    engine.land(name, value)
}
