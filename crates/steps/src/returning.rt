//! What frames do that are returned to, where it takes more than one act.
ghost use Rattle.std.specs.Prelude.{◌≡◌};
ghost use Rattle.cell.specs.declared.frame.Frame.TheVariants.{Mark as MarkOf, Out as OutNow, Enter as EnterAgain};
ghost use Rattle.engine.specs.Acting.{carried};
ghost use Rattle.steps.specs.Planning.{resuming};

use crate::needs::{row, top_wind};
use cell::name::Name;
use cell::value::Value;
use engine::engine::{Engine, ZEROTH};
use engine::step::Step;
use machine::end::End;
use machine::mode::Mode;
use store::store::Store;

/// What was called under a name has returned past its capture.
pub(crate) fn pass_mark<F: Store, W: Store>(
    engine: &mut Engine<F, W>,
    name: Name,
) -> Result<Step, End>
    ensures { (result, engine.new) ≡ carried (resuming (MarkOf name) engine.old) engine.old }
{
    let row = row(engine, name)?;
    if row.once {
        return engine.pop_using(row.name);
    }
    engine.pop(Mode::Returning)
}

/// The body of a wind has returned.
pub(crate) fn end_body<F: Store, W: Store>(engine: &mut Engine<F, W>) -> Result<Step, End>
    ensures { (result, engine.new) ≡ carried (resuming OutNow engine.old) engine.old }
{
    let wind = top_wind(engine)?;
    let value = engine.register(ZEROTH);
    engine.close_wind(value, wind.after)
}

/// The before of a wind that a throw enters has returned.
pub(crate) fn end_before<F: Store, W: Store>(
    engine: &mut Engine<F, W>,
    name: Name,
    value: Value,
) -> Result<Step, End>
    ensures { (result, engine.new) ≡ carried (resuming (EnterAgain name value) engine.old) engine.old }
{
    row(engine, name)?;
    let going_on = Mode::Throwing(name, value);
    let Ok(wind) = engine.saved_wind(name, engine.winds()) else {
        return engine.pop(going_on);
    };
    engine.reenter(wind, going_on)
}
