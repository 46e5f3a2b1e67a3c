//! The next step: the mode, with the top frame, says what is done and what mode comes after it.
ghost use Rattle.std.specs.Prelude.{◌≡◌};
ghost use Rattle.engine.specs.Acting.{carried};
ghost use Rattle.steps.specs.Advancing.{stepping};
ghost use Rattle.steps.specs.Planning.{planning};
ghost use Rattle.steps.specs.Waiting.{waiting};

use crate::executing::fetch;
use crate::returning::{end_before, end_body, pass_mark};
use crate::throwing::throw;
use cell::frame::Frame;
use code::code::Code;
use engine::engine::{Engine, ZEROTH};
use engine::step::Step;
use machine::end::End;
use machine::mode::Mode;
use store::store::Store;

/// How many steps a run may make.
const MOST_STEPS: u32 = 4_000_000_000;

/// Makes the next step, or ends.
pub(crate) fn step<F: Store, W: Store>(engine: &mut Engine<F, W>, code: &Code) -> Result<Step, End>
    ensures { (result, engine.new) ≡ stepping code.now engine.old }
{
    if engine.steps() >= MOST_STEPS {
        return Err(End::StepLimit);
    }
    carry_on(engine, code)
}

/// The same, where one step more may be made.
fn carry_on<F: Store, W: Store>(engine: &mut Engine<F, W>, code: &Code) -> Result<Step, End>
    ensures { (result, engine.new) ≡ carried (planning code.now engine.old) engine.old }
{
    match (engine.mode(), waiting(engine)) {
        (Mode::Going(at), _) => fetch(engine, code, at),
        (Mode::Returning, None) => Ok(engine.finish()),
        (Mode::Returning, Some(Frame::Saved(_))) => Err(End::WrongFrame),
        (Mode::Returning, Some(Frame::Back(at))) => engine.pop(Mode::Going(at)),
        (Mode::Returning, Some(Frame::Mark(name))) => pass_mark(engine, name),
        (Mode::Returning, Some(Frame::In(before, body, after))) => {
            engine.open_wind(before, body, after)
        }
        (Mode::Returning, Some(Frame::Out)) => end_body(engine),
        (Mode::Returning, Some(Frame::Hold(value))) => {
            engine.pop_into(ZEROTH, value, Mode::Returning)
        }
        (Mode::Returning, Some(Frame::Toss(name, value))) => {
            engine.pop(Mode::Throwing(name, value))
        }
        (Mode::Returning, Some(Frame::Enter(name, value))) => end_before(engine, name, value),
        (Mode::Throwing(name, value), _) => throw(engine, name, value),
    }
}

/// The top frame, if it is returned to next.
fn waiting<F: Store, W: Store>(engine: &Engine<F, W>) -> Option<Frame>
    ensures { result ≡ waiting engine.now.mode engine.now.frames.current }
{
    match engine.mode() {
        Mode::Returning => engine.top_frame(),
        Mode::Going(_) | Mode::Throwing(_, _) => None,
    }
}
