//! Instructions on procedures, continuations and saved values.
ghost use Rattle.std.specs.Prelude.{◌≡◌, ◌<◌};
ghost use Rattle.machine.specs.declared.frame_move.FrameMove.TheVariants.{Keep};
ghost use Rattle.machine.specs.Going.{reg, zeroth, enters_by};
ghost use Rattle.engine.specs.Acting.{carried};
ghost use Rattle.engine.specs.Parts.{state_from};
ghost use Rattle.steps.specs.Planning.{executing};

use crate::checks::continuation;
use crate::executing::after;
use crate::needs::{procedure_in, row};
use cell::address::Address;
use cell::frame::Frame;
use cell::value::Value;
use code::code::CAPACITY;
use code::instruction::Instruction;
use code::register::Register;
use engine::engine::{Engine, ZEROTH};
use engine::step::Step;
use machine::end::End;
use machine::mode::Mode;
use store::store::Store;

/// `pop`: a value that a `push` saved goes back to a register.
pub(crate) fn pop_saved<F: Store, W: Store>(
    engine: &mut Engine<F, W>,
    register: Register,
    at: Address,
) -> Result<Step, End>
    requires { at.0 < CAPACITY }
    ensures { (result, engine.new) ≡ carried (executing (Instruction.Pop register) engine.old at) engine.old }
{
    let Some(Frame::Saved(value)) = engine.top_frame() else {
        return Err(End::WrongFrame);
    };
    engine.pop_into(register, value, Mode::Going(after(at)))
}

/// `call`: a procedure returns to the next instruction; a continuation is thrown to.
pub(crate) fn call<F: Store, W: Store>(
    engine: &mut Engine<F, W>,
    register: Register,
    at: Address,
) -> Result<Step, End>
    requires { at.0 < CAPACITY }
    ensures { (result, engine.new) ≡ carried (executing (Instruction.Call register) engine.old at) engine.old }
{
    match engine.register(register) {
        Value::Procedure(body) => engine.push(Frame::Back(after(at)), Mode::Going(body)),
        Value::Continuation(name) => {
            Ok(engine.go(Mode::Throwing(name, engine.register(ZEROTH))))
        }
        Value::Empty | Value::Number(_) => Err(End::WrongKind),
    }
}

/// `tail`: the same with no return, so that it asks for no address.
pub(crate) fn tail<F: Store, W: Store>(
    engine: &mut Engine<F, W>,
    register: Register,
) -> Result<Step, End>
    ensures { (result, engine.new) ≡ carried (enters_by Keep (reg (state_from engine.old) register) (reg (state_from engine.old) zeroth)) engine.old }
{
    match engine.register(register) {
        Value::Procedure(body) => Ok(engine.go(Mode::Going(body))),
        Value::Continuation(name) => {
            Ok(engine.go(Mode::Throwing(name, engine.register(ZEROTH))))
        }
        Value::Empty | Value::Number(_) => Err(End::WrongKind),
    }
}

/// `cc`: a procedure is called with the continuation of the next instruction, for many throws.
pub(crate) fn call_many<F: Store, W: Store>(
    engine: &mut Engine<F, W>,
    register: Register,
    at: Address,
) -> Result<Step, End>
    requires { at.0 < CAPACITY }
    ensures { (result, engine.new) ≡ carried (executing (Instruction.CallCc register) engine.old at) engine.old }
{
    let body = procedure_in(engine, register)?;
    engine.capture_many(after(at), body)
}

/// `cc1`: the same for one throw.
pub(crate) fn call_once<F: Store, W: Store>(
    engine: &mut Engine<F, W>,
    register: Register,
    at: Address,
) -> Result<Step, End>
    requires { at.0 < CAPACITY }
    ensures { (result, engine.new) ≡ carried (executing (Instruction.CallOnce register) engine.old at) engine.old }
{
    let body = procedure_in(engine, register)?;
    engine.capture_once(after(at), body)
}

/// `forget`: a name that is held is held no more.
pub(crate) fn forget_held<F: Store, W: Store>(
    engine: &mut Engine<F, W>,
    register: Register,
    at: Address,
) -> Result<Step, End>
    requires { at.0 < CAPACITY }
    ensures { (result, engine.new) ≡ carried (executing (Instruction.Forget register) engine.old at) engine.old }
{
    let name = continuation(engine.register(register))?;
    row(engine, name)?;
    engine.forget(name, Mode::Going(after(at)))
}

/// `wind`: the before follows, and its wind waits for its return.
pub(crate) fn wind<F: Store, W: Store>(
    engine: &mut Engine<F, W>,
    a: Register,
    b: Register,
    c: Register,
    at: Address,
) -> Result<Step, End>
    requires { at.0 < CAPACITY }
    ensures { (result, engine.new) ≡ carried (executing (Instruction.DynamicWind a b c) engine.old at) engine.old }
{
    let before = procedure_in(engine, a)?;
    let body = procedure_in(engine, b)?;
    let then = procedure_in(engine, c)?;
    engine.push_both(
        Frame::Back(after(at)),
        Frame::In(before, body, then),
        Mode::Going(before),
    )
}
