//! Instructions on numbers.
ghost use Rattle.std.specs.Prelude.{◌≡◌, ◌<◌};
ghost use Rattle.engine.specs.Acting.{carried};
ghost use Rattle.steps.specs.Planning.{executing};

use crate::checks::{difference, sum};
use crate::executing::after;
use crate::needs::number_in;
use cell::address::Address;
use cell::value::Value;
use code::code::CAPACITY;
use code::instruction::Instruction;
use code::register::Register;
use engine::engine::Engine;
use engine::step::Step;
use machine::end::End;
use machine::mode::Mode;
use store::store::Store;

/// `add`: the sum of two numbers goes to a register.
pub(crate) fn add<F: Store, W: Store>(
    engine: &mut Engine<F, W>,
    a: Register,
    b: Register,
    c: Register,
    at: Address,
) -> Result<Step, End>
    requires { at.0 < CAPACITY }
    ensures { (result, engine.new) ≡ carried (executing (Instruction.Add a b c) engine.old at) engine.old }
{
    let left = number_in(engine, b)?;
    let right = number_in(engine, c)?;
    let sum = sum(left, right)?;
    Ok(engine.write(a, Value::Number(sum), Mode::Going(after(at))))
}

/// `sub`: their difference does.
pub(crate) fn subtract<F: Store, W: Store>(
    engine: &mut Engine<F, W>,
    a: Register,
    b: Register,
    c: Register,
    at: Address,
) -> Result<Step, End>
    requires { at.0 < CAPACITY }
    ensures { (result, engine.new) ≡ carried (executing (Instruction.Sub a b c) engine.old at) engine.old }
{
    let left = number_in(engine, b)?;
    let right = number_in(engine, c)?;
    let difference = difference(left, right)?;
    Ok(engine.write(a, Value::Number(difference), Mode::Going(after(at))))
}

/// `less`: 1 does if the first is less, and else 0.
pub(crate) fn compare<F: Store, W: Store>(
    engine: &mut Engine<F, W>,
    a: Register,
    b: Register,
    c: Register,
    at: Address,
) -> Result<Step, End>
    requires { at.0 < CAPACITY }
    ensures { (result, engine.new) ≡ carried (executing (Instruction.Less a b c) engine.old at) engine.old }
{
    let left = number_in(engine, b)?;
    let right = number_in(engine, c)?;
    let less = i32::from(left < right);
    Ok(engine.write(a, Value::Number(less), Mode::Going(after(at))))
}

/// `zero`: the target follows if the number is 0.
pub(crate) fn jump_at_zero<F: Store, W: Store>(
    engine: &mut Engine<F, W>,
    register: Register,
    target: Address,
    at: Address,
) -> Result<Step, End>
    requires { at.0 < CAPACITY }
    ensures { (result, engine.new) ≡ carried (executing (Instruction.Zero register target) engine.old at) engine.old }
{
    if number_in(engine, register)? == 0 {
        return Ok(engine.go(Mode::Going(target)));
    }
    Ok(engine.go(Mode::Going(after(at))))
}

/// `print`: the line is yet to be printed.
pub(crate) fn print<F: Store, W: Store>(
    engine: &Engine<F, W>,
    register: Register,
    at: Address,
) -> Result<Step, End>
    requires { at.0 < CAPACITY }
    ensures { (result, engine.now) ≡ carried (executing (Instruction.Print register) engine.now at) engine.now }
{
    let number = number_in(engine, register)?;
    Ok(Step::Line(number, Mode::Going(after(at))))
}
