//! Instructions, by the acts that each comes to.
ghost use Rattle.std.specs.Prelude.{◌≡◌, ◌<◌};
ghost use Rattle.std.specs.List.{slice_get};
ghost use Rattle.machine.specs.Going.{after as address_after};
ghost use Rattle.engine.specs.Acting.{carried};
ghost use Rattle.steps.specs.Planning.{executing, fetching};

use crate::arithmetic::{add, compare, jump_at_zero, print, subtract};
use crate::calling::{call, call_many, call_once, forget_held, pop_saved, tail, wind};
use cell::address::Address;
use cell::frame::Frame;
use cell::value::Value;
use code::code::{CAPACITY, Code};
use code::instruction::Instruction;
use engine::engine::Engine;
use engine::step::Step;
use machine::end::End;
use machine::mode::Mode;
use store::store::Store;

/// The address after that of an instruction.
pub(crate) fn after(at: Address) -> Address
    requires { at.0 < CAPACITY }
    ensures { result ≡ address_after at }
{
    Address(at.0 + 1)
}

/// Executes the instruction at an address, if the code has one there.
pub(crate) fn fetch<F: Store, W: Store>(
    engine: &mut Engine<F, W>,
    code: &Code,
    at: Address,
) -> Result<Step, End>
    ensures { (result, engine.new) ≡ carried (fetching (slice_get code.now at.0) engine.old at) engine.old }
{
    let Some(instruction) = code.fetch(at) else {
        return Err(End::OffTheEnd);
    };
    execute(engine, instruction, at)
}

/// Executes an instruction that stands at an address.
fn execute<F: Store, W: Store>(
    engine: &mut Engine<F, W>,
    instruction: Instruction,
    at: Address,
) -> Result<Step, End>
    requires { at.0 < CAPACITY }
    ensures { (result, engine.new) ≡ carried (executing instruction engine.old at) engine.old }
{
    let next = Mode::Going(after(at));
    match instruction {
        Instruction::Set(r, number) => Ok(engine.write(r, Value::Number(number), next)),
        Instruction::Proc(r, target) => Ok(engine.write(r, Value::Procedure(target), next)),
        Instruction::Load(r, global) => Ok(engine.write(r, engine.global(global), next)),
        Instruction::Store(global, r) => Ok(engine.write_global(global, engine.register(r), next)),
        Instruction::Add(a, b, c) => add(engine, a, b, c, at),
        Instruction::Sub(a, b, c) => subtract(engine, a, b, c, at),
        Instruction::Less(a, b, c) => compare(engine, a, b, c, at),
        Instruction::Jump(target) => Ok(engine.go(Mode::Going(target))),
        Instruction::Zero(r, target) => jump_at_zero(engine, r, target, at),
        Instruction::Push(r) => engine.push(Frame::Saved(engine.register(r)), next),
        Instruction::Pop(r) => pop_saved(engine, r, at),
        Instruction::Print(r) => print(engine, r, at),
        Instruction::Call(r) => call(engine, r, at),
        Instruction::Tail(r) => tail(engine, r),
        Instruction::CallCc(r) => call_many(engine, r, at),
        Instruction::CallOnce(r) => call_once(engine, r, at),
        Instruction::Forget(r) => forget_held(engine, r, at),
        Instruction::DynamicWind(a, b, c) => wind(engine, a, b, c, at),
        Instruction::Return => Ok(engine.go(Mode::Returning)),
        Instruction::Stop => Ok(engine.finish()),
    }
}
