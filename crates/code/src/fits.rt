//! Whether an instruction fits a code.
ghost use Rattle.std.specs.Prelude.{◌≡◌, length};
ghost use Rattle.code.specs.Fits.{fits as fitting, all_fit, reaches as reaching};

use crate::global::Global;
use crate::instruction::Instruction;
use crate::register::Register;
use cell::address::Address;

fn all_known(a: Register, b: Register, c: Register) -> bool
    ensures { result ≡ fitting 0 (Instruction.Add a b c) }
{
    a.is_known() && b.is_known() && c.is_known()
}

fn reaches(len: usize, target: Address) -> bool
    ensures { result ≡ reaching len target }
{
    target.0 as usize <= len
}

/// Whether every operand is in range, in a code of `len` instructions.
pub fn fits(len: usize, instruction: Instruction) -> bool
    ensures { result ≡ fitting len instruction }
{
    match instruction {
        Instruction::Set(r, _)
        | Instruction::Push(r)
        | Instruction::Pop(r)
        | Instruction::Print(r)
        | Instruction::Call(r)
        | Instruction::Tail(r)
        | Instruction::CallCc(r)
        | Instruction::CallOnce(r)
        | Instruction::Forget(r) => r.is_known(),
        Instruction::Proc(r, target) | Instruction::Zero(r, target) => {
            r.is_known() && reaches(len, target)
        }
        Instruction::Load(r, global) => r.is_known() && global.is_known(),
        Instruction::Store(global, r) => global.is_known() && r.is_known(),
        Instruction::Add(a, b, c)
        | Instruction::Sub(a, b, c)
        | Instruction::Less(a, b, c)
        | Instruction::DynamicWind(a, b, c) => all_known(a, b, c),
        Instruction::Jump(target) => reaches(len, target),
        Instruction::Return | Instruction::Stop => true,
    }
}

/// Whether these instructions, as a whole code, all fit.
pub fn all_fit(instructions: &[Instruction]) -> bool
    ensures { result ≡ all_fit (length instructions.now) instructions.now }
{
    let len = instructions.len();
    instructions.iter().all(|&i| fits(len, i))
}
