//! An instruction line.
ghost use Rattle.std.specs.Prelude.{◌≡◌};
ghost use Rattle.sheet.specs.Operands.{plain as plains, waiting as waits, with_operands, instruction as instructions, unknown, registers as registers_read, OfThree};

use crate::mnemonic::Mnemonic;
use crate::operands::{global, label, register, registers};
use crate::unresolved::Unresolved;
use cell::address::Address;
use code::instruction::Instruction;
use code::register::Register;
use lexer::fault::Fault;
use lexer::label_name::LabelName;
use lexer::number::number;
use lexer::split::space_count;
use lexer::words::Words;

/// Stands for a label's address until that is known: an `Instruction` over a type of targets would bring that type into every definition of the machine.
const UNKNOWN: Address = Address(0);

/// A `Result`, though it cannot fail, so that each arm of `operated` is one call; `waiting` too.
fn plain(instruction: Instruction) -> Result<Unresolved, Fault>
    ensures { result ≡ plains instruction }
{
    Ok(Unresolved {
        instruction,
        label: None,
    })
}

fn waiting(instruction: Instruction, name: LabelName) -> Result<Unresolved, Fault>
    ensures { result ≡ waits instruction name }
{
    Ok(Unresolved {
        instruction,
        label: Some(name),
    })
}

/// What `make` gives of three registers.
fn of_three<F>(make: F, a: &[u8], b: &[u8], c: &[u8]) -> Result<Unresolved, Fault>
where
    F: FnOnce(Register, Register, Register) -> Instruction,
    requires { F.IsAlwaysCallable make }
    ensures { OfThree (F.post make) (registers_read a.now b.now c.now) result }
{
    let (x, y, z) = registers(a, b, c)?;
    plain(make(x, y, z))
}

/// The instruction of a word with these operands; one that it does not have is not looked at.
fn operated(mnemonic: Mnemonic, a: &[u8], b: &[u8], c: &[u8]) -> Result<Unresolved, Fault>
    ensures { result ≡ with_operands mnemonic a.now b.now c.now }
{
    match mnemonic {
        Mnemonic::Set => plain(Instruction::Set(register(a)?, number(b)?)),
        Mnemonic::Proc => waiting(Instruction::Proc(register(a)?, UNKNOWN), label(b)?),
        Mnemonic::Load => plain(Instruction::Load(register(a)?, global(b)?)),
        Mnemonic::Store => plain(Instruction::Store(global(a)?, register(b)?)),
        Mnemonic::Add => of_three(Instruction::Add, a, b, c),
        Mnemonic::Sub => of_three(Instruction::Sub, a, b, c),
        Mnemonic::Less => of_three(Instruction::Less, a, b, c),
        Mnemonic::Jump => waiting(Instruction::Jump(UNKNOWN), label(a)?),
        Mnemonic::Zero => waiting(Instruction::Zero(register(a)?, UNKNOWN), label(b)?),
        Mnemonic::Push => plain(Instruction::Push(register(a)?)),
        Mnemonic::Pop => plain(Instruction::Pop(register(a)?)),
        Mnemonic::Print => plain(Instruction::Print(register(a)?)),
        Mnemonic::Call => plain(Instruction::Call(register(a)?)),
        Mnemonic::Tail => plain(Instruction::Tail(register(a)?)),
        Mnemonic::CallCc => plain(Instruction::CallCc(register(a)?)),
        Mnemonic::CallOnce => plain(Instruction::CallOnce(register(a)?)),
        Mnemonic::Forget => plain(Instruction::Forget(register(a)?)),
        Mnemonic::DynamicWind => of_three(Instruction::DynamicWind, a, b, c),
        Mnemonic::Return => plain(Instruction::Return),
        Mnemonic::Stop => plain(Instruction::Stop),
    }
}

/// What an instruction line says.
pub fn instruction(text: &[u8]) -> Result<Unresolved, Fault>
    ensures { result ≡ instructions text.now }
{
    let mut words = Words::new(text);
    let known = Mnemonic::from_word(words.next_bytes()).ok_or(Fault::UnknownWord)?;
    if space_count(text) != known.arity() {
        return Err(Fault::BadOperand);
    }
    let a = words.next_bytes();
    let b = words.next_bytes();
    let c = words.next_bytes();
    operated(known, a, b, c)
}
