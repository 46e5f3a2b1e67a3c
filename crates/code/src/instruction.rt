//! The instructions.

use crate::global::Global;
use crate::register::Register;
use cell::address::Address;

/// One instruction, with its operands in the order in which a sheet has them.
#[derive(Clone, Copy, Default, PartialEq, Eq, Debug)]
pub enum Instruction {
    /// `set`
    Set(Register, i32),
    /// `proc`
    Proc(Register, Address),
    /// `load`
    Load(Register, Global),
    /// `store`
    Store(Global, Register),
    /// `add`
    Add(Register, Register, Register),
    /// `sub`
    Sub(Register, Register, Register),
    /// `less`
    Less(Register, Register, Register),
    /// `jump`
    Jump(Address),
    /// `zero`
    Zero(Register, Address),
    /// `push`
    Push(Register),
    /// `pop`
    Pop(Register),
    /// `print`
    Print(Register),
    /// `call`
    Call(Register),
    /// `tail`
    Tail(Register),
    /// `cc`
    CallCc(Register),
    /// `cc1`
    CallOnce(Register),
    /// `forget`
    Forget(Register),
    /// `wind`: before, body, after
    DynamicWind(Register, Register, Register),
    /// `ret`
    Return,
    /// `stop`
    #[default]
    Stop,
}
