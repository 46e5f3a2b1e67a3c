//! Writes.

use cell::value::Value;
use code::global::Global;
use code::register::Register;

/// What a step writes to a register or a global.
#[derive(Clone, Copy, PartialEq, Eq, Debug)]
pub enum Write {
    Nothing,
    Register(Register, Value),
    Global(Global, Value),
}
