//! The code that a rule sheet is read into: instructions with typed operands, and the list of them.
//! It rests on `cell`, for addresses, and on `arrayvec`.
#![tactic(auto)]

pub mod code;
pub mod fits;
pub mod global;
pub mod instruction;
pub mod register;
