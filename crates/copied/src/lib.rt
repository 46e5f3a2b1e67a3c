//! The copied stack: a bottom store whose saved lists are whole copies, in a memory of words.
//! It rests on `cell`, `store` and `bottom`, and on `arrayvec` of the kit.
#![tactic(auto)]

pub mod copied;
mod words;
