//! Lines of print, written into a buffer whole or not at all.
//! It rests on `machine`, for the definition of a printed line, and on `arrayvec` and `itoa` of the kit.
#![tactic(auto)]

mod line_guard;
pub mod print;
#[cfg(test)]
mod tests;
