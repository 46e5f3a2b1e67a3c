//! Steps of an engine: which act of `engine` the next step is, and steps in a row with their lines. What is said here of each is
//! said over the parts of an engine, in the order of the code. That these are the machine's steps is another crate's theorem.
//! It rests on `engine`, `printer`, `held` and `code`, and on the definitions of `machine`.
#![tactic(auto)]

pub mod advancing;
mod arithmetic;
mod calling;
mod checks;
mod executing;
mod needs;
mod returning;
mod stepping;
pub mod stopped;
mod throwing;
pub mod turn;
