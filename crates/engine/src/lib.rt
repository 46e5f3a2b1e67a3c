//! A machine's state with its frames and winds in two stores, and the acts that change it there. What is said here of each act is
//! said over the parts of an engine as they are (`specs/Parts.antt`): what its stores mean, the rows of its held names, its own words.
//! Which act a step is, another crate says; and that these are the machine's is another crate's theorem.
//! It rests on `cell`, `store`, `held` and `code`, on the definitions of `machine`, and on one of `laws`.
#![tactic(auto)]

pub mod counters;
pub mod engine;
pub mod step;
