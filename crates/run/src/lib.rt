//! A run of the machine on two stores, and the calls on it: what each answers and leaves is what the machine's definition says.
//! It rests on `engine` and `steps`, which make its steps, on `faithful`, that those are the machine's, and on `laws`, for what two runs
//! have in common.
#![tactic(auto)]

pub mod admission;
pub mod exchange;
pub mod run;
pub mod serve;
pub mod two_runs;
