//! The laws of the machine, each proved of its definition and stated by the contract of a small function that is named by
//! what the law promises. The statements are in `specs/`, in the machine's own words.
//! It rests on `machine`, for the definition, and on `cell` and `code`, for what the machine is about.
#![tactic(auto)]

pub mod calls;
pub mod examples;
pub mod laws;
