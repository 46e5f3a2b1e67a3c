//! The register machine as a definition: what its state is, what each step does, how a run ends, and what each call on a
//! run answers (`specs/`); here are the types that the definition is written with, which its callers see in part, and the
//! numbers of ends, reasons and refusals.
//! It rests on `cell`, for values, frames and winds, on `code`, for instructions, and on `store` only for how
//! a store refuses; and on `thiserror` of the kit.
#![tactic(auto)]

pub mod act;
pub mod end;
pub mod frame_move;
pub mod index_refusal;
pub mod mode;
pub mod name_move;
pub mod progress;
pub mod reason;
pub mod run_refusal;
pub mod store_ends;
pub mod tally;
pub mod wind_move;
pub mod write;
