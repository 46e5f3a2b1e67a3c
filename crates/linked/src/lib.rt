//! Linked frames: a bottom store whose lists share their lower nodes.
//! It rests on `cell`, `store` and `bottom`.
#![tactic(auto)]

mod chain;
pub mod linked;
pub mod node;
mod pool;
