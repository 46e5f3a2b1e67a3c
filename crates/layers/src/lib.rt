//! Layers: stores that are put over any other store, a depth quota and an underflow cache.
//! It rests on `cell` and `store`, and on `arrayvec` of the kit.
#![tactic(auto)]

pub mod cache;
pub mod quota;
