//! What a run keeps of its held continuations, the questions about its two stores that a throw asks, and a save in both.
//! It rests on `cell` and `store`, on the definitions of `machine`, and on `arrayvec` of the kit.
#![tactic(auto)]

pub mod common;
pub mod full;
pub mod half_save;
pub mod held_row;
pub mod held_table;
pub mod marks;
pub mod save_both;
pub mod save_ends;
pub mod save_refusal;
pub mod wind_save_refused;
