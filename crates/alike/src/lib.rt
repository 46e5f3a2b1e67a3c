//! The same calls on different stores, to see in a run that they answer alike. What a store answers is proved in its
//! own crate; this is a second look, from outside.
//! It rests on all stores.
#![tactic(auto)]

pub mod answers;
pub mod caller;
#[cfg(test)]
mod tests;
