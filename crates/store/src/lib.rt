//! What a store means, the interface that every store keeps, and lists of elements over any store. Stores know nothing of the machine.
//! It rests on `cell`.
#![tactic(auto)]

pub mod lent;
pub mod refusal;
pub mod refused;
pub mod store;
pub mod typed;
