//! What registers, frames and winds are made of, the same for every store and for the machine, and how frames and winds are written to cells.
//! It rests on nothing but the standard library.
#![tactic(auto)]

pub mod address;
pub mod cell;
pub mod element;
mod filled;
pub mod frame;
pub mod frame_element;
pub mod name;
#[cfg(test)]
mod tests;
pub mod value;
mod value_words;
pub mod wind;
pub mod wind_element;
pub mod wind_number;
