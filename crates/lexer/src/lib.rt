//! The text of a rule sheet in small: its lines, the words of a line, and numbers and names.
//! It rests on nothing but the standard library.
#![tactic(auto)]

pub mod bytes;
pub mod fault;
pub mod kinds;
pub mod label_name;
pub mod line;
pub mod lines;
pub mod names;
pub mod number;
pub mod split;
pub mod words;
