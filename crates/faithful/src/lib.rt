//! Steps carried out on two stores are the machine's steps: what `engine` and `steps` say of an engine's parts, and what `machine`
//! defines, are one thing, as long as the two stores and the rows of held names fit together and the run came there from its start.
//! It rests on `engine`, on `steps` and on the laws of the machine.
#![tactic(auto)]

pub mod faithful;
