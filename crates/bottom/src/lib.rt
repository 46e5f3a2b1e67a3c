//! What the bottom stores share: the limits that they may be given, the table of held names, the places of saved lists, and the meaning of a
//! store whose saved lists are read from the rows of that table.
//! It rests on `cell` and `store`, and on `arrayvec` of the kit.
#![tactic(auto)]

pub mod limits;
pub mod places;
pub mod row;
pub mod table;
