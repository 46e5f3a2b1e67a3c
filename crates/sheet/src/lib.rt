//! Reading a rule sheet: from its bytes to code, or to the first refusal with its line.
//! It rests on `lexer` for lines and words, on `code`, on `cell` for addresses, and on `arrayvec` for its tables.
#![tactic(auto)]

pub mod assembly;
pub mod draft;
pub mod instruction_line;
pub mod label;
pub mod labels;
pub mod mnemonic;
pub mod operands;
pub mod reader;
pub mod refusal;
pub mod resolve;
pub mod unresolved;
