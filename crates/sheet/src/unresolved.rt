//! An instruction before the labels are known.

use code::instruction::Instruction;
use lexer::label_name::LabelName;

/// An instruction, and the label whose address it waits for, if it names one.
#[derive(Clone, Copy, Debug, Default, PartialEq, Eq)]
pub struct Unresolved {
    pub instruction: Instruction,
    pub label: Option<LabelName>,
}
