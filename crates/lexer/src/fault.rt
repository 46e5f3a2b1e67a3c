//! What can be wrong with one line.

/// Why a line is refused.
#[derive(Clone, Copy, Debug, PartialEq, Eq)]
pub enum Fault {
    /// A byte that is neither a space nor a visible character of ASCII.
    BadByte,
    /// The line begins with no word that there is.
    UnknownWord,
    /// Too few or too many operands, or one that has not the form that is asked for.
    BadOperand,
    /// A number of more than ten digits, or one that is no signed word.
    NumberOutOfRange,
    /// A label that is malformed, defined already, or one too many.
    BadLabel,
    /// One instruction too many.
    TooManyInstructions,
}
