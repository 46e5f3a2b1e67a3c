//! Why a sheet is refused, and where.
ghost use Rattle.std.specs.Prelude.{◌≡◌};

use lexer::fault::Fault;
use std::error::Error;
use std::fmt;

/// A refused sheet, with the line where that was met; the first line is 1. `number` has the number of each.
#[derive(Clone, Copy, Debug, PartialEq, Eq)]
pub enum SheetRefusal {
    /// More bytes than a sheet may have.
    TooLong,
    /// A fault in a line.
    AtLine(Fault, u32),
    /// A label that no line defines, at the first line that names one.
    MissingLabel(u32),
    NoInstruction,
}

impl SheetRefusal {
    ghost use Rattle.sheet.specs.Reading.{at_line, refusal_number, refusal_line};

    /// A fault that was met in a line.
    pub fn at_line(fault: Fault, line: u32) -> Self
        ensures { result ≡ at_line fault line }
    {
        SheetRefusal::AtLine(fault, line)
    }

    /// The number by which users know the refusal, 1 to 8.
    pub fn number(self) -> u32
        ensures { result ≡ refusal_number self }
    {
        match self {
            SheetRefusal::TooLong => 1,
            SheetRefusal::AtLine(Fault::BadByte, _) => 2,
            SheetRefusal::AtLine(Fault::UnknownWord, _) => 3,
            SheetRefusal::AtLine(Fault::BadOperand, _) => 4,
            SheetRefusal::AtLine(Fault::NumberOutOfRange, _) => 5,
            SheetRefusal::AtLine(Fault::BadLabel, _) => 6,
            SheetRefusal::MissingLabel(_) => 7,
            SheetRefusal::AtLine(Fault::TooManyInstructions, _) | SheetRefusal::NoInstruction => 8,
        }
    }

    /// The line, or 0 where the refusal is about the whole sheet: the text of every refusal has a line, so no `Option`.
    pub fn line(self) -> u32
        ensures { result ≡ refusal_line self }
    {
        match self {
            SheetRefusal::TooLong | SheetRefusal::NoInstruction => 0,
            SheetRefusal::AtLine(_, line) | SheetRefusal::MissingLabel(line) => line,
        }
    }
}

impl fmt::Display for SheetRefusal {
    ghost use Rattle.std.specs.Prelude.{Some};
    ghost use Rattle.sheet.specs.Reading.{refusal_text};

    ghost output = { λ r. Some (refusal_text r) };

    fn fmt<W: fmt::Write>(&self, f: &mut fmt::Formatter<W>) -> fmt::Result {
        let number = self.number();
        let line = self.line();
        write!(f, "sheet {number} line {line}")
    }
}

impl Error for SheetRefusal {}
