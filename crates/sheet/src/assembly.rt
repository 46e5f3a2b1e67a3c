//! The tables that a sheet is read into, line by line.
ghost use Rattle.std.specs.Prelude.{◌≡◌, ◌≤◌, length};
ghost use Rattle.lexer.specs.Checks.{or_unchanged};
ghost use Rattle.lexer.specs.Names.{label_name};
ghost use Rattle.sheet.specs.Assembly.{empty, defined, added, line_taken};

use crate::draft::Draft;
use crate::instruction_line::instruction;
use crate::label::Label;
use crate::labels::target;
use crate::unresolved::Unresolved;
use arrayvec::ArrayVec;
use cell::address::Address;
use code::code::CAPACITY;
use lexer::fault::Fault;
use lexer::kinds::{kind, printable};
use lexer::line::Line;
use lexer::names::name;
use std::marker::Model;

/// How many labels a sheet may have.
pub const MOST_LABELS: usize = 64;

/// The labels and the instructions of the lines so far.
#[derive(Debug, Drop)]
pub struct Assembly {
    labels: ArrayVec<Label, MOST_LABELS>,
    drafts: ArrayVec<Draft, CAPACITY>,
}

impl Model for Assembly {
    ghost use Rattle.sheet.specs.Assembly.{Assembly as Tables};

    ghost Value = { Tables };

    ghost view = { λ a. record { labels = a.labels.items; drafts = a.drafts.items } };
}

impl Assembly {
    /// Tables with nothing in them.
    pub fn new() -> Self
        ensures { result ≡ empty }
    {
        Assembly {
            labels: ArrayVec::new(),
            drafts: ArrayVec::new(),
        }
    }

    /// The labels so far.
    pub fn labels(&self) -> &[Label]
        ensures value { result.now ≡ self.now.labels }
        ensures within { length result.now ≤ MOST_LABELS }
    {
        self.labels.as_slice()
    }

    /// The instructions so far.
    pub fn drafts(&self) -> &[Draft]
        ensures value { result.now ≡ self.now.drafts }
        ensures within { length result.now ≤ CAPACITY }
    {
        self.drafts.as_slice()
    }

    /// Defines a label at the place of the next instruction.
    fn define(&mut self, bytes: &[u8]) -> Result<(), Fault>
        ensures { (result, self.new) ≡ or_unchanged self.old (defined self.old (label_name bytes.now)) }
    {
        let name = name(bytes).ok_or(Fault::BadLabel)?;
        if target(&self.labels, name).is_some() {
            return Err(Fault::BadLabel);
        }
        let address = Address(self.drafts.len() as u32);
        self.labels
            .try_push(Label { name, address })
            .map_err(|_| Fault::BadLabel)
    }

    fn add(&mut self, line: u32, unresolved: Unresolved) -> Result<(), Fault>
        ensures { (result, self.new) ≡ or_unchanged self.old (added self.old line unresolved) }
    {
        self.drafts
            .try_push(Draft { unresolved, line })
            .map_err(|_| Fault::TooManyInstructions)
    }

    /// Takes in one more line, of this number; a refused line leaves the tables as they were.
    pub fn take_line(&mut self, number: u32, line: &[u8]) -> Result<(), Fault>
        ensures { (result, self.new) ≡ or_unchanged self.old (line_taken self.old number line.now) }
    {
        if !printable(line) {
            return Err(Fault::BadByte);
        }
        match kind(line) {
            Line::Blank | Line::Comment => Ok(()),
            Line::Label(bytes) => self.define(bytes),
            Line::Code(text) => self.add(number, instruction(text)?),
        }
    }
}
