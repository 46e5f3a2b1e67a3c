//! Code.
ghost use Rattle.std.specs.Prelude.{◌≡◌, ◌<◌, ◌≤◌, true, [], length, IfSome};
ghost use Rattle.std.specs.List.{slice_get};
ghost use Rattle.code.specs.Fits.{fits, all_fit as each_fit};
ghost use Rattle.code.specs.Listing.{accepted};

use crate::fits::all_fit;
use crate::instruction::Instruction;
use arrayvec::ArrayVec;
use cell::address::Address;
use std::marker::Model;

/// How many instructions a code may have.
pub const CAPACITY: usize = 256;

/// At most 256 instructions, each of which fits: its registers and globals are there, and its addresses are at most
/// the code's length. Contracts see the list of them, the first at address 0.
#[derive(Debug, Drop)]
pub struct Code {
    instructions: ArrayVec<Instruction, CAPACITY>,
}

impl Model for Code {
    ghost use Rattle.std.specs.Prelude.{◌≡◌, true, List, length};
    ghost use Rattle.code.specs.declared.instruction.Instruction.{Instruction};
    ghost use Rattle.code.specs.Fits.{all_fit as each_fit};

    ghost Value = { List Instruction };

    ghost view = { λ c. c.instructions.items };

    ghost invariant = { λ c. each_fit (length c.instructions.items) c.instructions.items ≡ true };
}

impl Code {
    /// Code of no instruction.
    pub fn empty() -> Self
        ensures { result ≡ [] }
    {
        Code {
            instructions: ArrayVec::new(),
        }
    }

    /// The code of these instructions, if they are not too many and each fits.
    pub fn new(instructions: &[Instruction]) -> Option<Self>
        ensures { result ≡ accepted instructions.now }
    {
        // A list that is refused is not copied first, and one that fits is moved once.
        if instructions.len() > CAPACITY || !all_fit(instructions) {
            return None;
        }
        let instructions = ArrayVec::try_from(instructions).ok()?;
        Some(Code { instructions })
    }

    /// How many instructions there are.
    pub fn len(&self) -> usize
        ensures value { result ≡ length self.now }
        ensures within { result ≤ CAPACITY }
        ensures fit { each_fit (length self.now) self.now ≡ true }
    {
        self.instructions.len()
    }

    /// The instruction at an address, if there is one.
    pub fn fetch(&self, at: Address) -> Option<Instruction>
        ensures value { result ≡ slice_get self.now at.0 }
        ensures within { IfSome result (λ _. at.0 < CAPACITY) }
        ensures fit { IfSome result (λ i. fits (length self.now) i ≡ true) }
    {
        self.instructions.get(at.0 as usize).copied()
    }
}
