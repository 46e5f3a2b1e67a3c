//! Operands, each by its form.
ghost use Rattle.std.specs.Prelude.{◌≡◌, ◌<◌};
ghost use Rattle.sheet.specs.Operands.{lettered as letters_read, register as registers_read, global as globals_read, label as labels_read, registers as three_read};

use code::global::{GLOBALS, Global};
use code::register::{REGISTERS, Register};
use lexer::fault::Fault;
use lexer::label_name::LabelName;
use lexer::names::name;
use lexer::number::magnitude;

/// A letter, and then a number below a limit.
fn lettered(letter: u8, limit: u8, word: &[u8]) -> Result<u8, Fault>
    ensures { result ≡ letters_read letter limit word.now }
{
    match word {
        [first, digits @ ..] if *first == letter => {
            let n = magnitude(digits).map_err(|_| Fault::BadOperand)?;
            u8::try_from(n)
                .ok()
                .filter(|index| *index < limit)
                .ok_or(Fault::BadOperand)
        }
        _ => Err(Fault::BadOperand),
    }
}

/// A register: `r` and its number.
pub fn register(word: &[u8]) -> Result<Register, Fault>
    ensures { result ≡ registers_read word.now }
{
    lettered(b'r', REGISTERS, word).map(Register)
}

/// A global: `g` and its number.
pub fn global(word: &[u8]) -> Result<Global, Fault>
    ensures { result ≡ globals_read word.now }
{
    lettered(b'g', GLOBALS, word).map(Global)
}

/// The name of a label.
pub fn label(word: &[u8]) -> Result<LabelName, Fault>
    ensures { result ≡ labels_read word.now }
{
    name(word).ok_or(Fault::BadOperand)
}

/// Three words, one by one, since a line has at most three operands and they come so.
pub fn registers(a: &[u8], b: &[u8], c: &[u8]) -> Result<(Register, Register, Register), Fault>
    ensures { result ≡ three_read a.now b.now c.now }
{
    Ok((register(a)?, register(b)?, register(c)?))
}
