//! Reading a whole sheet.
ghost use Rattle.std.specs.Prelude.{◌≡◌, ◌≤◌, length};
ghost use Rattle.sheet.specs.Assembly.{empty};
ghost use Rattle.sheet.specs.Reading.{assembled, reading};
ghost use Rattle.lexer.specs.Checks.{or_unchanged};
ghost use Rattle.lexer.specs.Split.{lines};

use crate::assembly::Assembly;
use crate::refusal::SheetRefusal;
use crate::resolve::resolve_all;
use code::code::Code;
use lexer::lines::Lines;

/// How many bytes a sheet may have.
pub const MOST_BYTES: usize = 16384;

/// All lines of a sheet that is not too long.
fn assemble(sheet: &[u8]) -> Result<Assembly, SheetRefusal>
    requires { length sheet.now ≤ 16384 }
    ensures { result ≡ assembled empty 1 (lines sheet.now) }
{
    let mut assembly = Assembly::new();
    for (number, line) in (1..).zip(Lines::new(sheet)) {
        assembly
            .take_line(number, line)
            .map_err(|fault| SheetRefusal::at_line(fault, number))?;
    }
    Ok(assembly)
}

fn code(sheet: &[u8]) -> Result<Code, SheetRefusal>
    ensures { result ≡ reading sheet.now }
{
    if sheet.len() > MOST_BYTES {
        return Err(SheetRefusal::TooLong);
    }
    let list = resolve_all(&assemble(sheet)?)?;
    if list.is_empty() {
        return Err(SheetRefusal::NoInstruction);
    }
    // What was read fits, and is not too long.
    Ok(Code::new(&list).unwrap())
}

/// Reads a sheet into a code table, which a refused sheet leaves as it was.
pub fn read(table: &mut Code, sheet: &[u8]) -> Result<(), SheetRefusal>
    ensures { (result, table.new) ≡ or_unchanged table.old (reading sheet.now) }
{
    *table = code(sheet)?;
    Ok(())
}
