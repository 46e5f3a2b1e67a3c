//! Labels put in for their names.
ghost use Rattle.std.specs.Prelude.{◌≡◌, []};
ghost use Rattle.lexer.specs.Checks.{ok_mapped};
ghost use Rattle.sheet.specs.Reading.{aimed as aims, resolved, resolved_onto};

use crate::assembly::Assembly;
use crate::draft::Draft;
use crate::label::Label;
use crate::labels::target;
use crate::refusal::SheetRefusal;
use arrayvec::ArrayVec;
use cell::address::Address;
use code::code::CAPACITY;
use code::instruction::Instruction;

/// The instruction with the address that it waited for.
fn aimed(instruction: Instruction, address: Address) -> Instruction
    ensures { result ≡ aims instruction address }
{
    match instruction {
        Instruction::Proc(r, _) => Instruction::Proc(r, address),
        Instruction::Jump(_) => Instruction::Jump(address),
        Instruction::Zero(r, _) => Instruction::Zero(r, address),
        other => other,
    }
}

fn resolve(labels: &[Label], draft: Draft) -> Result<Instruction, SheetRefusal>
    ensures { result ≡ resolved labels.now draft }
{
    let instruction = draft.unresolved.instruction;
    let Some(name) = draft.unresolved.label else {
        return Ok(instruction);
    };
    let address = target(labels, name).ok_or(SheetRefusal::MissingLabel(draft.line))?;
    Ok(aimed(instruction, address))
}

/// All instructions with their addresses, or the first label that is missing.
pub(crate) fn resolve_all(
    assembly: &Assembly,
) -> Result<ArrayVec<Instruction, CAPACITY>, SheetRefusal>
    ensures { ok_mapped (λ v. v.items) result ≡ resolved_onto [] assembly.now.labels assembly.now.drafts }
{
    let mut list = ArrayVec::new();
    for draft in assembly.drafts() {
        list.push(resolve(assembly.labels(), *draft)?);
    }
    Ok(list)
}
