//! The program: it reads a rule sheet from standard input, runs it on two kinds of stores, and prints what both runs came to.
//! It rests on `sheet` and `run`, where everything that matters is, on the stores, and on `anyhow` for its errors.
#![tactic(auto)]

ghost use Rattle.std.specs.Prelude.{◌≡◌, take, OnOk, IfOk, IfSome};
ghost use Rattle.std.specs.Io.KnownBytes.{Appends};
ghost use Rattle.hathrelig.specs.Output.{runs_text, output};

use crate::both::run_both;
use crate::report::print_run;
use code::code::Code;
use sheet::reader::{MOST_BYTES, read};
use std::alloc::Global;
use std::io;
use std::io::{BufWriter, Read, Write};

mod both;
mod calls;
mod report;
mod stores;

/// How much of the input is read: a byte more than a sheet may have, so that one too long is seen.
const MOST_INPUT: u64 = MOST_BYTES as u64 + 1;

/// Runs a code, and prints both runs.
fn print_both<W: Write>(out: &mut W, code: &Code, alloc: Global) -> io::Result<()>
    ensures { OnOk result (Appends (W.contents out.old) (W.contents out.new) (runs_text code.now)) }
{
    let both = run_both(code, alloc)?;
    print_run(out, "linked", &both.linked)?;
    print_run(out, "copied", &both.copied)
}

/// Prints what a sheet comes to.
fn print_outcome<W: Write>(out: &mut W, sheet: &[u8], alloc: Global) -> io::Result<()>
    ensures { OnOk result (Appends (W.contents out.old) (W.contents out.new) (output sheet.now)) }
{
    let mut code = Code::empty();
    let answer = read(&mut code, sheet);
    let Ok(()) = answer else {
        let refusal = answer.unwrap_err();
        return writeln!(out, "{refusal}");
    };
    print_both(out, &code, alloc)
}

/// Reads as much of a sheet as tells whether it is too long.
fn read_sheet<R: Read + Drop>(input: R, alloc: Global) -> io::Result<Vec<u8>>
    ensures { IfOk result (λ sheet. IfSome (R.remaining input) (λ all. sheet.items ≡ take 16385 all)) }
{
    let mut sheet = Vec::new(alloc);
    input.take(MOST_INPUT).read_to_end(&mut sheet)?;
    Ok(sheet)
}

/// Reads a sheet, and prints what it comes to.
fn answer_input<W: Write, R: Read + Drop>(out: &mut W, input: R, alloc: Global) -> io::Result<()>
    ensures { OnOk result (IfSome (R.remaining input) (λ all. Appends (W.contents out.old) (W.contents out.new) (output all))) }
{
    let sheet = read_sheet(input, alloc)?;
    print_outcome(out, &sheet, alloc)
}

/// Runs the program on standard input and output.
fn main(rt: HostRuntime) -> anyhow::Result<()> {
    let mut out = BufWriter::new(rt.alloc(), rt.stdout())?;
    answer_input(&mut out, rt.stdin(), rt.alloc())?;
    out.flush()?;
    Ok(())
}
