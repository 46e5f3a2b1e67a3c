//! Runs each sheet of a folder on five makes of stores, asked the lists of calls that stand in the sheet's own comments, and prints
//! what each run answers, as an independent evaluator does. What a run answers is proved in its own crate; this is a second look, from outside.
//! It rests on `run` and `sheet`, on all stores, and on `anyhow` for its errors.
#![tactic(auto)]

use crate::trial::print_sheet;
use anyhow::Context;
use std::fs::Files;
use std::io::{BufWriter, Write};
use std::{fs, io};

mod answers;
mod asked;
mod directives;
mod filled;
mod numbers;
mod stores;
mod told;
mod trial;

/// The names of the sheets, a line for each.
const NAMES: &str = "sheets.txt";

fn print_all<W: Write>(rt: &(impl Files + AllocGlobal), out: &mut W) -> anyhow::Result<()> {
    let names = fs::read_to_string(rt, NAMES).context(NAMES)?;
    for name in names.lines() {
        let sheet = fs::read(rt, name).context(name)?;
        writeln!(out, "{name}")?;
        print_sheet(out, rt.alloc(), &sheet).context(name)?;
    }
    Ok(())
}

fn main(rt: HostRuntime) -> anyhow::Result<()> {
    let mut out = BufWriter::new(rt.alloc(), rt.stdout())?;
    print_all(&rt, &mut out)?;
    out.flush()?;
    Ok(())
}
