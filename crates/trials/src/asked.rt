//! Lists of calls, as directives write them and as a run is asked them.

use crate::numbers::word;
use crate::told::OLD;
use anyhow::{Context, Result, bail};
use run::exchange::Exchange;
use std::alloc::{AllocError, Global};
use std::ops::RangeInclusive;

/// A call on a run; `run` has a budget and the size of its buffer.
#[derive(Clone, Copy)]
pub enum Call {
    Run(u32, usize),
    Tally,
    Look(u32),
    Force(u32),
}

fn run_call(given: &str) -> Result<Call> {
    let (budget, size) = given
        .split_once(' ')
        .context("run wants a budget and the size of a buffer")?;
    Ok(Call::Run(word(budget)?, word(size)? as usize))
}

/// One index, or all from one to another.
fn indices(given: &str) -> Result<RangeInclusive<u32>> {
    let (first, last) = given.split_once('-').unwrap_or((given, given));
    Ok(word(first)?..=word(last)?)
}

fn add_call(calls: &mut Vec<Call>, call: &str) -> Result<()> {
    let (name, given) = call.split_once(' ').unwrap_or((call, ""));
    match name {
        "run" => calls.push(run_call(given)?)?,
        "tally" => calls.push(Call::Tally)?,
        "look" => calls.extend(indices(given)?.map(Call::Look))?,
        "force" => calls.extend(indices(given)?.map(Call::Force))?,
        _ => bail!("{call:?} is no call"),
    }
    Ok(())
}

/// Calls joined by `+`, with a count and `*` before them if they are made several times.
fn add_group(calls: &mut Vec<Call>, group: &str) -> Result<()> {
    let (count, body) = group.split_once('*').unwrap_or(("1", group));
    for _ in 0..word(count)? {
        for call in body.split('+') {
            add_call(calls, call)?;
        }
    }
    Ok(())
}

/// The calls of a list.
pub fn calls_of(heap: Global, list: &str) -> Result<Vec<Call>> {
    let mut calls = Vec::new(heap);
    for group in list.split(", ") {
        add_group(&mut calls, group)?;
    }
    Ok(calls)
}

fn exchange(heap: Global, call: Call) -> Result<Exchange, AllocError> {
    Ok(match call {
        Call::Run(budget, size) => Exchange::Run {
            budget,
            buffer: vec![in heap; OLD; size]?,
            answer: None,
        },
        Call::Tally => Exchange::Tally { answer: None },
        Call::Look(index) => Exchange::Look {
            index,
            answer: None,
        },
        Call::Force(index) => Exchange::Force {
            index,
            answer: None,
        },
    })
}

/// Calls that have no answer yet.
pub fn exchanges(heap: Global, calls: &[Call]) -> Result<Vec<Exchange>, AllocError> {
    let mut list = Vec::new(heap);
    for &call in calls {
        list.push(exchange(heap, call)?)?;
    }
    Ok(list)
}
