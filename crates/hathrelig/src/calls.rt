//! What is asked of a run.
ghost use Rattle.std.specs.Prelude.{◌≡◌, map, IfOk};
ghost use Rattle.run.specs.Serving.{asked};
ghost use Rattle.hathrelig.specs.Output.{run_call_asked, calls_asked};

use run::admission::LEAST_BUFFER;
use run::exchange::Exchange;
use std::alloc::{AllocError, Global};

/// How many run calls are made: a run that is still going then is given up.
const CALLS: usize = 100;

/// How many steps each may make.
const BUDGET: u32 = 1000;

/// How many bytes each may print: a step prints a line at most, so no call stops for its buffer.
const BUFFER: usize = LEAST_BUFFER * BUDGET as usize;

/// A run call with these limits.
fn run_call(alloc: Global) -> Result<Exchange, AllocError>
    ensures { IfOk result (λ exchange. asked exchange ≡ run_call_asked) }
{
    Ok(Exchange::Run {
        budget: BUDGET,
        buffer: vec![in alloc; 0u8; BUFFER]?,
        answer: None,
    })
}

/// The calls that make steps, and then a tally.
pub fn calls(alloc: Global) -> Result<Vec<Exchange>, AllocError>
    ensures { IfOk result (λ exchanges. map asked exchanges.items ≡ calls_asked) }
{
    let mut calls = Vec::with_capacity(alloc, CALLS + 1)?;
    for _ in 0..CALLS {
        calls.push(run_call(alloc)?)?;
    }
    calls.push(Exchange::Tally { answer: None })?;
    Ok(calls)
}
