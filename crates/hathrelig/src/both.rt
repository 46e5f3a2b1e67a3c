//! The two runs of a code.
ghost use Rattle.std.specs.Prelude.{◌≡◌, IfOk};
ghost use Rattle.run.specs.Serving.{answers_in};
ghost use Rattle.hathrelig.specs.Output.{empty_store, answers_of};

use crate::calls::calls;
use crate::stores::{layered_stores, linked_stores};
use code::code::Code;
use code::global::GLOBALS;
use run::exchange::Exchange;
use run::two_runs::two_runs;
use std::alloc::{AllocError, Global};

/// What the globals of a run begin with.
const ZEROS: [i32; GLOBALS as usize] = [0; GLOBALS as usize];

/// What two runs were asked, with their answers.
#[derive(Drop)]
pub struct Both {
    pub linked: Vec<Exchange>,
    pub copied: Vec<Exchange>,
}

/// Runs a code from zeros, on linked stores and on copied ones with their layers.
pub fn run_both(code: &Code, alloc: Global) -> Result<Both, AllocError>
    ensures linked { IfOk result (λ both. answers_in both.linked.items ≡ answers_of code.now (empty_store 48 0) (empty_store 16 0)) }
    ensures copied { IfOk result (λ both. answers_in both.copied.items ≡ answers_of code.now (empty_store 32 2) (empty_store 16 0)) }
{
    let mut linked = calls(alloc)?;
    let mut copied = calls(alloc)?;
    two_runs(
        code,
        ZEROS,
        linked_stores(alloc)?,
        layered_stores(alloc)?,
        &mut linked,
        &mut copied,
    );
    Ok(Both { linked, copied })
}
