//! A call on a run as a value, so that lists of calls can be handed over and their answers handed back.

use cell::cell::Cell;
use machine::index_refusal::IndexRefusal;
use machine::progress::Progress;
use machine::run_refusal::RunRefusal;
use machine::tally::Tally;

/// A call on a run, with the answer to it once it is carried out.
#[derive(Debug, Drop)]
pub enum Exchange {
    /// Its buffer belongs to it: the lines stand there afterwards.
    Run {
        budget: u32,
        buffer: Vec<u8>,
        answer: Option<Result<Progress, RunRefusal>>,
    },
    Tally {
        answer: Option<Tally>,
    },
    Look {
        index: u32,
        answer: Option<Result<Cell, IndexRefusal>>,
    },
    Force {
        index: u32,
        answer: Option<Result<Cell, IndexRefusal>>,
    },
}
