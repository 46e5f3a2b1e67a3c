//! A long list of calls, made by arithmetic from a number, on any store.

ghost use Rattle.std.specs.Prelude.{◌<◌};

use crate::answers::Answers;
use cell::cell::{Cell, WIDTH};
use cell::name::Name;
use store::store::Store;

/// The numbers of a linear congruential generator.
const STEP: u64 = 6364136223846793005;

const SHIFT: u64 = 1442695040888963407;

/// Calls are chosen among so many, pushes most often.
const CHOICES: u32 = 32;

/// Names and indices that are asked for, some of them never there.
const NAMES: u32 = 8;

const INDICES: u32 = 24;

/// Where the generator is.
#[derive(Clone, Copy)]
pub struct Caller {
    state: u64,
}

impl Caller {
    /// A caller whose calls follow from a number.
    pub fn new(start: u64) -> Self {
        Caller { state: start }
    }

    /// The next number below a limit.
    fn below(&mut self, limit: u32) -> u32
        requires { 0 < limit }
        ensures { result < limit }
    {
        self.state = self.state.wrapping_mul(STEP).wrapping_add(SHIFT);
        (self.state >> 33) as u32 % limit
    }

    fn name(&mut self) -> Name {
        Name(self.below(NAMES))
    }

    fn cell(&mut self) -> Cell {
        let word = self.below(u32::MAX);
        Cell {
            words: [word; WIDTH],
        }
    }

    /// Makes one call, and adds what the store answered.
    fn one<S: Store>(&mut self, store: &mut S, answers: &mut Answers) {
        match self.below(CHOICES) {
            0..=11 => answers.add(store.push(self.cell())),
            12..=17 => answers.add(store.pop()),
            18..=20 => answers.add(store.save(self.name())),
            21..=22 => answers.add(store.restore(self.name())),
            23 => answers.add(store.take(self.name())),
            24 => answers.add(store.release(self.name())),
            25..=26 => answers.add(store.cell_at(self.below(INDICES))),
            27 => answers.add(store.saved_len(self.name())),
            28..=29 => answers.add(store.saved_cell(self.name(), self.below(INDICES))),
            30 => answers.add(Ok(store.held())),
            _ => answers.add(Ok((store.len(), store.depth_limit(), store.held_limit()))),
        }
    }

    /// Makes so many calls, and tells what the store answered.
    pub fn call<S: Store>(&mut self, store: &mut S, times: u32) -> Answers {
        let mut answers = Answers::default();
        for _ in 0..times {
            self.one(store, &mut answers);
        }
        answers
    }
}
