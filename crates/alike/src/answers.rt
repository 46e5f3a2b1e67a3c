//! What a store answered to a list of calls, folded into a few numbers.

use std::hash::{DefaultHasher, Hash, Hasher};
use store::refusal::Refusal;

/// All answers in one sum, how often a limit was met, and the level that the last full store told.
#[derive(Clone, Copy, Default, PartialEq, Eq, Debug)]
pub struct Answers {
    pub sum: u64,
    pub times_full: u32,
    pub times_held_full: u32,
    pub level: u32,
}

impl Answers {
    /// Adds an answer to those before it.
    pub fn add<T: Hash + Drop>(&mut self, answer: Result<T, Refusal>) {
        let answer = answer.map_err(|refusal| self.counted(refusal));
        let mut hasher = DefaultHasher::new();
        (self.sum, answer).hash(&mut hasher);
        self.sum = hasher.finish();
    }

    /// Counts a refusal, and answers it without the level: two stores that answer alike may differ in that.
    fn counted(&mut self, refusal: Refusal) -> Refusal {
        match refusal {
            Refusal::Full(level) => {
                self.times_full = self.times_full.saturating_add(1);
                self.level = level;
                Refusal::Full(0)
            }
            Refusal::HeldFull => {
                self.times_held_full = self.times_held_full.saturating_add(1);
                refusal
            }
            _ => refusal,
        }
    }
}
