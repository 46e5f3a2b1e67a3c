//! Tallies.

use crate::end::End;
use cell::address::Address;

/// The names of a run.
#[derive(Clone, Copy, PartialEq, Eq, Debug)]
pub struct NameTally {
    pub made: u32,
    /// Released by a Mark or by a throw.
    pub used: u32,
    /// Released by `forget`.
    pub forgotten: u32,
    pub held: u32,
}

/// The winds of a run.
#[derive(Clone, Copy, PartialEq, Eq, Debug)]
pub struct WindTally {
    pub entered: u32,
    pub left: u32,
    /// In force.
    pub current: u32,
}

/// How a run ended, and the last address that it was Going at: callers are told an address in every case, 0 where there was none.
#[derive(Clone, Copy, PartialEq, Eq, Debug)]
pub struct Ending {
    pub end: End,
    pub address: Address,
}

/// What a run tells of itself.
#[derive(Clone, Copy, PartialEq, Eq, Debug)]
pub struct Tally {
    pub steps: u32,
    pub names: NameTally,
    pub winds: WindTally,
    /// Only of a run that has ended.
    pub ending: Option<Ending>,
}
