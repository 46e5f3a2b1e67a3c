//! The laws of calls on runs, one function for each.

ghost use Rattle.laws.specs.Calls.{BuffersKept, LinesFit, OpeningDecides, EndedStays, InOrder, CallsJoin, TwoRunsAgree};
ghost use Rattle.laws.specs.TwoRuns.{TwoRunsAgreeThroughout};

/// A run call makes no more steps than its budget, and changes no byte of its buffer but those that it tells.
pub fn buffers_kept()
    ensures { BuffersKept }
{}

/// The line of every number that a register can hold fits in the least buffer.
pub fn lines_fit()
    ensures { LinesFit }
{}

/// A run opened on fit stores is at its start, and any other has ended with 43.
pub fn opening_decides()
    ensures { OpeningDecides }
{}

/// A run that has ended makes no step, writes nothing and stays as it is.
pub fn ended_stays()
    ensures { EndedStays }
{}

/// The answers to the beginning of a list of calls are the beginning of the answers to all.
pub fn answers_in_order()
    ensures { InOrder }
{}

/// Whatever the budgets and buffers, a list of calls comes to one course of as many steps as its step count.
pub fn calls_join()
    ensures { CallsJoin }
{}

/// Two runs of one code from equal numbers agree, whatever was asked of each and whatever their limits.
pub fn two_runs_agree()
    ensures { TwoRunsAgree }
{}

/// The same on any four stores, at every two moments, over the answers that were given.
pub fn two_runs_agree_throughout()
    ensures { TwoRunsAgreeThroughout }
{}
