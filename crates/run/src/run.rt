//! A run of a code on two stores, and the calls on it, each of which answers as the machine's definition says.
ghost use Rattle.std.specs.Prelude.{◌≡◌, [], Some};
ghost use Rattle.machine.specs.Opening.{opened, offer_of};
ghost use Rattle.machine.specs.declared.end.End.TheVariants.{UnfitStores};
ghost use Rattle.machine.specs.State.{start};
ghost use Rattle.machine.specs.Calls.{ran, tallied, looked, forced};

use crate::admission::admit;
use cell::address::Address;
use cell::cell::Cell;
use code::code::Code;
use engine::engine::cells::cell_at;
use engine::engine::{Engine, GLOBALS};
use machine::end::End;
use machine::index_refusal::IndexRefusal;
use machine::progress::Progress;
use machine::run_refusal::RunRefusal;
use machine::tally::{Ending, NameTally, Tally, WindTally};
use std::marker::Model;
use steps::advancing::advance;
use store::store::Store;

/// What a run has come to.
#[derive(Drop)]
enum Stage<F: Store, W: Store> {
    /// The two stores were not fit: the run ended as it was opened, and they are as they were.
    Unfit(F, W),
    /// An engine on two fit stores, and the run's end once it has ended.
    Open(Engine<F, W>, Option<End>),
}

/// A run of a code on two stores. Contracts see the machine's run that it is, whatever the stores are.
#[derive(Drop)]
pub struct Run<'a, F: Store, W: Store> {
    code: &'a Code,
    stage: Stage<F, W>,
}

impl<'a, F: Store, W: Store> Model for Run<'a, F, W> {
    ghost use Rattle.machine.specs.Opening.{Run as MachineRun};

    ghost Value = { MachineRun };

    ghost use Rattle.run.specs.Stages.{run_at, Stands};

    ghost view = { λ r. run_at F.meaning W.meaning r.code.now r.stage };

    ghost invariant = { λ r. Stands r.code.now r.stage };
}

/// The tally of a run that ended as it was opened.
fn unfit_tally() -> Tally
    ensures { result ≡ tallied (start []) (Some UnfitStores) }
{
    Tally {
        steps: 0,
        names: NameTally {
            made: 0,
            used: 0,
            forgotten: 0,
            held: 0,
        },
        winds: WindTally {
            entered: 0,
            left: 0,
            current: 0,
        },
        ending: Some(Ending {
            end: End::UnfitStores,
            address: Address(0),
        }),
    }
}

impl<'a, F: Store, W: Store> Run<'a, F, W> {
    /// Opens a run of a code, with these numbers in its globals. On stores that are not fit it has ended at once.
    pub fn open(code: &'a Code, numbers: [i32; GLOBALS], frames: F, winds: W) -> Self
        ensures { result ≡ opened code.now numbers (offer_of (F.meaning frames)) (offer_of (W.meaning winds)) }
    {
        let stage = match Engine::open(numbers, frames, winds) {
            Ok(engine) => Stage::Open(engine, None),
            Err((frames, winds)) => Stage::Unfit(frames, winds),
        };
        Run { code, stage }
    }

    /// Makes at most so many steps, as long as their lines fit in the buffer. A refused call changes nothing.
    pub fn run(&mut self, budget: u32, buffer: &mut [u8]) -> Result<Progress, RunRefusal>
        ensures { (result, buffer.new, self.new) ≡ ran self.old budget buffer.old }
    {
        let Stage::Open(engine, end) = &mut self.stage else {
            return Err(RunRefusal::HasEnded);
        };
        if end.is_some() {
            return Err(RunRefusal::HasEnded);
        }
        admit(budget, buffer.len())?;
        let stopped = advance(engine, self.code, budget, buffer);
        *end = stopped.end;
        Ok(stopped.progress)
    }

    /// The run's figures, and how it ended, if it has.
    pub fn tally(&self) -> Tally
        ensures { result ≡ tallied self.now.state self.now.end }
    {
        match &self.stage {
            Stage::Open(engine, end) => engine.tally(*end),
            Stage::Unfit(_, _) => unfit_tally(),
        }
    }

    /// The cell at an index of the frame store.
    pub fn look(&self, index: u32) -> Result<Cell, IndexRefusal>
        ensures { result ≡ looked self.now index }
    {
        match &self.stage {
            Stage::Open(engine, _) => engine.frame_cell(index),
            Stage::Unfit(frames, _) => cell_at(frames, index),
        }
    }

    /// The cell at an index of the wind store.
    pub fn force(&self, index: u32) -> Result<Cell, IndexRefusal>
        ensures { result ≡ forced self.now index }
    {
        match &self.stage {
            Stage::Open(engine, _) => engine.wind_cell(index),
            Stage::Unfit(_, winds) => cell_at(winds, index),
        }
    }
}
